// One call over the searches.
#![tactic(auto)]

pub mod named;

ghost use Rattle.std.specs.Prelude.{◌≡◌, ◌≤◌};
ghost use Rattle.block.specs.Answer.{answer_of};
ghost use Rattle.block.specs.Block.{covered};
ghost use Rattle.block.specs.Data.{block_with};
ghost use Rattle.rooms.specs.Lending.{SameBuffers, lent_in, result_in};
ghost use Rattle.price_view.specs.View.{book_in};
ghost use Rattle.prices.specs.Contents.{contents};
ghost use Rattle.weights.specs.Window.{window_for};
ghost use Rattle.searches.specs.Outcome.{PromisedIn, Promised, asked_by, searched_outcome};
ghost use Rattle.searches.specs.Accepted.{Searchable};

use block::{Answer, BlockData};
use block_checks::{Asked, Limits};
use price_view::PriceView;
use prices::book::PriceBook;
use rooms::Room;
use trellis::Walk::{Factored, Unfactored};

// Which search. The last two are one search by two walks.
#[derive(Clone, Copy, Debug, PartialEq, Eq)]
pub enum Search {
    Greedy,
    Beam,
    Trellis,
    Unfactored,
}

// The room that a search asks for. No plainer than an arm for each kind, here and in `search_block`: each has a call of its own.
#[tactic(auto, unfolding(crate::specs::Outcome::asked_by))]
fn asked_by(search: Search, width: u32) -> Asked
    ensures value { result ≡ asked_by width search }
    ensures bytes_bound { result.bytes ≤ 17179869184 }
{
    match search {
        Search::Greedy => Asked {
            bytes: 0,
            floats: 0,
        },
        Search::Beam => Asked {
            bytes: beam::BEAM_BYTES,
            floats: 0,
        },
        Search::Trellis | Search::Unfactored => trellis::asked(width),
    }
}

// The search that is named, of a block that passed its checks.
fn search_block(
    search: Search,
    book: &PriceBook,
    block: &BlockData,
    levels: &mut [i32],
    room: &mut Room,
    limits: Limits,
) -> Answer
    requires { let b = block_with block.now levels.old in let v = window_for limits.cap (covered b) in Searchable limits.half_width v search
        (contents book.now) b (lent_in levels.old room.old) }
    ensures same { SameBuffers room.old room.new }
    ensures outcome { let b = block_with block.now levels.old in
        result_in (answer_of result) levels.new room.new
        ≡ searched_outcome limits.half_width (window_for limits.cap (covered b)) search (contents book.now) b
        (lent_in levels.old room.old) }
{
    match search {
        Search::Greedy => greedy::search_greedy(book, block, levels, limits.cap),
        Search::Beam => {
            let answer = beam::search_beam(book, block, levels, room.choices, limits.cap);
            room.clear_rows();
            answer
        }
        Search::Trellis => trellis::search_banded(Factored, book, block, levels, room, limits),
        Search::Unfactored => {
            trellis::search_banded(Unfactored, book, block, levels, room, limits)
        }
    }
}

// The checks of the block, then the search that is named.
pub fn rdoq_block_checked(
    search: Search,
    book: &PriceBook,
    block: &BlockData,
    levels: &mut [i32],
    room: &mut Room,
    limits: Limits,
) -> Answer
    ensures same { SameBuffers room.old room.new }
    ensures outcome { let b = block_with block.now levels.old in PromisedIn limits.half_width (window_for limits.cap (covered b)) search
        (contents book.now) b
        (lent_in levels.old room.old)
        (result_in (answer_of result) levels.new room.new) }
{
    let asked = asked_by(search, limits.half_width);
    search_checks::check_block_and_room(block, levels, limits, asked, room.lengths())?;
    search_block(search, book, block, levels, room, limits)
}

// The same of any book: its checks come first.
pub fn rdoq_block_in(
    search: Search,
    view: &PriceView,
    block: &BlockData,
    levels: &mut [i32],
    room: &mut Room,
    limits: Limits,
) -> Answer
    ensures same { SameBuffers room.old room.new }
    ensures outcome { let b = block_with block.now levels.old in PromisedIn limits.half_width (window_for limits.cap (covered b)) search
        (book_in view.now) b
        (lent_in levels.old room.old)
        (result_in (answer_of result) levels.new room.new) }
{
    let book = book_checks::checked_book(view)?;
    rdoq_block_checked(search, &book, block, levels, room, limits)
}

// Re-picks the levels of a block by the search that is named, over all that a caller lends. Greedy touches no room, whatever its lengths. The beam asks for choice
// bytes alone; where it searches, it clears all of the room, the rows too. The trellis is `rdoq_block_banded`.
pub fn rdoq_block(
    search: Search,
    view: &PriceView,
    block: &BlockData,
    half_width: u32,
    levels: &mut [i32],
    room: &mut Room,
) -> Answer
    ensures same { SameBuffers room.old room.new }
    ensures outcome { Promised half_width search
        (book_in view.now)
        (block_with block.now levels.old)
        (lent_in levels.old room.old)
        (result_in (answer_of result) levels.new room.new) }
{
    rdoq_block_in(
        search,
        view,
        block,
        levels,
        room,
        Limits {
            half_width,
            cap: weights::WINDOW_CAP,
        },
    )
}
