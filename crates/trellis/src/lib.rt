// The count-banded trellis: a least-cost choice of levels in the band.
#![tactic(auto)]

mod search;
mod walk;

ghost use Rattle.std.specs.Prelude.{◌≡◌, ◌≤◌, ◌<◌};
ghost use Rattle.block.specs.Block.{covered};
ghost use Rattle.block.specs.Checks.{choice_bytes, states};
ghost use Rattle.rooms.specs.Lending.{SameBuffers, lent_in, result_in};
ghost use Rattle.prices.specs.Contents.{contents};
ghost use Rattle.search_checks.specs.Checked.{Accepted};
ghost use Rattle.weights.specs.Window.{window_for};
ghost use Rattle.trellis.specs.Demand.{Promised};
ghost use Rattle.trellis.specs.Outcome.{searched_outcome};
ghost use Rattle.trellis.specs.Walk.{Roomy};
ghost use Rattle.block.specs.Data.{block_with};
ghost use Rattle.price_view.specs.View.{book_in};
ghost use Rattle.block.specs.Answer.{answer_of};

use block::{Answer, BlockData};
use block_checks::{Asked, Limits};
use price_view::PriceView;
use prices::book::PriceBook;
use rooms::Room;
pub use trellis_table::position::Walk;

// The room that the search asks for, by either walk, for any half-width that a caller may set.
pub fn asked(half_width: u32) -> Asked
    ensures value { result ≡ record { bytes = choice_bytes half_width; floats = states half_width } }
    ensures bytes_bound { result.bytes ≤ 17179869184 }
{
    let bytes = 2 * half_width as usize + 2;
    Asked {
        bytes,
        floats: 2 * bytes,
    }
}

// The search alone, of a block that passed its checks, by either walk.
pub fn search_banded(
    walk: Walk,
    book: &PriceBook,
    block: &BlockData,
    levels: &mut [i32],
    room: &mut Room,
    limits: Limits,
) -> Answer
    requires width_bound { limits.half_width ≤ 12 }
    requires accepted { let b = block_with block.now levels.old in let v = window_for limits.cap (covered b) in
        Accepted v (contents book.now) b × Roomy limits.half_width v room.old.choices.now room.old.row_a.now room.old.row_b.now }
    ensures same { SameBuffers room.old room.new }
    ensures outcome { let b = block_with block.now levels.old in
        result_in (answer_of result) levels.new room.new
        ≡ searched_outcome limits.half_width (window_for limits.cap (covered b)) (contents book.now) b
        (lent_in levels.old room.old) }
{
    let width = limits.half_width as usize;
    let plan = steps::reading::plan_of(block, limits.cap);
    let choices = &mut *room.choices;
    let found = search::search(
        walk, book, block, levels, plan, choices, room.row_a, room.row_b, width,
    );
    let answer = search::write_found(block, levels, plan, choices, found, width);
    rooms::clear_choices(choices);
    room.clear_rows();
    answer
}

// Writes the levels of a least-cost choice in the band, and answers its cost and its count of nonzero levels from scan position c on; or
// refuses with 15 where every choice there needs a token of infinite price. Both ways the choice bytes end as 255 and the rows as
// +infinity, surplus included. Answer and buffers do not depend on the walk. Room, for a half-width of w: 2w + 2 choice bytes a window position, and two rows of 2(2w + 2) costs. Refused by one of its checks, nothing changes. A level written
// may be 32,768 in size, which check 12 refuses in a later call.
pub fn rdoq_block_banded(
    walk: Walk,
    view: &PriceView,
    block: &BlockData,
    half_width: u32,
    levels: &mut [i32],
    room: &mut Room,
) -> Answer
    ensures same { SameBuffers room.old room.new }
    ensures outcome { Promised half_width
        (book_in view.now)
        (block_with block.now levels.old)
        (lent_in levels.old room.old)
        (result_in (answer_of result) levels.new room.new) }
{
    let limits = Limits {
        half_width,
        cap: weights::WINDOW_CAP,
    };
    let book = search_checks::check_search(
        view,
        block,
        levels,
        limits,
        asked(half_width),
        room.lengths(),
    )?;
    search_banded(walk, &book, block, levels, room, limits)
}
