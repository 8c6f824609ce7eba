// The beam search: at most three paths are kept from one position to the next, and the cheapest that is left is taken.
#![tactic(auto)]

mod ending;
mod positions;
mod search;
mod walk;

ghost use Rattle.std.specs.Prelude.{◌≡◌, ◌*◌, ◌≤◌, length};
ghost use Rattle.block.specs.Block.{covered};
ghost use Rattle.prices.specs.Contents.{contents};
ghost use Rattle.search_checks.specs.Checked.{Accepted};
ghost use Rattle.weights.specs.Window.{window_for};
ghost use Rattle.beam.specs.Beam.{outcome_of, searched_outcome};
ghost use Rattle.beam.specs.Demand.{Promised};
ghost use Rattle.block.specs.Data.{block_with};
ghost use Rattle.price_view.specs.View.{book_in};
ghost use Rattle.block.specs.Answer.{answer_of};

use block::{Answer, BlockData};
use block_checks::{Asked, Limits, RoomLengths};
use price_view::PriceView;
use prices::book::PriceBook;

// Choice bytes a window position.
pub const BEAM_BYTES: usize = positions::BEAM_STRIDE;

// The search alone, of a block that passed its checks: a window of at most `cap` positions.
pub fn search_beam(
    book: &PriceBook,
    block: &BlockData,
    levels: &mut [i32],
    choices: &mut [u8],
    cap: usize,
) -> Answer
    requires { let b = block_with block.now levels.old in let v = window_for cap (covered b) in
        Accepted v (contents book.now) b × (6 * v.length ≤ length choices.old) }
    ensures { let b = block_with block.now levels.old in
        outcome_of (answer_of result) levels.new choices.new ≡ searched_outcome (window_for cap (covered b)) (contents book.now) b choices.old }
{
    let plan = steps::reading::plan_of(block, cap);
    let answer = search::search(book, block, levels, plan, choices);
    rooms::clear_choices(choices);
    answer
}

// Writes the levels of the cheapest path that is left, and answers its cost and its count of nonzero levels from scan position c on; or
// refuses with 16 where every path that is left has an infinite cost. Both ways the choice bytes end as 255, surplus included. Room: six choice bytes a window position. Refused by one of its
// checks, nothing changes. A level written may be 32,768 in size, which check 12 refuses in a later call.
pub fn rdoq_block_beam(
    view: &PriceView,
    block: &BlockData,
    half_width: u32,
    levels: &mut [i32],
    choices: &mut [u8],
) -> Answer
    ensures { Promised half_width
        (book_in view.now)
        (block_with block.now levels.old)
        choices.old
        (outcome_of (answer_of result) levels.new choices.new) }
{
    let book = search_checks::check_search(
        view,
        block,
        levels,
        Limits {
            half_width,
            cap: weights::WINDOW_CAP,
        },
        Asked {
            bytes: BEAM_BYTES,
            floats: 0,
        },
        RoomLengths {
            choices: choices.len(),
            row_a: 0,
            row_b: 0,
        },
    )?;
    search_beam(&book, block, levels, choices, weights::WINDOW_CAP)
}
