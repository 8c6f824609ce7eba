// The greedy search: one pass over the window, from the last position to the first, that takes each position's cheapest candidate.
#![tactic(auto)]

mod pass;

ghost use Rattle.std.specs.Prelude.{◌≡◌};
ghost use Rattle.block.specs.Block.{covered};
ghost use Rattle.prices.specs.Contents.{contents};
ghost use Rattle.search_checks.specs.Checked.{Accepted};
ghost use Rattle.weights.specs.Window.{window_for};
ghost use Rattle.greedy.specs.Greedy.{outcome_of, searched_outcome, Promised};
ghost use Rattle.block.specs.Data.{block_with};
ghost use Rattle.price_view.specs.View.{book_in};
ghost use Rattle.block.specs.Answer.{answer_of};

use block::{Answer, BlockData, Picked};
use block_checks::{Asked, Limits, RoomLengths};
use price_view::PriceView;
use prices::book::PriceBook;

// The search alone, of a block that passed its checks: a window of at most `cap` positions.
pub fn search_greedy(book: &PriceBook, block: &BlockData, levels: &mut [i32], cap: usize) -> Answer
    requires { let b = block_with block.now levels.old in Accepted (window_for cap (covered b)) (contents book.now) b }
    ensures { let b = block_with block.now levels.old in
        outcome_of (answer_of result) levels.new ≡ searched_outcome (window_for cap (covered b)) (contents book.now) b }
{
    let plan = steps::reading::plan_of(block, cap);
    let count = pass::settle(book, plan, block, levels);
    Ok(Picked {
        cost: None,
        count: count as u32,
    })
}

// Writes each position's cheapest candidate and answers the count of nonzero levels from scan position c on; or refuses by one of
// its checks and changes nothing. Where no candidate's cost is finite the level stays. A level written may be 32,768 in size,
// which check 12 refuses in a later call.
pub fn rdoq_block_greedy(
    view: &PriceView,
    block: &BlockData,
    half_width: u32,
    levels: &mut [i32],
) -> Answer
    ensures { Promised half_width
        (book_in view.now)
        (block_with block.now levels.old)
        (outcome_of (answer_of result) levels.new) }
{
    let book = search_checks::check_search(
        view,
        block,
        levels,
        Limits {
            half_width,
            cap: weights::WINDOW_CAP,
        },
        Asked {
            bytes: 0,
            floats: 0,
        },
        RoomLengths {
            choices: 0,
            row_a: 0,
            row_b: 0,
        },
    )?;
    search_greedy(&book, block, levels, weights::WINDOW_CAP)
}
