// What a block's levels cost as they stand, by the definition of the searches' costs. A search's cost taken from it is what the search saved.
#![tactic(auto)]

mod sum;

ghost use Rattle.std.specs.Prelude.{◌≡◌, Ok};
ghost use Rattle.block.specs.Block.{covered, input_remaining};
ghost use Rattle.block.specs.Answer.{Cost, answer_of};
ghost use Rattle.prices.specs.Contents.{contents};
ghost use Rattle.search_checks.specs.Checked.{Accepted};
ghost use Rattle.weights.specs.Window.{window_for};
ghost use Rattle.input_cost.specs.Input.{input_cost, Promised};
ghost use Rattle.block.specs.Data.{block_with};
ghost use Rattle.price_view.specs.View.{book_in};

use block::{Answer, BlockData, Picked};
use block_checks::{Asked, Limits, RoomLengths};
use price_view::PriceView;
use prices::book::PriceBook;

// Of a book and a block that passed their checks.
fn passed_cost(book: &PriceBook, block: &BlockData, levels: &[i32]) -> Picked
    requires { let b = block_with block.now levels.now in Accepted (window_for 1024 (covered b)) (contents book.now) b }
    ensures { let b = block_with block.now levels.now in
        answer_of (Ok result) ≡ Cost (input_cost (window_for 1024 (covered b)) (contents book.now) b) (input_remaining b (covered b)) }
{
    let plan = steps::reading::plan_of(block, weights::WINDOW_CAP);
    sum::cost_of(book, plan, block, levels)
}

// The cost of the levels and the count of those from scan position c on that are nonzero; or the refusal of a check. Nothing is written. The half-width
// is one that passes: no cost depends on it.
pub fn rdoq_input_cost(view: &PriceView, block: &BlockData, levels: &[i32]) -> Answer
    ensures { Promised
        (book_in view.now)
        (block_with block.now levels.now) (answer_of result) }
{
    let book = search_checks::check_search(
        view,
        block,
        levels,
        Limits {
            half_width: weights::HALF_WIDTH,
            cap: weights::WINDOW_CAP,
        },
        Asked {
            bytes: 0,
            floats: 0,
        },
        RoomLengths {
            choices: 0,
            row_a: 0,
            row_b: 0,
        },
    )?;
    Ok(passed_cost(&book, block, levels))
}
