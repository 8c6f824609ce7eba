// The sum: from what follows the window back to its first position, each local cost added to what follows it, then what the count costs.
ghost use Rattle.std.specs.Prelude.{Ok, ◌≡◌, suc, ◌+◌, ◌<◌, ◌≤◌, T, length};
ghost use Rattle.ac_context.specs.Contexts.{Coefficient, Covered};
ghost use Rattle.bias.specs.Level.{is_level};
ghost use Rattle.block.specs.Block.{Block, covered as covered_by, input_remaining};
ghost use Rattle.block.specs.Answer.{Cost, answer_of};
ghost use Rattle.prices.specs.Contents.{contents};
ghost use Rattle.search_checks.specs.Checked.{Searched};
ghost use Rattle.steps.specs.Place.{local_at};
ghost use Rattle.steps.specs.Plan.{Planned, Whole};
ghost use Rattle.input_cost.specs.Input.{input_cost};
ghost use Rattle.input_cost.specs.Sum.{prev_at, Summed, Within};

use block::{BlockData, Picked};
use prices::book::PriceBook;
use search_checks::start;
use steps::plan::Plan;
use steps::{Place, tokens};

// What the levels from a window position on cost, and how many of them are nonzero.
#[derive(Clone, Copy)]
pub struct Sum {
    pub cost: f32,
    pub remaining: usize,
}

// `prev` at window position i: whether the level in front is nonzero. The first position's follows the count.
fn prev_at(scan: &[u32], levels: &[i32], covered: usize, i: usize, remaining: usize) -> usize
    requires whole { Whole covered covered scan.now levels.now }
    requires covered_bound { (covered ≤ 1024) × (covered + i ≤ length scan.now) }
    ensures value { (b : Block) → scan.now ≡ b.scan → levels.now ≡ b.levels → covered ≡ covered_by b → result ≡ prev_at b i remaining }
    ensures upper_bound { result ≤ 1 }
{
    if i == 0 {
        return tokens::first_prev(covered, remaining);
    }
    steps::nonzero(steps::level_at(scan, levels, covered + i - 1))
}

// The local cost of a level.
fn local_cost(book: &PriceBook, place: Place, remaining: usize, prev: usize, level: i32) -> f32
    requires covered { Covered place.covered place.log2 × (place.offset + 457 < 14850) }
    requires coefficient { 0 < remaining → Coefficient place.covered remaining place.k 0 }
    requires prev_bound { (prev ≤ 1) × T (is_level level) }
    ensures { result ≡ local_at (contents book.now) place remaining prev level }
{
    let context = place.context(remaining);
    let distortion = place.distortion(level);
    let pair = place.local_pair(book, context, level, distortion);
    steps::by_prev(prev, pair.first, pair.second)
}

// What follows the window.
fn sum_past(book: &PriceBook, plan: Plan, scan: &[u32], levels: &[i32]) -> Sum
    requires { Within plan scan.now levels.now }
    ensures { (b : Block) → scan.now ≡ b.scan → levels.now ≡ b.levels → Planned b plan
        → Summed plan.window (contents book.now) b plan.window.length result }
{
    let start = start::start_of(book, plan, scan, levels);
    let window = plan.window;
    let prev = prev_at(scan, levels, plan.covered, window.length, start.past);
    Sum {
        cost: steps::by_prev(prev, start.zero, start.one),
        remaining: start.past,
    }
}

// Window position i added to `after`, the sum from the next position on.
fn add_position(
    book: &PriceBook,
    plan: Plan,
    block: &BlockData,
    levels: &[i32],
    i: usize,
    after: Sum,
) -> Sum
    requires searched { Searched (contents book.now) block.now.scan.now block.now.source.now block.now.inv_qm.now levels.now plan }
    requires i_lt_length { i < plan.window.length }
    requires summed { (w : Searched (contents book.now) block.now.scan.now block.now.source.now block.now.inv_qm.now levels.now plan)
        → Summed plan.window (contents book.now) w.block (suc i) after }
    ensures { (w : Searched (contents book.now) block.now.scan.now block.now.source.now block.now.inv_qm.now levels.now plan)
        → Summed plan.window (contents book.now) w.block i result }
{
    let k = plan.covered + i;
    let level = steps::level_at(block.scan, levels, k);
    let ideal = steps::ideal_at(block, plan.scale, k);
    let place = plan.place(i, ideal, level);
    let remaining = after.remaining + steps::nonzero(level);
    let prev = prev_at(block.scan, levels, plan.covered, i, remaining);
    let local = local_cost(book, place, remaining, prev, level);
    Sum {
        cost: local + after.cost,
        remaining,
    }
}

// The whole cost, and the count.
pub(crate) fn cost_of(book: &PriceBook, plan: Plan, block: &BlockData, levels: &[i32]) -> Picked
    requires { Searched (contents book.now) block.now.scan.now block.now.source.now block.now.inv_qm.now levels.now plan }
    ensures { (w : Searched (contents book.now) block.now.scan.now block.now.source.now block.now.inv_qm.now levels.now plan)
        → answer_of (Ok result) ≡ Cost (input_cost plan.window (contents book.now) w.block) (input_remaining w.block (covered_by w.block)) }
{
    let window = plan.window;
    let mut sum = sum_past(book, plan, block.scan, levels);
    for i in (0..window.length).rev() {
        sum = add_position(book, plan, block, levels, i, sum);
    }
    let counted = tokens::count_cost(book, plan, sum.remaining);
    Picked {
        cost: Some(sum.cost + counted),
        count: sum.remaining as u32,
    }
}
