// The zeros that a nonzero level has coded in front of it where none stands behind it.
ghost use Rattle.std.specs.Prelude.{◌≡◌, ◌+◌, ◌-◌, ◌*◌, ◌<◌, ◌≤◌};
ghost use Rattle.block.specs.Block.{Block};
ghost use Rattle.prices.specs.Contents.{contents};
ghost use Rattle.steps.specs.Plan.{Planned};
ghost use Rattle.greedy_cost.specs.Run.{none, run_start, zeros_from, Windowed};

use prices::book::PriceBook;
use steps::plan::Plan;

// Where the zeros begin that stand right in front of window position i.
pub fn run_start(scan: &[u32], levels: &[i32], covered: usize, i: usize) -> usize
    requires { Windowed covered i scan.now levels.now }
    ensures { (result ≡ run_start scan.now levels.now covered i) × (result ≤ i) }
{
    for j in (0..i).rev() {
        if steps::level_at(scan, levels, covered + j) != 0 {
            return j + 1;
        }
    }
    0
}

// The prices of their tokens, summed front to back. The first has `prev` 1: a nonzero level stands before it, or it is the first
// position and the whole count is 1.
pub fn zeros(book: &PriceBook, plan: Plan, start: usize, end: usize) -> f32
    requires { (start ≤ end) × (plan.covered + end < 64 * plan.covered) }
    ensures { (b : Block) → Planned b plan → result ≡ zeros_from (contents book.now) b (end - start) start 1 none }
{
    let mut sum = 0.0f32;
    let mut prev = 1;
    for j in start..end {
        sum += steps::tokens::token_bits(book, plan, 1, plan.covered + j, prev, 0);
        prev = 0;
    }
    sum
}
