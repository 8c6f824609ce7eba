// What follows the window, where a search starts.
ghost use Rattle.std.specs.Prelude.{◌≡◌, ◌+◌, ◌*◌, ◌≤◌, length};
ghost use Rattle.block.specs.Block.{Block, covered};
ghost use Rattle.prices.specs.Contents.{contents};
ghost use Rattle.scan.specs.Scan.{Perm};
ghost use Rattle.steps.specs.Plan.{Planned, Whole};
ghost use Rattle.search_checks.specs.Start.{Starts};

use prices::book::PriceBook;
use steps::plan::Plan;
use steps::tokens;

// The nonzero levels past the window, and what they cost behind `prev` 0 and 1.
#[derive(Clone, Copy)]
pub struct Start {
    pub past: usize,
    pub zero: f32,
    pub one: f32,
}

pub fn start_of(book: &PriceBook, plan: Plan, scan: &[u32], levels: &[i32]) -> Start
    requires whole { Whole plan.covered (plan.covered + plan.window.length) scan.now levels.now }
    requires length_in_bounds { plan.covered + plan.window.length ≤ length scan.now }
    requires perm { (Perm scan.now (length levels.now)) × (length levels.now ≤ 65536) }
    ensures { (b : Block) → scan.now ≡ b.scan → levels.now ≡ b.levels → length b.scan ≡ 64 * covered b → Planned b plan
        → Starts plan.window (contents book.now) b result }
{
    let window = plan.window;
    let from = plan.covered + window.length;
    let past = tokens::nonzeros_from(scan, levels, from);
    let tails = tokens::tail_costs(book, plan, scan, levels, from, past);
    Start {
        past,
        zero: tails.first,
        one: tails.second,
    }
}
