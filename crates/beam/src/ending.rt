// The last step: the first least over the paths that are kept.
ghost use Rattle.std.specs.Prelude.{◌≡◌, List, ◌<◌, get_or};
ghost use Rattle.beam_paths.specs.Held.{PathsFor, no_path};
ghost use Rattle.beam_paths.specs.Path.{Path};
ghost use Rattle.block.specs.Block.{Block};
ghost use Rattle.prices.specs.Contents.{contents};
ghost use Rattle.steps.specs.Plan.{Planned};
ghost use Rattle.beam.specs.Beam.{path_total, problem};
ghost use Rattle.beam.specs.Held.{paths, Countable, Ended};

use beam_paths::Paths;
use prices::book::PriceBook;
use steps::best::Best;
use steps::plan::Plan;
use steps::tokens;

// The whole cost of path `j`.
fn total_of(book: &PriceBook, plan: Plan, kept: Paths, j: usize) -> f32
    requires countable { Countable (contents book.now) plan kept }
    requires j_lt_count { j < kept.count }
    ensures { (b : Block) (xs : List Path) → Planned b plan → PathsFor xs kept
        → result ≡ path_total (problem plan.window (contents book.now) b) (get_or xs j no_path) }
{
    let count = kept.remaining[j];
    let prev = tokens::first_prev(plan.covered, count);
    kept.costs[2 * j + prev] + tokens::count_cost(book, plan, count)
}

// The least cost, and the path that has it.
pub(crate) fn best_path(book: &PriceBook, plan: Plan, kept: Paths) -> Best<usize>
    requires { Countable (contents book.now) plan kept }
    ensures { (b : Block) → Planned b plan → PathsFor (paths plan.window (contents book.now) b 0) kept
        → Ended plan.window (contents book.now) b result }
{
    // No path stands at 3: where none is cheaper than +infinity, none is found.
    let mut best = Best {
        cost: costs::infinity(),
        choice: 3,
    };
    for j in 0..kept.count {
        let cost = total_of(book, plan, kept, j);
        best = best.consider(cost, j);
    }
    best
}
