// What a candidate costs, and the cheapest of them.
ghost use Rattle.std.specs.Prelude.{◌≡◌, false, ◌+◌, ◌*◌, ◌<◌, ◌≤◌, T};
ghost use Rattle.std.specs.Float.{inf};
ghost use Rattle.bias.specs.Level.{is_level};
ghost use Rattle.block.specs.Block.{Block};
ghost use Rattle.least_cost.specs.Search.{holder};
ghost use Rattle.prices.specs.Contents.{contents};
ghost use Rattle.steps.specs.Place.{place_of};
ghost use Rattle.steps.specs.Plan.{Planned};
ghost use Rattle.greedy_cost.specs.Cost.{prev_of, bits_of, cost_of};

use prices::book::PriceBook;
use steps::Place;
use steps::best::Best;
use steps::plan::Plan;
use steps::reading::CandidateList;

// What stands around a position: the nonzero levels behind it and of all others, whether the level in front is nonzero, and the
// price of the run.
#[derive(Clone, Copy)]
pub struct Around {
    pub later: usize,
    pub others: usize,
    pub front: usize,
    pub run: f32,
}

// `prev` at window position i: the first position's follows the block's count.
fn prev_at(covered: usize, i: usize, front: usize, count: usize) -> usize
    requires { (covered ≤ 1024) × (front ≤ 1) }
    ensures value { (b : Block) → covered ≡ Rattle.block.specs.Block.covered b → result ≡ prev_of b i front count }
    ensures upper_bound { result ≤ 1 }
{
    if i == 0 {
        return steps::tokens::first_prev(covered, count);
    }
    front
}

// The bits of a level, `remaining` counting it and all nonzero levels behind it.
fn bits(
    book: &PriceBook,
    plan: Plan,
    i: usize,
    remaining: usize,
    prev: usize,
    run: f32,
    level: i32,
) -> f32
    requires i_bound { (remaining + (plan.covered + i) ≤ 64 * plan.covered) × (prev ≤ 1) }
    requires t { T (is_level level) }
    ensures { (b : Block) → Planned b plan → result ≡ bits_of (contents book.now) b i remaining prev run level }
{
    if remaining == 0 {
        return 0.0;
    }
    let token = steps::tokens::token_bits(book, plan, remaining, plan.covered + i, prev, level);
    if level == 0 {
        return token;
    }
    token + run
}

// What a candidate costs.
fn candidate_cost(
    book: &PriceBook,
    plan: Plan,
    place: Place,
    i: usize,
    around: Around,
    level: i32,
) -> f32
    requires i_bound { (around.later + 1 + (plan.covered + i) ≤ 64 * plan.covered) × ((around.others < 64 * plan.covered) × (around.front ≤ 1)) }
    requires t { T (is_level level) }
    ensures { (b : Block) → Planned b plan → place ≡ place_of b plan.log2 i
        → result ≡ cost_of (contents book.now) b i around.later around.others around.front around.run level }
{
    let nonzero = steps::nonzero(level);
    let count = around.others + nonzero;
    let prev = prev_at(plan.covered, i, around.front, count);
    let bits = bits(
        book,
        plan,
        i,
        around.later + nonzero,
        prev,
        around.run,
        level,
    );
    let distortion = place.distortion(level);
    let rated = place.rate(level) * bits;
    let counted = steps::tokens::count_cost(book, plan, count);
    distortion + rated + counted
}

// The first of the cheapest candidates; the current level where no cost is finite.
pub fn cheapest(
    book: &PriceBook,
    plan: Plan,
    place: Place,
    candidates: &CandidateList,
    i: usize,
    around: Around,
    current: i32,
) -> i32
    requires i_bound { (around.later + 1 + (plan.covered + i) ≤ 64 * plan.covered) × ((around.others < 64 * plan.covered) × (around.front ≤ 1)) }
    requires t { T (is_level current) }
    ensures value { (b : Block) → Planned b plan → place ≡ place_of b plan.log2 i
        → result ≡ holder (cost_of (contents book.now) b i around.later around.others around.front around.run) (inf false) current candidates.now.levels.now }
    ensures level_kept { T (is_level result) }
{
    let mut best = Best {
        cost: costs::infinity(),
        choice: current,
    };
    for &level in candidates.levels {
        let cost = candidate_cost(book, plan, place, i, around, level);
        best = best.consider(cost, level);
    }
    best.choice
}
