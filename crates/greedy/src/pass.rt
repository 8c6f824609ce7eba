// The pass over the window, and the counts that it keeps.
ghost use Rattle.std.specs.Prelude.{◌≡◌, ◌&&◌, ◌||◌, ◌+◌, ◌-◌, ◌*◌, ◌<◌, ◌≤◌, T, eqb, length, get_or, set};
ghost use Rattle.bias.specs.Level.{is_level};
ghost use Rattle.block.specs.Band.{input_after};
ghost use Rattle.block.specs.Block.{Block, covered as covered_by};
ghost use Rattle.candidates.specs.Candidates.{is_current};
ghost use Rattle.greedy_cost.specs.Run.{Windowed};
ghost use Rattle.least_cost.specs.Position.{nz};
ghost use Rattle.prices.specs.Contents.{contents};
ghost use Rattle.scan.specs.Scan.{Perm, level_at};
ghost use Rattle.steps.specs.Plan.{Planned, Lists};
ghost use Rattle.greedy.specs.Greedy.{front_of, run_of, chosen, settled_at, greedy_levels};
ghost use Rattle.greedy.specs.Reading.{Fitting, Ready, count_from};

use block::BlockData;
use greedy_cost::cost::Around;
use greedy_cost::{cost, run};
use prices::book::PriceBook;
use steps::plan::Plan;
use steps::reading::CandidateList;

// The nonzero levels behind the position, and those of the whole block, from scan position c on.
#[derive(Clone, Copy)]
pub struct Counts {
    pub later: usize,
    pub total: usize,
}

// A position stays as it is where it has one candidate, or holds a 0 behind which nothing is coded. By `if`: as one expression all three tests are made each
// time, and a call takes 1.7 % more instructions.
fn stays(candidates: usize, current: i32, later: usize) -> bool
    ensures { result ≡ (eqb candidates 1 || (eqb (nz current) 0 && eqb later 0)) }
{
    if candidates == 1 {
        return true;
    }
    if current == 0 {
        return later == 0;
    }
    false
}

// Whether the level in front is nonzero.
fn front(scan: &[u32], levels: &[i32], covered: usize, i: usize) -> usize
    requires { Windowed covered i scan.now levels.now }
    ensures value { (b : Block) → scan.now ≡ b.scan → levels.now ≡ b.levels → covered ≡ covered_by b → result ≡ front_of b i }
    ensures upper_bound { result ≤ 1 }
{
    if i == 0 {
        return 0;
    }
    steps::nonzero(steps::level_at(scan, levels, covered + i - 1))
}

// The price of the zeros that a nonzero level would have coded in front of it.
fn run_bits(
    book: &PriceBook,
    plan: Plan,
    scan: &[u32],
    levels: &[i32],
    i: usize,
    later: usize,
) -> f32
    requires windowed { Windowed plan.covered i scan.now levels.now }
    requires i_bound { plan.covered + i < 64 * plan.covered }
    ensures { (b : Block) → scan.now ≡ b.scan → levels.now ≡ b.levels → Planned b plan → later ≡ input_after b i
        → result ≡ run_of (contents book.now) b i }
{
    if later > 0 {
        return 0.0;
    }
    let start = run::run_start(scan, levels, plan.covered, i);
    run::zeros(book, plan, start, i)
}

// The level that window position i takes.
fn choice(
    book: &PriceBook,
    plan: Plan,
    block: &BlockData,
    levels: &[i32],
    i: usize,
    counts: Counts,
) -> i32
    requires fitting { Fitting plan }
    requires ready { Ready plan block.now.scan.now block.now.source.now block.now.inv_qm.now levels.now (plan.covered + i + 1) }
    requires i_lt_length { i < plan.window.length }
    requires later_value { (counts.later ≡ count_from block.now.scan.now levels.now plan.covered (plan.covered + i + 1)) × (counts.total ≡ count_from block.now.scan.now levels.now plan.covered plan.covered) }
    ensures value { (b : Block) → Lists b block.now.scan.now block.now.source.now block.now.inv_qm.now levels.now → Planned b plan
        → result ≡ chosen plan.window (contents book.now) b i }
    ensures t { T (is_level result) }
{
    let mut offered = [0i32; 5];
    let offer = plan.offer(block, levels, i, &mut offered);
    let current = offer.level;
    if stays(offer.count, current, counts.later) {
        return current;
    }
    let place = plan.place(i, offer.ideal, current);
    let front = front(block.scan, levels, plan.covered, i);
    let run = run_bits(book, plan, block.scan, levels, i, counts.later);
    let around = Around {
        later: counts.later,
        others: counts.total - steps::nonzero(current),
        front,
        run,
    };
    let candidates = CandidateList {
        levels: &offered[..offer.count],
    };
    cost::cheapest(book, plan, place, &candidates, i, around, current)
}

// Writes the level at scan position k, and says whether the level that stood there is nonzero.
fn write(scan: &[u32], levels: &mut [i32], k: usize, level: i32) -> usize
    requires k_in_bounds { (k < length scan.now) × (get_or scan.now k 0 < length levels.old) }
    requires t { T (is_current (level_at scan.now levels.old k)) }
    ensures value { result ≡ nz (level_at scan.now levels.old k) }
    ensures levels_after { levels.new ≡ set levels.old (get_or scan.now k 0) level }
{
    let at = scan[k] as usize;
    let before = steps::nonzero(levels[at]);
    levels[at] = level;
    before
}

// Settles window position i.
fn step(
    book: &PriceBook,
    plan: Plan,
    block: &BlockData,
    levels: &mut [i32],
    i: usize,
    counts: Counts,
) -> Counts
    requires fitting { Fitting plan }
    requires ready { Ready plan block.now.scan.now block.now.source.now block.now.inv_qm.now levels.old (plan.covered + i + 1) }
    requires i_lt_length { i < plan.window.length }
    requires later_value { (counts.later ≡ count_from block.now.scan.now levels.old plan.covered (plan.covered + i + 1)) × (counts.total ≡ count_from block.now.scan.now levels.old plan.covered plan.covered) }
    ensures levels_after { (b : Block) → Lists b block.now.scan.now block.now.source.now block.now.inv_qm.now levels.old → Planned b plan
        → levels.new ≡ settled_at plan.window (contents book.now) b i }
    ensures ready_2 { Ready plan block.now.scan.now block.now.source.now block.now.inv_qm.now levels.new (plan.covered + i) }
    ensures later_value_2 { (result.later ≡ count_from block.now.scan.now levels.new plan.covered (plan.covered + i)) × (result.total ≡ count_from block.now.scan.now levels.new plan.covered plan.covered) }
{
    let level = choice(book, plan, block, levels, i, counts);
    let before = write(block.scan, levels, plan.covered + i, level);
    let nonzero = steps::nonzero(level);
    Counts {
        later: counts.later + nonzero,
        total: counts.total - before + nonzero,
    }
}

// The counts at the window's end.
fn counts_of(scan: &[u32], levels: &[i32], covered: usize, window: usize) -> Counts
    requires perm { (Perm scan.now (length levels.now)) × (length levels.now ≡ 64 * covered) }
    requires window_bound { (covered + window ≤ 64 * covered) × (covered ≤ 1024) }
    ensures { (result.later ≡ count_from scan.now levels.now covered (covered + window)) × (result.total ≡ count_from scan.now levels.now covered covered) }
{
    let end = covered + window;
    let later = steps::tokens::nonzeros_from(scan, levels, end);
    Counts {
        later,
        total: later + steps::tokens::nonzeros_between(scan, levels, covered, end),
    }
}

// The whole pass. The count of nonzero levels from scan position c on.
pub(crate) fn settle(book: &PriceBook, plan: Plan, block: &BlockData, levels: &mut [i32]) -> usize
    requires fitting { Fitting plan }
    requires ready { Ready plan block.now.scan.now block.now.source.now block.now.inv_qm.now levels.old (64 * plan.covered) }
    ensures levels_after { (b : Block) → Lists b block.now.scan.now block.now.source.now block.now.inv_qm.now levels.old → Planned b plan
        → levels.new ≡ greedy_levels plan.window (contents book.now) b }
    ensures value { result ≡ count_from block.now.scan.now levels.new plan.covered plan.covered }
{
    let window = plan.window;
    let mut counts = counts_of(block.scan, levels, plan.covered, window.length);
    for i in (0..window.length).rev() {
        counts = step(book, plan, block, levels, i, counts);
    }
    counts.total
}
