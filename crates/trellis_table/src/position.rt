// One position of the trellis, its row from the row after it.
ghost use Rattle.std.specs.Prelude.{◌≡◌, cond, eqb, ◌+◌, ◌-◌, ◌*◌, ◌<◌, ◌≤◌, max, min, length};
ghost use Rattle.block.specs.Checks.{choice_bytes, states};
ghost use Rattle.prices.specs.Contents.{contents};
ghost use Rattle.trellis_row.specs.Filled.{Fits, Filled};
ghost use Rattle.trellis_table.specs.Rows.{least_count, rise_at, NextFor, Stepped};

use block::BlockData;
use prices::book::PriceBook;
use steps::plan::Plan;
use steps::reading::CandidateList;
use trellis_row::row::Span;
use trellis_row::work::Row;

// The counts that a row holds.
#[derive(Clone, Copy)]
pub struct Counts {
    pub least: usize,
    pub most: usize,
}

// A position's row, and the nonzero input levels from the position on.
#[derive(Clone, Copy)]
pub struct Step {
    pub counts: Counts,
    pub after: usize,
}

#[tactic(auto, unfolding(crate::specs::Rows::least_count))]
pub fn least_count(past: usize, after: usize, width: usize) -> usize
    ensures { result ≡ least_count width past after }
{
    past.max(after.saturating_sub(width))
}

// By how much a count may rise at window position i: not at all where the level is 0 and can't be restored.
fn rise(restoring: usize, i: usize, level: i32) -> usize
    ensures { result ≡ rise_at restoring i level }
{
    if i < restoring {
        return 1;
    }
    steps::nonzero(level)
}

// The last count of position i's row: no further than `upto`, the last that may be read of the next row, and what the position adds. The
// first position's row is as long as the band and the `left` positions behind it allow, since the least cost is looked for among all of these.
fn last_count(
    i: usize,
    past: usize,
    after: usize,
    left: usize,
    width: usize,
    upto: usize,
    rise: usize,
) -> usize
    requires { (after ≤ 65536) × ((past ≤ 65536) × ((left ≤ 1024) × ((width ≤ 12) × ((upto ≤ 131072) × (rise ≤ 1))))) }
    ensures { result ≡ cond (eqb i 0) (min (after + width) (past + left) + 1) (upto + rise) }
{
    if i == 0 {
        return (after + width).min(past + left) + 1;
    }
    upto + rise
}

// What the band and the next row have in common.
fn span_of(after: usize, next: Counts, width: usize) -> Span
    requires { (after ≤ 65536) × (width ≤ 12) }
    ensures { (result.base ≡ next.least) × ((result.from ≡ max (after - width) next.least) × (result.upto ≡ min (after + width) next.most)) }
{
    Span {
        base: next.least,
        from: after.saturating_sub(width).max(next.least),
        upto: (after + width).min(next.most),
    }
}

// How a row is worked out. Both walks find the same costs and choices.
#[derive(Clone, Copy, Debug, PartialEq, Eq)]
pub enum Walk {
    // By runs of counts that share their local costs.
    Factored,
    // Edge by edge.
    Unfactored,
}

// A row of a position, by either walk.
fn fill_row(walk: Walk, row: &Row, current: &mut [f32], choices: &mut [u8])
    requires { Fits row.now current.old choices.old }
    ensures { Filled row.now current.old current.new choices.old choices.new }
{
    match walk {
        Walk::Factored => trellis_sole::fill_row(row, current, choices),
        Walk::Unfactored => trellis_edges::fill_row(row, current, choices),
    }
}

// Position `i`, from the row behind it, which is `next`. What all positions share comes one by one: a struct of it would have a lifetime for each reference.
pub fn take_position(
    walk: Walk,
    book: &PriceBook,
    block: &BlockData,
    levels: &[i32],
    plan: Plan,
    past: usize,
    i: usize,
    behind: Step,
    next: &[f32],
    current: &mut [f32],
    choices: &mut [u8],
    width: usize,
) -> Step
    requires width_bound { (width ≤ 12) × (i < plan.window.length) }
    requires next_for { NextFor width (contents book.now) block.now.scan.now block.now.source.now block.now.inv_qm.now levels.now plan past i behind.after next.now behind.counts }
    requires width_in_bounds { (states width ≤ length next.now) × ((states width ≤ length current.old) × (choice_bytes width * i + choice_bytes width ≤ length choices.old)) }
    ensures { (t : NextFor width (contents book.now) block.now.scan.now block.now.source.now block.now.inv_qm.now levels.now plan past i behind.after next.now behind.counts)
        → Stepped width plan.window (contents book.now) t.searched.block i current.old current.new choices.old choices.new result }
{
    let mut offered = [0i32; 5];
    let offer = plan.offer(block, levels, i, &mut offered);
    let place = plan.place(i, offer.ideal, offer.level);
    let window = plan.window;
    let after = behind.after;
    let span = span_of(after, behind.counts, width);
    let left = window.length - 1 - i;
    let rise = rise(window.restoring, i, offer.level);
    let counts = Counts {
        least: least_count(past, after, width),
        most: last_count(i, past, after, left, width, span.upto, rise),
    };
    let candidates = CandidateList {
        levels: &offered[..offer.count],
    };
    let row = Row {
        book,
        place,
        candidates,
        next,
        span,
        at: (2 * width + 2) * i,
        least: counts.least,
        most: counts.most,
    };
    fill_row(walk, &row, current, choices);
    Step {
        counts,
        after: after + steps::nonzero(offer.level),
    }
}
