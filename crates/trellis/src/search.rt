// The whole search of a block that passed its checks.
ghost use Rattle.std.specs.Prelude.{◌≡◌, ◌*◌, ◌≤◌, length};
ghost use Rattle.block.specs.Block.{Block};
ghost use Rattle.block.specs.Checks.{choice_bytes, states};
ghost use Rattle.prices.specs.Book.{Book};
ghost use Rattle.prices.specs.Contents.{contents};
ghost use Rattle.search_checks.specs.Checked.{Searched};
ghost use Rattle.search_checks.specs.Start.{Starts};
ghost use Rattle.trellis_table.specs.Rows.{TailRow, Kept};
ghost use Rattle.weights.specs.declared.Window.{Window};
ghost use Rattle.trellis.specs.Walk.{FoundIn, Done};
ghost use Rattle.trellis.specs.Outcome.{answered, written};
ghost use Rattle.block.specs.Answer.{answer_of};

use crate::walk;
use block::{Answer, BlockData, Picked};
use prices::book::PriceBook;
use refusals::Refusal;
use search_checks::start;
use search_checks::start::Start;
use steps::plan::Plan;
use trellis_table::position::Walk;
use trellis_table::{count, exchange};

// The least cost and its count, and the nonzero input levels past the window and from its first position on.
#[derive(Clone, Copy)]
pub struct Found {
    pub cost: f32,
    pub count: usize,
    pub past: usize,
    pub nonzeros: usize,
}

// Lays down what follows the window, for `prev` 0 and 1.
fn start_row(start: Start, row: &mut [f32])
    requires { 2 ≤ length row.old }
    ensures row_len_unchanged { length row.new ≡ length row.old }
    ensures tail_row { (v : Window) (book : Book) (b : Block) → Starts v book b start → TailRow v book b row.new }
{
    row[0] = start.zero;
    row[1] = start.one;
}

// Writes the levels of a finite least cost; else refuses with 15.
pub(crate) fn write_found(
    block: &BlockData,
    levels: &mut [i32],
    plan: Plan,
    choices: &[u8],
    found: Found,
    width: usize,
) -> Answer
    requires { Done width block.now.scan.now block.now.source.now block.now.inv_qm.now levels.old plan choices.now found }
    ensures { (d : Done width block.now.scan.now block.now.source.now block.now.inv_qm.now levels.old plan choices.now found) → (answer_of result ≡ answered width plan.window d.book d.searched.block) × (levels.new ≡ written width plan.window d.book d.searched.block) }
{
    if found.cost < costs::infinity() {
        walk::write_levels(block, levels, plan, choices, found, width);
        return Ok(Picked {
            cost: Some(found.cost),
            count: found.count as u32,
        });
    }
    Err(Refusal::BandInfinite)
}

// The search of a block that passed its checks.
pub(crate) fn search(
    walk: Walk,
    book: &PriceBook,
    block: &BlockData,
    levels: &[i32],
    plan: Plan,
    choices: &mut [u8],
    row_a: &mut [f32],
    row_b: &mut [f32],
    width: usize,
) -> Found
    requires width_bound { (width ≤ 12) × Searched (contents book.now) block.now.scan.now block.now.source.now block.now.inv_qm.now levels.now plan }
    requires width_in_bounds { (states width ≤ length row_a.old) × ((states width ≤ length row_b.old) × (choice_bytes width * plan.window.length ≤ length choices.old)) }
    ensures kept { Kept row_a.old row_a.new row_b.old row_b.new choices.old choices.new }
    ensures found_in { (s : Searched (contents book.now) block.now.scan.now block.now.source.now block.now.inv_qm.now levels.now plan) → FoundIn width plan.window (contents book.now) s.block choices.new result }
{
    let start = start::start_of(book, plan, block.scan, levels);
    let past = start.past;
    start_row(start, row_a);
    let last = exchange::take_positions(
        walk, book, block, levels, plan, past, row_a, row_b, choices, width,
    );
    let step = last.step;
    let live = exchange::live_row(last.live, row_a, row_b);
    let best = count::best_count(book, plan, live, step.counts);
    Found {
        cost: best.cost,
        count: best.choice,
        past,
        nonzeros: step.after,
    }
}
