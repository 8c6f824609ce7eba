// The whole search of a block that passed its checks.
ghost use Rattle.std.specs.Prelude.{◌≡◌, ◌*◌, ◌≤◌, length};
ghost use Rattle.beam_paths.specs.Held.{PathsFor};
ghost use Rattle.block.specs.Block.{Block};
ghost use Rattle.prices.specs.Book.{Book};
ghost use Rattle.prices.specs.Contents.{contents};
ghost use Rattle.search_checks.specs.Checked.{Searched};
ghost use Rattle.search_checks.specs.Start.{Starts};
ghost use Rattle.weights.specs.declared.Window.{Window};
ghost use Rattle.beam.specs.Beam.{answered, written};
ghost use Rattle.beam.specs.Held.{paths, Done};
ghost use Rattle.block.specs.Answer.{answer_of};

use crate::{ending, positions, walk};
use beam_paths::Paths;
use block::{Answer, BlockData, Picked};
use prices::book::PriceBook;
use refusals::Refusal;
use search_checks::start;
use search_checks::start::Start;
use steps::best::Best;
use steps::plan::Plan;

// What follows the window, as the one path to start from.
fn start_paths(start: Start) -> Paths
    ensures { (v : Window) (book : Book) (b : Block) → Starts v book b start → PathsFor (paths v book b v.length) result }
{
    let remaining = [start.past, 0, 0];
    let costs = [start.zero, start.one, 0.0f32, 0.0f32, 0.0f32, 0.0f32];
    Paths {
        count: 1,
        remaining,
        costs,
    }
}

// Writes the levels of a finite least cost; else refuses with 16.
fn write_found(
    block: &BlockData,
    levels: &mut [i32],
    plan: Plan,
    choices: &[u8],
    kept: Paths,
    best: Best<usize>,
) -> Answer
    requires { Done block.now.scan.now block.now.source.now block.now.inv_qm.now levels.old plan choices.now kept best }
    ensures { (d : Done block.now.scan.now block.now.source.now block.now.inv_qm.now levels.old plan choices.now kept best) → (answer_of result ≡ answered plan.window d.book d.searched.block) × (levels.new ≡ written plan.window d.book d.searched.block) }
{
    if best.cost < costs::infinity() {
        let path = best.choice;
        let count = kept.remaining[path];
        walk::write_levels(block, levels, plan, choices, path, count);
        return Ok(Picked {
            cost: Some(best.cost),
            count: count as u32,
        });
    }
    Err(Refusal::PathsInfinite)
}

// The positions are taken by two calls, so that their loop stays a function of its own: inlined beside the checks it takes more instructions.
pub(crate) fn search(
    book: &PriceBook,
    block: &BlockData,
    levels: &mut [i32],
    plan: Plan,
    choices: &mut [u8],
) -> Answer
    requires searched { Searched (contents book.now) block.now.scan.now block.now.source.now block.now.inv_qm.now levels.old plan }
    requires length_in_bounds { 6 * plan.window.length ≤ length choices.old }
    ensures choices_len_unchanged { length choices.new ≡ length choices.old }
    ensures value { (w : Searched (contents book.now) block.now.scan.now block.now.source.now block.now.inv_qm.now levels.old plan)
        → (answer_of result ≡ answered plan.window (contents book.now) w.block) × (levels.new ≡ written plan.window (contents book.now) w.block) }
{
    let start = start::start_of(book, plan, block.scan, levels);
    let window = plan.window;
    let middle = window.length / 2;
    let later = positions::take_positions(
        book,
        block,
        levels,
        plan,
        window.length,
        middle,
        start_paths(start),
        choices,
    );
    let kept = positions::take_positions(book, block, levels, plan, middle, 0, later, choices);
    let best = ending::best_path(book, plan, kept);
    write_found(block, levels, plan, choices, kept, best)
}
