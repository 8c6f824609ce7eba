// The positions from the last to the first: the paths of each, and its six choice bytes.
ghost use Rattle.std.specs.Prelude.{◌≡◌, suc, ◌+◌, ◌*◌, ◌≤◌, ◌<◌, length};
ghost use Rattle.beam_paths.specs.Held.{PathsFor};
ghost use Rattle.prices.specs.Contents.{contents};
ghost use Rattle.search_checks.specs.Checked.{Searched};
ghost use Rattle.beam.specs.Held.{paths, Stored, Stepped, Reached};

use beam_paths::Paths;
use block::BlockData;
use prices::book::PriceBook;
use steps::plan::Plan;
use steps::reading::CandidateList;

// Three paths, each with a choice for either `prev`.
pub(crate) const BEAM_STRIDE: usize = 6;

// Byte by byte, as `Stored` speaks of them.
fn store(choices: &mut [u8], at: usize, six: [u8; 6])
    requires { (at ≤ 65536) × (at + 6 ≤ length choices.old) }
    ensures { Stored at six choices.old choices.new }
{
    for j in 0..BEAM_STRIDE {
        choices[at + j] = six[j];
    }
}

// `behind` are the paths of the position after it.
fn take_position(
    book: &PriceBook,
    block: &BlockData,
    levels: &[i32],
    plan: Plan,
    i: usize,
    behind: Paths,
    choices: &mut [u8],
) -> Paths
    requires searched { Searched (contents book.now) block.now.scan.now block.now.source.now block.now.inv_qm.now levels.now plan }
    requires i_lt_length { (w : Searched (contents book.now) block.now.scan.now block.now.source.now block.now.inv_qm.now levels.now plan)
        → (i < plan.window.length) × PathsFor (paths plan.window (contents book.now) w.block (suc i)) behind }
    requires i_in_bounds { 6 * i + 6 ≤ length choices.old }
    ensures { (w : Searched (contents book.now) block.now.scan.now block.now.source.now block.now.inv_qm.now levels.now plan)
        → Stepped plan.window (contents book.now) w.block i choices.old choices.new result }
{
    let mut offered = [0i32; 5];
    let offer = plan.offer(block, levels, i, &mut offered);
    let place = plan.place(i, offer.ideal, offer.level);
    let candidates = CandidateList {
        levels: &offered[..offer.count],
    };
    let step = beam_row::take_step(book, place, &candidates, behind);
    let bytes = step.choices;
    store(choices, BEAM_STRIDE * i, bytes);
    step.paths
}

// The positions before `from`, down to `upto`. What all share comes one by one: a struct of it would have a lifetime for each reference.
pub(crate) fn take_positions(
    book: &PriceBook,
    block: &BlockData,
    levels: &[i32],
    plan: Plan,
    from: usize,
    upto: usize,
    start: Paths,
    choices: &mut [u8],
) -> Paths
    requires searched { Searched (contents book.now) block.now.scan.now block.now.source.now block.now.inv_qm.now levels.now plan }
    requires reached { (w : Searched (contents book.now) block.now.scan.now block.now.source.now block.now.inv_qm.now levels.now plan)
        → Reached plan.window (contents book.now) w.block from choices.old start }
    requires upto_le_from { (upto ≤ from) × (from ≤ plan.window.length) }
    requires length_in_bounds { 6 * plan.window.length ≤ length choices.old }
    ensures choices_len_unchanged { length choices.new ≡ length choices.old }
    ensures reached_after { (w : Searched (contents book.now) block.now.scan.now block.now.source.now block.now.inv_qm.now levels.now plan)
        → Reached plan.window (contents book.now) w.block upto choices.new result }
{
    let mut paths = start;
    for i in (upto..from).rev() {
        paths = take_position(book, block, levels, plan, i, paths, choices);
    }
    paths
}
