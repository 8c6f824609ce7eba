// The walk from the first position on: the levels that the choices name, written through the scan.
ghost use Rattle.std.specs.Prelude.{◌≡◌, ◌+◌, ◌*◌, ◌≤◌, ◌<◌, length, get_or};
ghost use Rattle.block.specs.Block.{covered};
ghost use Rattle.scan.specs.Scan.{put};
ghost use Rattle.beam.specs.Held.{Walkable, levels_of};

use crate::positions;
use block::BlockData;
use steps::plan::Plan;
use steps::tokens;

// The choice at a position, for a path and `prev`.
fn choice_at(choices: &[u8], i: usize, path: usize, prev: usize) -> usize
    requires i_bound { (i < 1024) × (6 * i + 6 ≤ length choices.now) }
    requires path_bound { (path < 3) × (prev ≤ 1) }
    ensures { result ≡ get_or choices.now (6 * i + (2 * path + prev)) 0 }
{
    usize::from(choices[positions::BEAM_STRIDE * i + (2 * path + prev)])
}

// From path `first` of the first position, whose count is `count`.
pub(crate) fn write_levels(
    block: &BlockData,
    levels: &mut [i32],
    plan: Plan,
    choices: &[u8],
    first: usize,
    count: usize,
)
    requires { Walkable block.now.scan.now block.now.source.now block.now.inv_qm.now levels.old plan choices.now first count }
    ensures { (w : Walkable block.now.scan.now block.now.source.now block.now.inv_qm.now levels.old plan choices.now first count) → levels.new ≡ put block.now.scan.now (levels_of plan.window w.book w.searched.block first count) (covered w.searched.block) plan.window.length levels.old }
{
    let window = plan.window;
    let covered = plan.covered;
    let mut prev = tokens::first_prev(covered, count);
    let mut path = first;
    let mut offered = [0i32; 5];
    for i in 0..window.length {
        plan.offer(block, levels, i, &mut offered);
        let choice = choice_at(choices, i, path, prev);
        let level = offered[choice % 16];
        steps::write_level(block.scan, levels, covered + i, level);
        prev = steps::nonzero(level);
        path = choice / 16;
    }
}
