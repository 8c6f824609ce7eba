// The walk from the first position on: the levels that the choices name, written through the scan.
ghost use Rattle.std.specs.Prelude.{◌≡◌, ◌+◌, ◌-◌, ◌*◌, ◌≤◌, ◌<◌, length, get_or};
ghost use Rattle.block.specs.Block.{covered};
ghost use Rattle.block.specs.Checks.{choice_bytes};
ghost use Rattle.half_bytes.specs.Packed.{unpacked};
ghost use Rattle.scan.specs.Scan.{put};
ghost use Rattle.trellis.specs.Walk.{Walkable, walked};

use crate::search::Found;
use block::BlockData;
use steps::plan::Plan;
use trellis_table::position;

// The choice at a position, for `left` remaining and `prev`, where there is one.
fn choice_at(
    choices: &[u8],
    i: usize,
    least: usize,
    left: usize,
    prev: usize,
    width: usize,
) -> usize
    requires i_bound { (i < 1024) × ((left ≤ 131072) × (choice_bytes width * i + choice_bytes width ≤ length choices.now)) }
    requires least_le_left { (least ≤ left) × ((left ≤ least + (2 * width + 1)) × ((prev ≤ 1) × (width ≤ 12))) }
    ensures { let choice = get_or (unpacked choices.now) (2 * (choice_bytes width * i) + (2 * (left - least) + prev)) 0 in choice ≤ 14 → result ≡ choice }
{
    usize::from(half_bytes::half(choices, (2 * width + 2) * i + (left - least), prev))
}

// Of a search that found a finite cost.
pub(crate) fn write_levels(
    block: &BlockData,
    levels: &mut [i32],
    plan: Plan,
    choices: &[u8],
    found: Found,
    width: usize,
)
    requires { Walkable width block.now.scan.now block.now.source.now block.now.inv_qm.now levels.old plan found.past found.nonzeros choices.now found.count }
    ensures { (w : Walkable width block.now.scan.now block.now.source.now block.now.inv_qm.now levels.old plan found.past found.nonzeros choices.now found.count) → levels.new ≡ put block.now.scan.now (walked width plan.window w.book w.searched.block found.count) (covered w.searched.block) plan.window.length levels.old }
{
    let window = plan.window;
    let covered = plan.covered;
    let mut prev = steps::tokens::first_prev(covered, found.count);
    let mut left = found.count;
    let mut after = found.nonzeros;
    let mut offered = [0i32; 5];
    for i in 0..window.length {
        let offer = plan.offer(block, levels, i, &mut offered);
        after -= steps::nonzero(offer.level);
        let least = position::least_count(found.past, after, width);
        let level = offered[choice_at(choices, i, least, left, prev, width)];
        steps::write_level(block.scan, levels, covered + i, level);
        prev = steps::nonzero(level);
        left -= prev;
    }
}
