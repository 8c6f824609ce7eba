// The positions from the last to the first, over two rows that take turns.
ghost use Rattle.std.specs.Prelude.{◌≡◌, ◌+◌, ◌*◌, ◌≤◌, length};
ghost use Rattle.block.specs.Checks.{choice_bytes, states};
ghost use Rattle.prices.specs.Contents.{contents};
ghost use Rattle.trellis_table.specs.Rows.{live_of, TailFor, Rowed, Kept};

use crate::position;
use crate::position::{Counts, Step, Walk};
use block::BlockData;
use prices::book::PriceBook;
use steps::plan::Plan;

// Which of the two rows holds the costs of the position that was taken last. The rows themselves do not change places: of a `&mut` that may be either, a
// contract says no value.
#[derive(Clone, Copy, Debug, PartialEq, Eq)]
pub enum Live {
    First,
    Second,
}

// Where the costs of the first position stand, and for which counts.
#[derive(Clone, Copy)]
pub struct Last {
    pub step: Step,
    pub live: Live,
}

// The row that holds the costs of the first position, after the last exchange.
#[tactic(auto, unfolding(crate::specs::Rows::live_of))]
pub fn live_row<'a>(live: Live, first: &'a [f32], second: &'a [f32]) -> &'a [f32]
    ensures { result.now ≡ live_of live first.now second.now }
{
    match live {
        Live::First => first,
        Live::Second => second,
    }
}

pub fn take_positions(
    walk: Walk,
    book: &PriceBook,
    block: &BlockData,
    levels: &[i32],
    plan: Plan,
    past: usize,
    first: &mut [f32],
    second: &mut [f32],
    choices: &mut [u8],
    width: usize,
) -> Last
    requires width_bound { width ≤ 12 }
    requires tail_for { TailFor (contents book.now) block.now.scan.now block.now.source.now block.now.inv_qm.now levels.now plan past first.old }
    requires width_in_bounds { (states width ≤ length first.old) × ((states width ≤ length second.old) × (choice_bytes width * plan.window.length ≤ length choices.old)) }
    ensures rowed { (t : TailFor (contents book.now) block.now.scan.now block.now.source.now block.now.inv_qm.now levels.now plan past first.old)
        → Rowed width plan.window (contents book.now) t.searched.block 0 first.new second.new choices.new result.step result.live }
    ensures kept { Kept first.old first.new second.old second.new choices.old choices.new }
{
    let window = plan.window;
    let mut step = Step {
        counts: Counts {
            least: past,
            most: past,
        },
        after: past,
    };
    let mut live = Live::First;
    for i in (0..window.length).rev() {
        match live {
            Live::First => {
                step = position::take_position(
                    walk, book, block, levels, plan, past, i, step, first, second, choices, width,
                );
                live = Live::Second;
            }
            Live::Second => {
                step = position::take_position(
                    walk, book, block, levels, plan, past, i, step, second, first, choices, width,
                );
                live = Live::First;
            }
        }
    }
    Last { step, live }
}
