// The small product: the searches for blocks of one or two covered blocks, over a window of 32 positions and so in little room. It stands on the contract of
// `searches::rdoq_block_in` and on nothing else of the first product.
#![tactic(auto)]

ghost use Rattle.std.specs.Prelude.{◌≡◌, ◌*◌, leb};
ghost use Rattle.block.specs.Block.{block_of};
ghost use Rattle.rooms.specs.Lending.{SameBuffers, lent_in, result_in};
ghost use Rattle.small.specs.Small.{Promised};
ghost use Rattle.block.specs.Data.{block_with};
ghost use Rattle.price_view.specs.View.{book_in};
ghost use Rattle.block.specs.Answer.{answer_of};

use block::{Answer, BlockData};
use block_checks::Limits;
use price_view::PriceView;
use refusals::Refusal;
use rooms::Room;
use searches::Search;

// The window's positions.
pub const SMALL_WINDOW: usize = 32;

// Check 32, of sides that may be anything: their product does not wrap.
pub fn is_small(cx: u32, cy: u32) -> bool
    ensures { result ≡ leb (cx * cy) 2 }
{
    u64::from(cx) * u64::from(cy) <= 2
}

// Re-picks the levels of a block by the search that is named. The half-width of the trellis's band is 6. The trellis asks for 448 choice bytes and two rows of 28 floats, the beam
// for 192 choice bytes.
pub fn rdoq_small_block(
    search: Search,
    view: &PriceView,
    block: &BlockData,
    levels: &mut [i32],
    room: &mut Room,
) -> Answer
    ensures same { SameBuffers room.old room.new }
    ensures outcome { Promised search
        (book_in view.now)
        (block_with block.now levels.old)
        (lent_in levels.old room.old)
        (result_in (answer_of result) levels.new room.new) }
{
    if !is_small(block.shape.cx, block.shape.cy) {
        return Err(Refusal::NotSmall);
    }
    searches::rdoq_block_in(
        search,
        view,
        block,
        levels,
        room,
        Limits {
            half_width: weights::HALF_WIDTH,
            cap: SMALL_WINDOW,
        },
    )
}
