// The checks of a search, in order, and where it starts once they have passed.
#![tactic(auto)]

pub mod start;

ghost use Rattle.std.specs.Prelude.{◌≡◌, cond, ◌≤◌};
ghost use Rattle.block.specs.Block.{covered};
ghost use Rattle.block.specs.Checks.{block_refusal, enough_room};
ghost use Rattle.block.specs.Data.{block_with};
ghost use Rattle.price_view.specs.View.{book_in};
ghost use Rattle.refusals.specs.Numbers.{code_of};
ghost use Rattle.weights.specs.Window.{window_for};
ghost use Rattle.search_checks.specs.Book.{IsPassed};

use block::BlockData;
use block_checks::{Asked, Limits, RoomLengths};
use price_view::PriceView;
use prices::book::PriceBook;
use refusals::Refusal;

// The checks of a block and of its room.
pub fn check_block_and_room(
    block: &BlockData,
    levels: &[i32],
    limits: Limits,
    asked: Asked,
    room: RoomLengths,
) -> Result<(), Refusal>
    requires { asked.bytes ≤ 17179869184 }
    ensures { let b = block_with block.now levels.now in
        let v = window_for limits.cap (covered b) in
        code_of result ≡ block_refusal limits.half_width v b (cond (enough_room asked.bytes asked.floats v.length room.choices room.row_a room.row_b) 0 14) }
{
    block_checks::check_block(block, levels, limits.half_width, limits.cap)?;
    let shape = block.shape;
    let window = weights::window_under(limits.cap, shape.cx as usize * shape.cy as usize);
    if !block_checks::enough_room(asked, window.length, room) {
        return Err(Refusal::Room);
    }
    Ok(())
}

// The checks of a search: those of the book, then those of the block and its room. Answers the book.
pub fn check_search<'a>(
    view: &PriceView<'a>,
    block: &BlockData,
    levels: &[i32],
    limits: Limits,
    asked: Asked,
    room: RoomLengths,
) -> Result<PriceBook<'a>, Refusal>
    requires { asked.bytes ≤ 17179869184 }
    ensures { let b = block_with block.now levels.now in
        let v = window_for limits.cap (covered b) in
        IsPassed limits.half_width v (book_in view.now) b (enough_room asked.bytes asked.floats v.length room.choices room.row_a room.row_b) result }
{
    let book = book_checks::checked_book(view)?;
    check_block_and_room(block, levels, limits, asked, room)?;
    Ok(book)
}
