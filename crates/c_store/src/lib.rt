// The store of token runs, for programs in C and in other languages that call C. `include/rdoq.h` declares the calls.
#![tactic(auto)]

ghost use Rattle.std.specs.Prelude.{◌≡◌};
ghost use Rattle.store_map.specs.Store.{store_of};
ghost use Rattle.store_calls.specs.Calls.{Put, Dropped};
ghost use Rattle.c_store.specs.Told.{ReadTold};

// Holds the tokens under a block number, in place of a run already there.
#[unsafe(no_mangle)]
pub extern "C" fn rdoq_store_put(
    room: &mut [u64],
    rec: &mut [u64],
    block: u32,
    tokens: &[u64],
) -> u32
    ensures { Put (store_of room.old rec.old) block tokens.now result (store_of room.new rec.new) }
{
    refusals::code(store_calls::store::put(room, rec, block, tokens))
}

// Gives the room of a run back.
#[unsafe(no_mangle)]
pub extern "C" fn rdoq_store_drop(room: &[u64], rec: &mut [u64], block: u32) -> u32
    ensures { Dropped (store_of room.now rec.old) block result (store_of room.now rec.new) }
{
    refusals::code(store_calls::store::drop(room, rec, block))
}

// Copies a run to the front of `tokens`, and writes its length.
#[unsafe(no_mangle)]
pub extern "C" fn rdoq_store_read(
    room: &[u64],
    rec: &[u64],
    block: u32,
    tokens: &mut [u64],
    length: &mut usize,
) -> u32
    ensures { ReadTold (store_of room.now rec.now) block tokens.old length.old result tokens.new length.new }
{
    let answer = store_calls::store::read(room, rec, block, tokens);
    c_answers::tell(answer, length)
}
