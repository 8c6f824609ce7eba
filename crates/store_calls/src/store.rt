// A store of token runs, each under a block number below 1,024 (ticket 14). The caller keeps room and record and hands both on as the last call left them.
// `rec` has 3,073 numbers, all 0 in an empty store: how many runs, then number, start and length of each, in the order in which they stand in room.
ghost use Rattle.std.specs.Prelude.{◌≡◌};
ghost use Rattle.refusals.specs.Numbers.{code_of};
ghost use Rattle.store_map.specs.Store.{store_of};
ghost use Rattle.store_calls.specs.Calls.{Put, Dropped, Read, length_of, lent_refusal};

use refusals::Refusal;

// What each call asks first: the record is a store's, and the block number is below 1,024.
#[tactic(auto, unfolding(crate::specs::Calls::lent_refusal, store_map::specs::Store::right))]
fn check_lent(room: &[u64], rec: &[u64], block: u32) -> Result<(), Refusal>
    ensures { code_of result ≡ lent_refusal (store_of room.now rec.now) block }
{
    if !store_record::valid(rec, room.len()) {
        return Err(Refusal::StoreRecord);
    }
    if block >= 1024 {
        return Err(Refusal::BlockNumber);
    }
    Ok(())
}

// Holds the tokens under a block number, in place of a run already there; or refuses, and changes nothing.
pub fn put(room: &mut [u64], rec: &mut [u64], block: u32, tokens: &[u64]) -> Result<(), Refusal>
    ensures { Put (store_of room.old rec.old) block tokens.now (code_of result) (store_of room.new rec.new) }
{
    check_lent(room, rec, block)?;
    let number = u64::from(block);
    let live = store_passes::live_but(rec, rec[0] as usize, number);
    if tokens.len() > room.len() - live {
        return Err(Refusal::StoreFull);
    }
    store_hold::hold(room, rec, number, tokens);
    Ok(())
}

// Gives the room of a run back; or refuses, and changes nothing.
pub fn drop(room: &[u64], rec: &mut [u64], block: u32) -> Result<(), Refusal>
    ensures { Dropped (store_of room.now rec.old) block (code_of result) (store_of room.now rec.new) }
{
    check_lent(room, rec, block)?;
    let number = u64::from(block);
    let count = rec[0] as usize;
    if store_passes::find(rec, count, number).is_none() {
        return Err(Refusal::NotHeld);
    }
    let left = store_passes::remove(rec, count, number);
    rec[0] = left as u64;
    Ok(())
}

// Copies a run to the front of `tokens` and answers its length; or refuses, and changes nothing.
pub fn read(room: &[u64], rec: &[u64], block: u32, tokens: &mut [u64]) -> Result<usize, Refusal>
    ensures { Read (store_of room.now rec.now) block tokens.old (length_of result) tokens.new }
{
    check_lent(room, rec, block)?;
    let count = rec[0] as usize;
    let Some(i) = store_passes::find(rec, count, u64::from(block)) else {
        return Err(Refusal::NotHeld);
    };
    let run = store_record::run_at(rec, i);
    let size = run.size as usize;
    if size > tokens.len() {
        return Err(Refusal::BufferShort);
    }
    store_room::copy_run(room, run.start as usize, size, tokens, 0);
    Ok(size)
}
