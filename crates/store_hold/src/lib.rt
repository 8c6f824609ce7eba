// Tokens put into a store that has place for them, with its runs moved together where that is needed.
#![tactic(auto)]

ghost use Rattle.std.specs.Prelude.{◌≡◌, true, ◌+◌, ◌≤◌, ◌<◌, length};
ghost use Rattle.store_record.specs.Runs.{runs_from, runs_of, in_order, others, live};
ghost use Rattle.store_map.specs.Store.{store_of, right, stored};
ghost use Rattle.store_hold.specs.Made.{Made};

use store_record::Run;

// Place for n tokens: behind the last of the first `count` runs where they fit there, else behind all, moved together.
fn make_room(room: &mut [u64], rec: &mut [u64], count: usize, n: usize) -> usize
    requires { (length rec.old ≡ 3073) × ((count ≤ 1024) × (in_order 0 (length room.old) (runs_from rec.old 0 count) ≡ true)) }
    ensures { Made room.old rec.old count n room.new rec.new result }
{
    let end = store_passes::end_of(rec, count);
    if n <= room.len() - end {
        return end;
    }
    store_room::compact(room, rec, count)
}

// Holds tokens that fit under a number, in place of a run already there.
pub fn hold(room: &mut [u64], rec: &mut [u64], block: u64, tokens: &[u64])
    requires { (right (store_of room.old rec.old) ≡ true) × ((block < 1024) × (live (others block (runs_of rec.old)) + length tokens.now ≤ length room.old)) }
    ensures { store_of room.new rec.new ≡ stored (store_of room.old rec.old) block tokens.now }
{
    let count = rec[0] as usize;
    let left = store_passes::remove(rec, count, block);
    let n = tokens.len();
    let at = make_room(room, rec, left, n);
    store_room::copy_run(tokens, 0, n, room, at);
    store_passes::write_run(
        rec,
        left,
        Run {
            number: block,
            start: at as u64,
            size: n as u64,
        },
    );
    rec[0] = (left + 1) as u64;
}
