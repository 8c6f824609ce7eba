// Tokens copied and moved within a store's room.
#![tactic(auto)]

ghost use Rattle.std.specs.Prelude.{◌≡◌, true, ◌+◌, ◌≤◌, length, get_or, take, drop};
ghost use Rattle.store_record.specs.Placed.{placed};
ghost use Rattle.store_record.specs.Runs.{runs_from, in_order};
ghost use Rattle.store_room.specs.Compacted.{Compacted};

use store_record::Run;

// Copies n tokens from `start` on to `at` on. (By a loop, here and below: slices are copied by a call of memmove, which the C library does not ask for.)
pub fn copy_run(from: &[u64], start: usize, n: usize, to: &mut [u64], at: usize)
    requires { (start + n ≤ length from.now) × (at + n ≤ length to.old) }
    ensures { to.new ≡ placed at (take n (drop start from.now)) to.old }
{
    for i in 0..n {
        to[at + i] = from[start + i];
    }
}

// Moves n tokens from `start` down to `at`: from the first on, since the places may overlap.
fn move_down(room: &mut [u64], start: usize, n: usize, at: usize)
    requires { (at ≤ start) × (start + n ≤ length room.old) }
    ensures { room.new ≡ placed at (take n (drop start room.old)) room.old }
{
    for i in 0..n {
        room[at + i] = room[start + i];
    }
}

// Moves the first `count` runs together at the front of the room; where they end. (It reads the runs as `store_passes::remove` does, but moves room as well as record:
// a walk that both share would take what is done with a run as a closure over both lists, and so be no plainer.)
pub fn compact(room: &mut [u64], rec: &mut [u64], count: usize) -> usize
    requires { (length rec.old ≡ 3073) × ((count ≤ 1024) × (in_order 0 (length room.old) (runs_from rec.old 0 count) ≡ true)) }
    ensures { Compacted room.old rec.old count room.new rec.new result }
{
    let mut top = 0;
    for i in 0..count {
        let run = store_record::run_at(rec, i);
        let size = run.size as usize;
        move_down(room, run.start as usize, size, top);
        store_passes::write_run(
            rec,
            i,
            Run {
                start: top as u64,
                ..run
            },
        );
        top += size;
    }
    top
}
