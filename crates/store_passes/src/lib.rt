// Passes over a store's record: find a run, add up the others, take a run out, write one.
#![tactic(auto)]

ghost use Rattle.std.specs.Prelude.{◌≡◌, [], ◌∷◌, ℕ, ◌+◌, ◌*◌, ◌≤◌, ◌<◌, cond, eqb, length, get_or};
ghost use Rattle.store_record.specs.Placed.{placed};
ghost use Rattle.store_record.specs.Runs.{runs_from, others, live, end_of};
ghost use Rattle.store_passes.specs.Found.{Found, Removed};

use store_record::Run;

// The index of the run under number `block` among the first `count`.
pub fn find(rec: &[u64], count: usize, block: u64) -> Option<usize>
    requires { (length rec.now ≡ 3073) × (count ≤ 1024) }
    ensures { Found block rec.now count result }
{
    for i in 0..count {
        if store_record::run_at(rec, i).number == block {
            return Some(i);
        }
    }
    None
}

// How many tokens the runs under other numbers have.
pub fn live_but(rec: &[u64], count: usize, block: u64) -> usize
    requires rec_len { (length rec.now ≡ 3073) × (count ≤ 1024) }
    requires count_bound { live (runs_from rec.now 0 count) < 18446744073709551616 }
    ensures { result ≡ live (others block (runs_from rec.now 0 count)) }
{
    let mut sum = 0;
    for i in 0..count {
        let run = store_record::run_at(rec, i);
        if run.number != block {
            sum += run.size as usize;
        }
    }
    sum
}

// Where the last of the first `count` runs ends.
pub fn end_of(rec: &[u64], count: usize) -> usize
    requires rec_len { (length rec.now ≡ 3073) × (count ≤ 1024) }
    requires count_bound { end_of 0 (runs_from rec.now 0 count) < 18446744073709551616 }
    ensures { result ≡ end_of 0 (runs_from rec.now 0 count) }
{
    if count == 0 {
        return 0;
    }
    let last = store_record::run_at(rec, count - 1);
    (last.start + last.size) as usize
}

// Writes run i.
pub fn write_run(rec: &mut [u64], i: usize, run: Run)
    requires { 3 * i + 3 < length rec.old }
    ensures { rec.new ≡ placed (3 * i + 1) (run.number ∷ run.start ∷ run.size ∷ []) rec.old }
{
    rec[3 * i + 1] = run.number;
    rec[3 * i + 2] = run.start;
    rec[3 * i + 3] = run.size;
}

// Writes a run behind the first `kept`, unless it stands under number `block`; how many are kept then.
fn keep_run(rec: &mut [u64], kept: usize, run: Run, block: u64) -> usize
    requires { (3 * kept + 3 < length rec.old) × (kept < 1024) }
    ensures value { result ≡ cond (eqb block run.number) kept (kept + 1) }
    ensures rec_after { rec.new ≡ cond (eqb block run.number) rec.old (placed (3 * kept + 1) (run.number ∷ run.start ∷ run.size ∷ []) rec.old) }
{
    if block == run.number {
        return kept;
    }
    write_run(rec, kept, run);
    kept + 1
}

// Takes the run under number `block` out of the first `count`, those behind it moving up; how many are left. The number of runs in front is not written.
pub fn remove(rec: &mut [u64], count: usize, block: u64) -> usize
    requires { (length rec.old ≡ 3073) × (count ≤ 1024) }
    ensures { Removed block rec.old count rec.new result }
{
    let mut kept = 0;
    for i in 0..count {
        let run = store_record::run_at(rec, i);
        kept = keep_run(rec, kept, run, block);
    }
    kept
}
