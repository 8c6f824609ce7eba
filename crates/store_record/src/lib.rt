// A store of token runs in a lent room (ticket 14): check 37 of its record.
#![tactic(auto)]

ghost use Rattle.std.specs.Prelude.{◌≡◌, ◌+◌, ◌*◌, ◌<◌, ◌≤◌, length, get_or};
ghost use Rattle.store_record.specs.Runs.{run_at, runs_from, valid_record};
ghost use Rattle.store_record.specs.Marks.{fits, passes};

// The numbers of a record: how many runs, then three for each of 1,024.
pub const RECORD: usize = 3073;
// Block numbers lie below this, and so there are at most as many runs.
pub const RUNS: u64 = 1024;

// A run: its block's number, where it starts in the room, and how many tokens it has.
#[derive(Clone, Copy)]
pub struct Run {
    pub number: u64,
    pub start: u64,
    pub size: u64,
}

// Run i of a record.
pub fn run_at(rec: &[u64], i: usize) -> Run
    requires { 3 * i + 3 < length rec.now }
    ensures { result ≡ run_at rec.now i }
{
    Run {
        number: rec[3 * i + 1],
        start: rec[3 * i + 2],
        size: rec[3 * i + 3],
    }
}

// Whether a run starts at `end` or later, ends within a room of `size` tokens, and has a number below 1,024.
fn run_fits(run: Run, end: u64, size: u64) -> bool
    ensures { result ≡ fits end size run }
{
    run.number < RUNS && end <= run.start && run.start <= size && run.size <= size - run.start
}

// Whether the first `count` runs pass, with a mark at each number met.
fn runs_pass(rec: &[u64], count: usize, size: u64, marks: &mut [u8]) -> bool
    requires { (length rec.now ≡ 3073) × ((count ≤ 1024) × (length marks.old ≡ 1024)) }
    ensures { result ≡ passes 0 size marks.old (runs_from rec.now 0 count) }
{
    let mut end = 0;
    for i in 0..count {
        let run = run_at(rec, i);
        if !run_fits(run, end, size) {
            return false;
        }
        let number = run.number as usize;
        if marks[number] != 0 {
            return false;
        }
        marks[number] = 1;
        end = run.start + run.size;
    }
    true
}

// Whether a record passes check 37, for a room of `size` tokens.
pub fn valid(rec: &[u64], size: usize) -> bool
    ensures { result ≡ valid_record size rec.now }
{
    if rec.len() != RECORD {
        return false;
    }
    let count = rec[0];
    if count > RUNS {
        return false;
    }
    let mut marks = [0u8; 1024];
    runs_pass(rec, count as usize, size as u64, &mut marks)
}
