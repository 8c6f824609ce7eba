// The counts that the paths reach.
ghost use Rattle.std.specs.Prelude.{◌≡◌, List, [], ℕ, ◌+◌, ◌<◌, ◌≤◌, length, get_or, take};
ghost use Rattle.beam_paths.specs.Path.{Path};
ghost use Rattle.beam_paths.specs.Step.{naming, counts_named};
ghost use Rattle.beam_paths.specs.Held.{PathsFor};
ghost use Rattle.beam_paths.specs.Entries.{named};

use crate::Paths;

// The first `length` entries are the counts, in the order in which they were named: in fixed memory, since there is no heap.
#[derive(Clone, Copy)]
pub struct Counts {
    pub length: usize,
    pub counts: [usize; 6],
}

// Names n where it is not yet; the result is how many are named.
fn name(counts: &mut [usize], many: usize, n: usize) -> usize
    requires { (many < 6) × (length counts.old ≡ 6) }
    ensures counts_after { take result counts.new ≡ naming (take many counts.old) n }
    ensures upper_bound { (result ≤ many + 1) × (length counts.new ≡ 6) }
{
    if counts[..many].contains(&n) {
        return many;
    }
    counts[many] = n;
    many + 1
}

// Of each path its own count and the next one.
pub fn counts_named(paths: Paths) -> Counts
    requires count_bound { (paths.count ≤ 3) × (length paths.remaining ≡ 3) }
    requires by_index { (j : ℕ) → j < paths.count → get_or paths.remaining j 0 < 65536 }
    ensures length_bound { (result.length ≤ 6) × (length result.counts ≡ 6) }
    ensures result_value { (xs : List Path) → PathsFor xs paths → named result ≡ counts_named [] xs }
{
    let mut counts = [0usize; 6];
    let mut many = 0;
    for &own in &paths.remaining[..paths.count] {
        many = name(&mut counts, many, own);
        many = name(&mut counts, many, own + 1);
    }
    Counts {
        length: many,
        counts,
    }
}
