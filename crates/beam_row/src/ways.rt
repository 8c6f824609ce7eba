// The ways to take one position more: a path behind the position, and a candidate.
ghost use Rattle.std.specs.Prelude.{◌≡◌, List, ◌++◌, ◌+◌, ◌*◌, ◌<◌, ◌≤◌, T, get_or};
ghost use Rattle.ac_context.specs.Contexts.{Coefficient, Covered};
ghost use Rattle.bias.specs.Level.{is_level};
ghost use Rattle.least_cost.specs.Position.{Position};
ghost use Rattle.prices.specs.Contents.{contents};
ghost use Rattle.steps.specs.Place.{distortion_at, context_at};
ghost use Rattle.steps.specs.Plan.{Each};
ghost use Rattle.beam_paths.specs.Path.{Path, Way, ways_of, ways};
ghost use Rattle.beam_paths.specs.Step.{merged};
ghost use Rattle.beam_paths.specs.Held.{no_path, PathsFor};
ghost use Rattle.beam_paths.specs.Entries.{EntryIs};
ghost use Rattle.beam_row.specs.Held.{spot_of, Stands, Takeable};
ghost use Rattle.beam_row.specs.Entries.{PathIs, Leads, tried, alone, BothOf};

use beam_paths::Paths;
use beam_paths::entry::Entry;
use prices::book::PriceBook;
use steps::Place;
use steps::best::Best;
use steps::reading::CandidateList;

// A position's candidates with what weighs them: the prices, and the distortion of each.
#[derive(Clone, Copy)]
pub(crate) struct Weighed<'a> {
    pub book: &'a PriceBook<'a>,
    pub place: Place,
    pub candidates: CandidateList<'a>,
    pub distortion: &'a [f32; 5],
    ghost each: { Each (distortion_at place) candidates.levels.now distortion.now },
}

// One candidate more. Both values of `prev` are priced together, and each keeps its own best.
fn try_way(
    weighed: &Weighed,
    context: usize,
    level: i32,
    distortion: f32,
    tail: f32,
    choice: u32,
    entry: Entry,
) -> Entry
    requires context_bound { (context + 1 < 14850) × T (is_level level) }
    requires distortion_value { distortion ≡ distortion_at weighed.now.place level }
    ensures { result ≡ tried (contents weighed.now.book.now) weighed.now.place context level tail choice entry }
{
    let place = weighed.place;
    let pair = place.local_pair(weighed.book, context, level, distortion);
    entry.consider(pair.first + tail, pair.second + tail, choice)
}

// The candidates of one kind, 0 or nonzero, in front of path j: those that lead it to the entry's count.
fn try_levels(
    weighed: &Weighed,
    context: usize,
    nonzero: usize,
    tail: f32,
    j: usize,
    entry: Entry,
) -> Entry
    requires context_value { (context ≡ context_at weighed.now.place entry.remaining) × (context + 1 < 14850) }
    requires j_bound { j < 3 }
    ensures remaining_value { result.remaining ≡ entry.remaining }
    ensures both_of { (q : Position) (xs : List Path) (ws : List Way) → Stands (contents weighed.now.book.now) (spot_of weighed.now.place weighed.now.candidates.levels.now) q → Leads xs j nonzero tail entry.remaining
        → BothOf q xs ws entry → BothOf q xs (ws ++ ways_of (get_or xs j no_path) q.candidates) result }
{
    let candidates = weighed.candidates;
    let mut best = entry;
    for (i, &level) in candidates.levels.iter().enumerate() {
        if steps::nonzero(level) == nonzero {
            best = try_way(
                weighed,
                context,
                level,
                weighed.distortion[i],
                tail,
                (16 * j + i) as u32,
                best,
            );
        }
    }
    best
}

// The candidates in front of path j, where it leads to the entry's count.
fn try_path(
    weighed: &Weighed,
    context: usize,
    remaining: usize,
    first: f32,
    second: f32,
    j: usize,
    entry: Entry,
) -> Entry
    requires context_value { (context ≡ context_at weighed.now.place entry.remaining) × (context + 1 < 14850) }
    requires remaining_bound { (remaining < 65536) × (j < 3) }
    ensures remaining_value { result.remaining ≡ entry.remaining }
    ensures both_of { (q : Position) (xs : List Path) (ws : List Way) → Stands (contents weighed.now.book.now) (spot_of weighed.now.place weighed.now.candidates.levels.now) q → PathIs xs j remaining first second
        → BothOf q xs ws entry → BothOf q xs (ws ++ ways_of (get_or xs j no_path) q.candidates) result }
{
    if remaining == entry.remaining {
        return try_levels(weighed, context, 0, first, j, entry);
    }
    if remaining + 1 == entry.remaining {
        return try_levels(weighed, context, 1, second, j, entry);
    }
    entry
}

// The path of count n: for either `prev` the first least of the ways that reach it.
pub(crate) fn merge_count(weighed: &Weighed, paths: &Paths, n: usize) -> Entry
    requires takeable { Takeable (contents weighed.now.book.now) (spot_of weighed.now.place weighed.now.candidates.levels.now) paths.now }
    requires k_bound { n + weighed.now.place.k ≤ 64 * weighed.now.place.covered }
    ensures { (q : Position) (xs : List Path) → Stands (contents weighed.now.book.now) (spot_of weighed.now.place weighed.now.candidates.levels.now) q → PathsFor xs paths.now
        → EntryIs q xs (merged q (ways xs q.candidates) n) result }
{
    let place = weighed.place;
    let context = place.context(n);
    let none = Best {
        cost: costs::infinity(),
        choice: 0,
    };
    let mut entry = Entry {
        remaining: n,
        first: none,
        second: none,
    };
    for j in 0..paths.count {
        entry = try_path(
            weighed,
            context,
            paths.remaining[j],
            paths.costs[2 * j],
            paths.costs[2 * j + 1],
            j,
            entry,
        );
    }
    entry
}

// Path j with the sole candidate, which `remaining` counts too.
pub(crate) fn extend_path(
    book: &PriceBook,
    place: Place,
    level: i32,
    distortion: f32,
    remaining: usize,
    tail: f32,
    j: usize,
) -> Entry
    requires t { T (is_level level) × (distortion ≡ distortion_at place level) }
    requires covered { Covered place.covered place.log2 × (place.offset + 457 < 14850) }
    requires coefficient { 0 < remaining → Coefficient place.covered remaining place.k 0 }
    requires j_bound { j < 3 }
    ensures { result ≡ alone (contents book.now) place remaining level tail (16 * j) }
{
    let context = place.context(remaining);
    let pair = place.local_pair(book, context, level, distortion);
    let choice = (16 * j) as u32;
    Entry {
        remaining,
        first: Best {
            cost: pair.first + tail,
            choice,
        },
        second: Best {
            cost: pair.second + tail,
            choice,
        },
    }
}
