// One position of the beam.
#![tactic(auto)]

mod ways;

ghost use Rattle.std.specs.Prelude.{◌≡◌, List, [], pos, length, get_or};
ghost use Rattle.least_cost.specs.Position.{Position};
ghost use Rattle.prices.specs.Contents.{contents};
ghost use Rattle.beam_paths.specs.Path.{Path, ways as waysBy};
ghost use Rattle.beam_paths.specs.Step.{extended, counts_named, merged_at, kept as cheapest};
ghost use Rattle.beam_paths.specs.Held.{PathsFor};
ghost use Rattle.beam_paths.specs.Entries.{KeptIs};
ghost use Rattle.beam_row.specs.Held.{spot_of, Stands, Takeable, Taken};

use beam_paths::kept::Kept;
use beam_paths::{Paths, Step};
use prices::book::PriceBook;
use steps::Place;
use steps::reading::CandidateList;
use ways::Weighed;

// A sole candidate: every path takes it.
fn extend(book: &PriceBook, place: Place, candidates: &CandidateList, paths: Paths) -> Kept
    requires takeable { Takeable (contents book.now) (spot_of place candidates.now.levels.now) paths }
    requires one { length candidates.now.levels.now ≡ 1 }
    ensures { (q : Position) (xs : List Path) → Stands (contents book.now) (spot_of place candidates.now.levels.now) q → PathsFor xs paths
        → KeptIs q xs (extended q (get_or q.candidates 0 (pos 0)) xs) result }
{
    let level = candidates.levels[0];
    let distortion = place.distortion(level);
    let nonzero = steps::nonzero(level);
    let mut kept = Kept::none();
    for j in 0..paths.count {
        kept = kept.push(ways::extend_path(
            book,
            place,
            level,
            distortion,
            paths.remaining[j] + nonzero,
            paths.costs[2 * j + nonzero],
            j,
        ));
    }
    kept
}

// Several candidates: paths that reach one count merge, and the cheapest three stay.
fn merge(book: &PriceBook, place: Place, candidates: &CandidateList, paths: Paths) -> Kept
    requires { Takeable (contents book.now) (spot_of place candidates.now.levels.now) paths }
    ensures { (q : Position) (xs : List Path) → Stands (contents book.now) (spot_of place candidates.now.levels.now) q → PathsFor xs paths
        → KeptIs q xs (cheapest (merged_at q (waysBy xs q.candidates) (counts_named [] xs))) result }
{
    let mut distortion = [0.0f32; 5];
    steps::reading::distortions(place, candidates, &mut distortion);
    let weighed = Weighed {
        book,
        place,
        candidates: *candidates,
        distortion: &distortion,
    };
    let counts = beam_paths::counts::counts_named(paths);
    let many = counts.length;
    let mut kept = Kept::none();
    for &n in &counts.counts[..many] {
        let entry = ways::merge_count(&weighed, &paths, n);
        kept = kept.keep(entry, many);
    }
    kept
}

// From the paths behind a position to the paths from it on.
pub fn take_step(book: &PriceBook, place: Place, candidates: &CandidateList, paths: Paths) -> Step
    requires { Takeable (contents book.now) (spot_of place candidates.now.levels.now) paths }
    ensures { Taken (contents book.now) (spot_of place candidates.now.levels.now) paths result }
{
    if candidates.levels.len() == 1 {
        let kept = extend(book, place, candidates, paths);
        return kept.step();
    }
    let kept = merge(book, place, candidates, paths);
    kept.step()
}
