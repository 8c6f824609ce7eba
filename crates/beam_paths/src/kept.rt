// The paths kept so far, at most three.
ghost use Rattle.std.specs.Prelude.{◌≡◌, List, [], ◌∷◌, ◌++◌, cond, suc, ◌+◌, ◌%◌, ◌<◌, ◌≤◌, length, take, leb};
ghost use Rattle.least_cost.specs.Position.{Position};
ghost use Rattle.beam_paths.specs.Path.{Path};
ghost use Rattle.beam_paths.specs.Step.{insert};
ghost use Rattle.beam_paths.specs.Held.{PathsFor, Remembered};

use crate::entry::Entry;
use crate::{Paths, Step};
use steps::best::Best;

// By name and not in an array, since an entry takes the place of another at a fixed index.
#[derive(Clone, Copy)]
pub struct Kept {
    pub count: usize,
    pub one: Entry,
    pub two: Entry,
    pub three: Entry,
    ghost few: { count ≤ 3 },
}

impl Kept {
    ghost use Rattle.beam_paths.specs.Entries.{EntryIs, KeptIs};

    pub fn none() -> Kept
        ensures count_value { result.count ≡ 0 }
        ensures kept_is { (q : Position) (xs : List Path) → KeptIs q xs [] result }
    {
        let best = Best {
            cost: costs::infinity(),
            choice: 0,
        };
        let entry = Entry {
            remaining: 0,
            first: best,
            second: best,
        };
        Kept {
            count: 0,
            one: entry,
            two: entry,
            three: entry,
        }
    }

    // Behind the others.
    pub fn push(self, entry: Entry) -> Kept
        requires { self.count < 3 }
        ensures count_value { result.count ≡ self.count + 1 }
        ensures kept_is { (q : Position) (xs ys : List Path) (y : Path) → EntryIs q xs y entry → KeptIs q xs ys self → KeptIs q xs (ys ++ (y ∷ [])) result }
    {
        let mut kept = self;
        kept.count = self.count + 1;
        if self.count == 0 {
            kept.one = entry;
            return kept;
        }
        if self.count == 1 {
            kept.two = entry;
            return kept;
        }
        kept.three = entry;
        kept
    }

    // In front of the first that is dearer; a fourth falls off.
    fn insert(self, entry: Entry) -> Kept
        ensures { (q : Position) (xs ys : List Path) (y : Path) → EntryIs q xs y entry → KeptIs q xs ys self → KeptIs q xs (take 3 (insert y ys)) result }
    {
        let one = self.one;
        let two = self.two;
        let three = self.three;
        let count = (self.count + 1).min(3);
        if entry.goes_before(one, self.count, 0) {
            return Kept {
                count,
                one: entry,
                two: one,
                three: two,
            };
        }
        if entry.goes_before(two, self.count, 1) {
            return Kept {
                count,
                one,
                two: entry,
                three: two,
            };
        }
        if entry.goes_before(three, self.count, 2) {
            return Kept {
                count,
                one,
                two,
                three: entry,
            };
        }
        self
    }

    pub fn keep(self, entry: Entry, counts: usize) -> Kept
        requires { counts ≤ 3 → self.count < 3 }
        ensures count_value { counts ≤ 3 → result.count ≡ self.count + 1 }
        ensures kept_is { (q : Position) (xs ys : List Path) (y : Path) → EntryIs q xs y entry → KeptIs q xs ys self → KeptIs q xs (cond (leb counts 3) (ys ++ (y ∷ [])) (take 3 (insert y ys))) result }
    {
        if counts <= 3 {
            return self.push(entry);
        }
        self.insert(entry)
    }

    pub fn step(self) -> Step
        ensures { (q : Position) (xs ys : List Path) → length xs ≤ 3 → KeptIs q xs ys self → (PathsFor ys result.paths) × Remembered q xs ys result.choices }
    {
        let one = self.one;
        let two = self.two;
        let three = self.three;
        let one_first = one.first;
        let one_second = one.second;
        let two_first = two.first;
        let two_second = two.second;
        let three_first = three.first;
        let three_second = three.second;
        Step {
            paths: Paths {
                count: self.count,
                remaining: [one.remaining, two.remaining, three.remaining],
                costs: [
                    one_first.cost,
                    one_second.cost,
                    two_first.cost,
                    two_second.cost,
                    three_first.cost,
                    three_second.cost,
                ],
            },
            choices: [
                byte_of(one_first.choice),
                byte_of(one_second.choice),
                byte_of(two_first.choice),
                byte_of(two_second.choice),
                byte_of(three_first.choice),
                byte_of(three_second.choice),
            ],
        }
    }
}

// A choice that names one of three paths is below 256.
fn byte_of(choice: u32) -> u8
    ensures { result ≡ choice % 256 }
{
    (choice % 256) as u8
}
