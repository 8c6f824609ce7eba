// One path, with the choices that it came by.
ghost use Rattle.std.specs.Prelude.{◌≡◌, List, ◌||◌, ◌<◌, leb};
ghost use Rattle.std.specs.Float.Ieee.{lt};
ghost use Rattle.least_cost.specs.Position.{Position};
ghost use Rattle.beam_paths.specs.Path.{Path};
ghost use Rattle.beam_paths.specs.Step.{key};
ghost use Rattle.beam_paths.specs.Entries.{both_considered, EntryIs};

use steps::best::Best;

// A path: its count, and its best for `prev` 0 and 1. A choice names the way: the path behind the position, times 16, and the index of the
// candidate. It is as wide as the cost, so that there is no padding to copy.
#[derive(Clone, Copy)]
pub struct Entry {
    pub remaining: usize,
    pub first: Best<u32>,
    pub second: Best<u32>,
}

impl Entry {
    // One way more. Each `prev` keeps its own best.
    pub fn consider(self, first: f32, second: f32, choice: u32) -> Entry
        ensures { result ≡ both_considered self first second choice }
    {
        Entry {
            remaining: self.remaining,
            first: self.first.consider(first, choice),
            second: self.second.consider(second, choice),
        }
    }

    // The smaller cost of the two.
    fn key(self) -> f32
        ensures { (q : Position) (xs : List Path) (y : Path) → EntryIs q xs y self → result ≡ key y }
    {
        let first = self.first;
        let second = self.second;
        if second.cost < first.cost {
            return second.cost;
        }
        first.cost
    }

    // Whether there is no path at `at`, or a dearer one.
    pub(crate) fn goes_before(self, other: Entry, count: usize, at: usize) -> bool
        ensures { (q : Position) (xs : List Path) (x y : Path) → EntryIs q xs x self → (at < count → EntryIs q xs y other) → result ≡ leb count at || lt (key x) (key y) }
    {
        count <= at || self.key() < other.key()
    }
}
