// Local costs, worked out once for all counts that share a context.
ghost use Rattle.std.specs.Prelude.{◌≡◌, ◌+◌, ◌<◌, length};
ghost use Rattle.prices.specs.Contents.{contents};
ghost use Rattle.steps.specs.Place.{distortion_at, local_in};
ghost use Rattle.trellis_choice.specs.Locals.{nothing, considered, noted, Empty, Each, Located};

use prices::book::PriceBook;
use steps::Place;
use steps::reading::CandidateList;

// The first least of some costs, what it took the place of, and its candidate's index.
#[derive(Clone, Copy)]
pub struct Least {
    pub cost: f32,
    pub before: f32,
    pub choice: u8,
}

// Of the local costs for `prev` 0 and 1, which stand in two arrays: the first least among those of nonzero candidates, and those of 0.
#[derive(Clone, Copy)]
pub struct Locals {
    pub least_first: Least,
    pub least_second: Least,
    pub zero_first: f32,
    pub zero_second: f32,
}

impl Least {
    #[tactic(auto, unfolding(crate::specs::Locals::nothing))]
    fn none() -> Least
        ensures { result ≡ nothing }
    {
        Least {
            cost: costs::infinity(),
            before: costs::infinity(),
            choice: 255,
        }
    }

    #[tactic(auto, unfolding(crate::specs::Locals::considered))]
    fn consider(self, cost: f32, choice: u8) -> Least
        ensures { result ≡ considered self cost choice }
    {
        if cost < self.cost {
            return Least {
                cost,
                before: self.cost,
                choice,
            };
        }
        self
    }
}

impl Locals {
    pub(crate) fn none() -> Locals
        ensures { Empty result }
    {
        Locals {
            least_first: Least::none(),
            least_second: Least::none(),
            zero_first: costs::infinity(),
            zero_second: costs::infinity(),
        }
    }

    fn note(self, j: usize, level: i32, first: f32, second: f32) -> Locals
        requires { j < 5 }
        ensures { result ≡ noted self j level first second }
    {
        let least_first = self.least_first;
        let least_second = self.least_second;
        if level == 0 {
            return Locals {
                least_first,
                least_second,
                zero_first: first,
                zero_second: second,
            };
        }
        Locals {
            least_first: least_first.consider(first, j as u8),
            least_second: least_second.consider(second, j as u8),
            zero_first: self.zero_first,
            zero_second: self.zero_second,
        }
    }
}

// The local costs in one context, their distortions at hand: in `first` for `prev` 0, in `second` for `prev` 1. Lent, they are not copied.
pub fn locals_in(
    book: &PriceBook,
    place: Place,
    candidates: &CandidateList,
    distortion: &[f32; 5],
    context: usize,
    first: &mut [f32; 5],
    second: &mut [f32; 5],
) -> Locals
    requires context_bound { context + 1 < 14850 }
    requires each { Each (distortion_at place) candidates.now.levels.now distortion.now }
    requires first_len { (length first.old ≡ 5) × (length second.old ≡ 5) }
    ensures located { Located (local_in (contents book.now) place context 0)
        (local_in (contents book.now) place context 1)
        candidates.now.levels.now first.new second.new result }
    ensures lengths_kept { (length first.new ≡ 5) × (length second.new ≡ 5) }
{
    let mut locals = Locals::none();
    for (j, &level) in candidates.levels.iter().enumerate() {
        let pair = place.local_pair(book, context, level, distortion[j]);
        first[j] = pair.first;
        second[j] = pair.second;
        locals = locals.note(j, level, pair.first, pair.second);
    }
    locals
}
