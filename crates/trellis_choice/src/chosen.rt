// The level of one state.
ghost use Rattle.std.specs.Prelude.{◌≡◌, false, not, cond, ◌<◌, ℤ, pos, get_or, T, Float};
ghost use mathlib.Core.List.{Memᴰ};
ghost use Rattle.std.specs.Float.{inf, binary32};
ghost use Rattle.std.specs.Float.Ieee.{lt, add};
ghost use Rattle.std.specs.Float.Ieee.Scale.{finite};
ghost use Rattle.costs.specs.Cost.{cost as is_cost};
ghost use Rattle.least_cost.specs.Search.{holder, nonzeros, has_zero};
ghost use Rattle.least_cost.specs.Factored.{first_equal};
ghost use Rattle.trellis_choice.specs.Locals.{Each, FirstLeast};
ghost use Rattle.trellis_choice.specs.Chosen.{with, is_tie, Known, ZeroAt, Settled};

use crate::locals::Least;
use steps::best::Best;
use steps::reading::CandidateList;

fn ties(level: i32, local: f32, tail: f32, cost: f32) -> bool
    ensures { result ≡ is_tie level local tail cost }
{
    level != 0 && local + tail == cost
}

// The first nonzero candidate whose cost with the tail is `cost`, else `other`.
fn first_tied(candidates: &CandidateList, local: &[f32; 5], tail: f32, cost: f32, other: u8) -> u8
    ensures { (g : ℤ → Float) → Each g candidates.now.levels.now local.now → get_or candidates.now.levels.now result (pos 0) ≡ first_equal (with g tail) cost (get_or candidates.now.levels.now other (pos 0)) (nonzeros candidates.now.levels.now) }
{
    for (j, &level) in candidates.levels.iter().enumerate() {
        if ties(level, local[j], tail, cost) {
            return j as u8;
        }
    }
    other
}

// The index of 0 among the candidates, or 255.
pub fn zero_index(candidates: &CandidateList) -> u8
    ensures zero_at { ZeroAt candidates.now.levels.now result }
    ensures value { has_zero candidates.now.levels.now ≡ false → result ≡ 255 }
{
    for (j, &level) in candidates.levels.iter().enumerate() {
        if level == 0 {
            return j as u8;
        }
    }
    255
}

// The choice among the nonzero candidates: adding the tail may round different local costs to the same sum, and then the earliest stays. An
// infinite sum always ties with what the least took the place of, so that only ties need the test.
fn nonzero_choice(
    candidates: &CandidateList,
    local: &[f32; 5],
    least: Least,
    tail: f32,
    cost: f32,
) -> u8
    ensures pos_value { (g : ℤ → Float) → Each g candidates.now.levels.now local.now → FirstLeast g candidates.now.levels.now least → ((c : ℤ) → Memᴰ c candidates.now.levels.now → T (is_cost (g c)))
        → T (is_cost tail) → cost ≡ add binary32 least.cost tail → T (finite cost) → get_or candidates.now.levels.now result (pos 0) ≡ holder (with g tail) (inf false) (pos 0) (nonzeros candidates.now.levels.now) }
    ensures value { (g : ℤ → Float) → FirstLeast g candidates.now.levels.now least → ((c : ℤ) → Memᴰ c candidates.now.levels.now → T (is_cost (g c)))
        → T (is_cost tail) → cost ≡ add binary32 least.cost tail → T (not (finite cost)) → result ≡ 255 }
{
    if least.before + tail == cost {
        if cost < costs::infinity() {
            return first_tied(candidates, local, tail, cost, least.choice);
        }
        return 255;
    }
    least.choice
}

// Where nothing finite follows, the local cost does not count: there may be none.
fn with_tail(local: f32, tail: f32) -> f32
    ensures { result ≡ cond (lt tail (inf false)) (add binary32 local tail) (inf false) }
{
    let none = costs::infinity();
    if tail < none {
        return local + tail;
    }
    none
}

// The least cost of a state, and its candidate's index where that is finite, else 255. `zero` is the local cost of 0 and `zero_index` its index.
pub fn choose(
    candidates: &CandidateList,
    local: &[f32; 5],
    least: Least,
    zero: f32,
    zero_index: u8,
    nonzero_tail: f32,
    zero_tail: f32,
) -> Best<u8>
    ensures { (g : ℤ → Float) → Known g candidates.now.levels.now local.now least zero → ZeroAt candidates.now.levels.now zero_index → T (is_cost nonzero_tail) → T (is_cost zero_tail)
        → (has_zero candidates.now.levels.now ≡ false → zero_tail ≡ inf false) → Settled g nonzero_tail zero_tail candidates.now.levels.now result }
{
    let cost = least.cost + nonzero_tail;
    let zero_cost = with_tail(zero, zero_tail);
    if zero_cost < cost {
        return Best {
            cost: zero_cost,
            choice: zero_index,
        };
    }
    Best {
        cost,
        choice: nonzero_choice(candidates, local, least, nonzero_tail, cost),
    }
}
