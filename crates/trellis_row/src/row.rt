// A row of the trellis: the costs of all states of a position.
ghost use Rattle.std.specs.Prelude.{◌≡◌, true, false, ℕ, ◌+◌, ◌-◌, ◌*◌, ◌<◌, ◌≤◌, length, set, ℤ, T, Float};
ghost use Rattle.std.specs.Float.{inf};
ghost use Rattle.std.specs.Float.Ieee.{lt};
ghost use mathlib.Core.List.{Memᴰ};
ghost use Rattle.costs.specs.Cost.{cost as is_cost};
ghost use Rattle.least_cost.specs.Search.{has_zero};
ghost use Rattle.half_bytes.specs.Packed.{unpacked, kept};
ghost use Rattle.prices.specs.Contents.{contents};
ghost use Rattle.steps.specs.Place.{context_at};
ghost use Rattle.trellis_choice.specs.Locals.{Located};
ghost use Rattle.trellis_choice.specs.Chosen.{ZeroAt, Settled};
ghost use Rattle.trellis_row.specs.Filled.{Fits, Begun, Filled};
ghost use Rattle.trellis_row.specs.Row.{Elsewhere, Coding, Ready};

use crate::work::Row;
use steps::Place;
use steps::best::Best;
use steps::reading::CandidateList;
use trellis_choice::locals::Locals;
use trellis_choice::{chosen, locals};

// The counts that may be read of the next row: from `from` up to `upto`, the row's first count being `base`.
#[derive(Clone, Copy)]
pub struct Span {
    pub base: usize,
    pub from: usize,
    pub upto: usize,
}

// The two states of a count.
#[derive(Clone, Copy)]
pub struct States {
    pub first: Best<u8>,
    pub second: Best<u8>,
}

// What the counts share that share a context: the local costs of the candidates for `prev` 0 and 1, and the index of 0 among them, 255 where it is not listed.
#[derive(Clone, Copy)]
struct Shared<'a> {
    first: &'a [f32; 5],
    second: &'a [f32; 5],
    locals: Locals,
    zero: u8,
}

// The two states of a count, what follows at hand.
fn settle(candidates: &CandidateList, shared: &Shared, nonzero_tail: f32, zero_tail: f32) -> States
    ensures { (g h : ℤ → Float) → Located g h candidates.now.levels.now shared.now.first.now shared.now.second.now shared.now.locals
        → ((q : ℤ) → Memᴰ q candidates.now.levels.now → T (is_cost (g q))) → ((q : ℤ) → Memᴰ q candidates.now.levels.now → T (is_cost (h q)))
        → ZeroAt candidates.now.levels.now shared.now.zero → T (is_cost nonzero_tail) → T (is_cost zero_tail) → (has_zero candidates.now.levels.now ≡ false → zero_tail ≡ inf false)
        → (Settled g nonzero_tail zero_tail candidates.now.levels.now result.first) × (Settled h nonzero_tail zero_tail candidates.now.levels.now result.second) }
{
    let locals = shared.locals;
    let least_first = locals.least_first;
    let least_second = locals.least_second;
    States {
        first: chosen::choose(
            candidates,
            shared.first,
            least_first,
            locals.zero_first,
            shared.zero,
            nonzero_tail,
            zero_tail,
        ),
        second: chosen::choose(
            candidates,
            shared.second,
            least_second,
            locals.zero_second,
            shared.zero,
            nonzero_tail,
            zero_tail,
        ),
    }
}

// Writes the two states of the k-th count of a row: their costs, and in one byte their choices, `at` being the row's first.
pub fn write_pair(current: &mut [f32], choices: &mut [u8], k: usize, at: usize, pair: States)
    requires { (2 * k + 1 < length current.old) × (2 * at + 2 * k + 1 < length (unpacked choices.old)) }
    ensures { (current.new ≡ set (set current.old (2 * k) pair.first.cost) (2 * k + 1) pair.second.cost)
        × (unpacked choices.new ≡ set (set (unpacked choices.old) (2 * at + 2 * k) (kept pair.first.choice)) (2 * at + 2 * k + 1) (kept pair.second.choice)) }
{
    let first = pair.first;
    let second = pair.second;
    let i = 2 * k;
    current[i] = first.cost;
    current[i + 1] = second.cost;
    half_bytes::put_pair(choices, at + k, first.choice, second.choice);
}

fn infinite(x: f32, z: f32) -> bool
    ensures { result ≡ true → ((lt x (inf false) ≡ false) × (lt z (inf false) ≡ false)) }
{
    let none = costs::infinity();
    !(x < none || z < none)
}

// Both states where nothing finite follows.
pub fn unreachable() -> States
    ensures { (result.first.cost ≡ inf false) × ((result.second.cost ≡ inf false) × ((result.first.choice ≡ 255) × (result.second.choice ≡ 255))) }
{
    let none = Best {
        cost: costs::infinity(),
        choice: 255,
    };
    States {
        first: none,
        second: none,
    }
}

// The two states of count `r`, written behind those of the counts before it.
fn row_state(row: &Row, shared: &Shared, current: &mut [f32], choices: &mut [u8], r: usize)
    requires r_within { (row.now.least ≤ r) × (r ≤ row.now.most) }
    requires fits { Fits row.now current.old choices.old }
    ensures current_len_unchanged { length current.new ≡ length current.old }
    ensures elsewhere { Elsewhere (2 * row.now.at + 2 * (r - row.now.least)) 2 (unpacked choices.old) (unpacked choices.new) }
    ensures begun { Ready (contents row.now.book.now) row.now.place row.now.candidates.levels.now row.now.next.now row.now.span shared.now.first.now shared.now.second.now shared.now.locals shared.now.zero r
        → Begun row.now (2 * (r - row.now.least)) current.old choices.old → Begun row.now (2 * (r - row.now.least) + 2) current.new choices.new }
{
    let x = row.nonzero_tail(r);
    let z = row.zero_tail(r, shared.zero);
    if infinite(x, z) {
        write_pair(current, choices, r - row.least, row.at, unreachable());
        return;
    }
    write_pair(
        current,
        choices,
        r - row.least,
        row.at,
        settle(&row.candidates, shared, x, z),
    );
}

// The last count, up to `most`, of those from `from` on that share its context. Where nothing remains there is no token, so 0 stands alone.
pub fn run_end(place: Place, from: usize, most: usize) -> usize
    requires coding { Coding place most }
    requires from_le_most { from ≤ most }
    ensures { (from ≤ result) × ((result ≤ most) × ((n : ℕ) → from ≤ n → n ≤ result → context_at place n ≡ context_at place from)) }
{
    if from == 0 {
        return 0;
    }
    ac_context::last_count_alike(from, place.covered, place.log2).min(most)
}

// The states of the counts from `from` to `upto`, which share their local costs.
fn fill_run(
    row: &Row,
    shared: &Shared,
    current: &mut [f32],
    choices: &mut [u8],
    from: usize,
    upto: usize,
)
    requires from_within { (row.now.least ≤ from) × ((from ≤ upto) × (upto ≤ row.now.most)) }
    requires fits { Fits row.now current.old choices.old }
    ensures current_len_unchanged { length current.new ≡ length current.old }
    ensures elsewhere { Elsewhere (2 * row.now.at + 2 * (from - row.now.least)) (2 * (upto + 1 - from)) (unpacked choices.old) (unpacked choices.new) }
    ensures begun { ((r : ℕ) → from ≤ r → r ≤ upto → Ready (contents row.now.book.now) row.now.place row.now.candidates.levels.now row.now.next.now row.now.span shared.now.first.now shared.now.second.now shared.now.locals shared.now.zero r)
        → Begun row.now (2 * (from - row.now.least)) current.old choices.old → Begun row.now (2 * (upto + 1 - row.now.least)) current.new choices.new }
{
    for r in from..=upto {
        row_state(row, shared, current, choices, r);
    }
}

// The row's states: their costs from the front of `current`, their choices from the row's byte on. Counts that share a context share their local
// costs, which are worked out from the first of them that something finite follows. The room is lent, since it is written.
pub fn fill_row(row: &Row, current: &mut [f32], choices: &mut [u8])
    requires { Fits row.now current.old choices.old }
    ensures { Filled row.now current.old current.new choices.old choices.new }
{
    let candidates = row.candidates;
    let place = row.place;
    let mut distortion = [0.0f32; 5];
    let mut first = [0.0f32; 5];
    let mut second = [0.0f32; 5];
    steps::reading::distortions(place, &candidates, &mut distortion);
    let zero = chosen::zero_index(&candidates);
    // By runs of counts, not count by count.
    let mut r = row.least;
    while r <= row.most {
        let x = row.nonzero_tail(r);
        let z = row.zero_tail(r, zero);
        if infinite(x, z) {
            write_pair(current, choices, r - row.least, row.at, unreachable());
            r += 1;
            continue;
        }
        let context = place.context(r);
        let locals = locals::locals_in(
            row.book,
            place,
            &candidates,
            &distortion,
            context,
            &mut first,
            &mut second,
        );
        let end = run_end(place, r, row.most);
        let shared = Shared {
            first: &first,
            second: &second,
            locals,
            zero,
        };
        fill_run(row, &shared, current, choices, r, end);
        r = end + 1;
    }
}
