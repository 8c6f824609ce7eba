// A row of the trellis where the position has one candidate: each count has one way on, so nothing is chosen. `fill_row` takes any position.
#![tactic(auto)]

ghost use Rattle.std.specs.Prelude.{◌≡◌, ◌∷◌, [], ℕ, ◌+◌, ◌-◌, ◌*◌, ◌<◌, ◌≤◌, T, length};
ghost use Rattle.bias.specs.Level.{is_level};
ghost use Rattle.half_bytes.specs.Packed.{unpacked};
ghost use Rattle.prices.specs.Contents.{contents};
ghost use Rattle.trellis_row.specs.Filled.{Fits, Begun, Filled};
ghost use Rattle.trellis_row.specs.Row.{Elsewhere};
ghost use Rattle.trellis_sole.specs.Sole.{sole_tail, sole_chosen, sole_states, TokenIs, SoleReady};

use prices::Pair;
use prices::book::PriceBook;
use steps::Place;
use steps::best::Best;
use trellis_row::row;
use trellis_row::row::States;
use trellis_row::work::Row;

// The one level, its distortion, and its token's rated prices in the context that some counts share.
#[derive(Clone, Copy)]
struct SoleLevel {
    level: i32,
    distortion: f32,
    token: Pair,
    ghost is_level: { T (is_level level) },
}

// What follows the level where r remain.
fn tail_of(row: &Row, r: usize, level: i32) -> f32
    ensures { result ≡ sole_tail level row.now.next.now row.now.span r }
{
    if level == 0 {
        return row.tail_at(r, 0);
    }
    row.nonzero_tail(r)
}

// A state of the sole level: its index where the cost is finite, else 255.
#[tactic(auto, unfolding(crate::specs::Sole::sole_chosen))]
fn chosen(cost: f32) -> Best<u8>
    ensures { result ≡ sole_chosen cost }
{
    if cost < costs::infinity() {
        return Best { cost, choice: 0 };
    }
    Best { cost, choice: 255 }
}

// The two states of a count: distortion and token first, as in every sum of a local cost, then what follows.
#[tactic(auto, unfolding(crate::specs::Sole::sole_states))]
fn states_of(distortion: f32, token: Pair, tail: f32) -> States
    ensures { result ≡ sole_states distortion token tail }
{
    States {
        first: chosen(distortion + token.first + tail),
        second: chosen(distortion + token.second + tail),
    }
}

// The token's rated prices; none where nothing remains.
fn token_of(book: &PriceBook, place: Place, context: usize, level: i32) -> Pair
    requires context_bound { context + 1 < 14850 }
    requires t { T (is_level level) }
    ensures { TokenIs (contents book.now) place context level result }
{
    if context == 0 {
        return Pair {
            first: 0.0f32,
            second: 0.0f32,
        };
    }
    place.rated_pair(book, context, level)
}

// The two states of count `r`, written behind those of the counts before it.
fn row_state(row: &Row, sole: SoleLevel, current: &mut [f32], choices: &mut [u8], r: usize)
    requires r_within { (row.now.least ≤ r) × (r ≤ row.now.most) }
    requires fits { Fits row.now current.old choices.old }
    requires only { row.now.candidates.levels.now ≡ sole.level ∷ [] }
    ensures current_len_unchanged { length current.new ≡ length current.old }
    ensures elsewhere { Elsewhere (2 * row.now.at + 2 * (r - row.now.least)) 2 (unpacked choices.old) (unpacked choices.new) }
    ensures begun { SoleReady (contents row.now.book.now) row.now.place row.now.next.now row.now.span sole.level sole.distortion sole.token r
        → Begun row.now (2 * (r - row.now.least)) current.old choices.old → Begun row.now (2 * (r - row.now.least) + 2) current.new choices.new }
{
    let tail = tail_of(row, r, sole.level);
    if tail < costs::infinity() {
        row::write_pair(
            current,
            choices,
            r - row.least,
            row.at,
            states_of(sole.distortion, sole.token, tail),
        );
        return;
    }
    row::write_pair(current, choices, r - row.least, row.at, row::unreachable());
}

// The states of the counts from `from` to `upto`, which share the token's prices.
fn fill_run(
    row: &Row,
    sole: SoleLevel,
    current: &mut [f32],
    choices: &mut [u8],
    from: usize,
    upto: usize,
)
    requires from_within { (row.now.least ≤ from) × ((from ≤ upto) × (upto ≤ row.now.most)) }
    requires fits { Fits row.now current.old choices.old }
    requires only { row.now.candidates.levels.now ≡ sole.level ∷ [] }
    ensures current_len_unchanged { length current.new ≡ length current.old }
    ensures elsewhere { Elsewhere (2 * row.now.at + 2 * (from - row.now.least)) (2 * (upto + 1 - from)) (unpacked choices.old) (unpacked choices.new) }
    ensures begun { ((r : ℕ) → from ≤ r → r ≤ upto → SoleReady (contents row.now.book.now) row.now.place row.now.next.now row.now.span sole.level sole.distortion sole.token r)
        → Begun row.now (2 * (from - row.now.least)) current.old choices.old → Begun row.now (2 * (upto + 1 - row.now.least)) current.new choices.new }
{
    for r in from..=upto {
        row_state(row, sole, current, choices, r);
    }
}

// The states of a position with one candidate.
fn fill_sole(row: &Row, current: &mut [f32], choices: &mut [u8])
    requires one { length row.now.candidates.levels.now ≡ 1 }
    requires fits { Fits row.now current.old choices.old }
    ensures { Filled row.now current.old current.new choices.old choices.new }
{
    let candidates = row.candidates;
    let place = row.place;
    let level = candidates.levels[0];
    let distortion = place.distortion(level);
    // By runs of counts, not count by count.
    let mut r = row.least;
    while r <= row.most {
        let context = place.context(r);
        let token = token_of(row.book, place, context, level);
        let end = row::run_end(place, r, row.most);
        let sole = SoleLevel {
            level,
            distortion,
            token,
        };
        fill_run(row, sole, current, choices, r, end);
        r = end + 1;
    }
}

// The row's states: their costs from the front of `current`, their choices from the row's byte on.
pub fn fill_row(row: &Row, current: &mut [f32], choices: &mut [u8])
    requires { Fits row.now current.old choices.old }
    ensures { Filled row.now current.old current.new choices.old choices.new }
{
    let candidates = row.candidates;
    if candidates.levels.len() == 1 {
        fill_sole(row, current, choices);
        return;
    }
    row::fill_row(row, current, choices);
}
