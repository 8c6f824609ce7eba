// A row of the trellis worked out edge by edge: every candidate of every count of the next row is tried in turn, and only what is cheaper takes a state's place.
#![tactic(auto)]

ghost use Rattle.std.specs.Prelude.{◌≡◌, ℕ, ◌+◌, ◌-◌, ◌*◌, ◌<◌, ◌≤◌, length};
ghost use Rattle.std.specs.Float.Ieee.{add};
ghost use Rattle.std.specs.Float.{binary32};
ghost use Rattle.half_bytes.specs.Packed.{unpacked};
ghost use Rattle.prices.specs.Contents.{contents};
ghost use Rattle.steps.specs.Place.{distortion_at};
ghost use Rattle.trellis_choice.specs.Locals.{Each};
ghost use Rattle.trellis_row.specs.Filled.{Fits, Filled};
ghost use Rattle.trellis_row.specs.Row.{Elsewhere};
ghost use Rattle.trellis_edges.specs.Edges.{Updated, TriedIn, Cleared};

use prices::Pair;
use steps::best::Best;
use trellis_row::row;
use trellis_row::row::States;
use trellis_row::work::Row;

// An edge into the two states of a row's k-th count, the row's choices being those from byte `at` on.
fn update_pair(
    local: Pair,
    tail: f32,
    choice: u8,
    current: &mut [f32],
    choices: &mut [u8],
    k: usize,
    at: usize,
)
    requires { (2 * k + 1 < length current.old) × ((2 * at + 2 * k + 1 < length (unpacked choices.old)) × (choice ≤ 14)) }
    ensures { Updated (2 * at) (2 * k) choice (add binary32 local.first tail) (add binary32 local.second tail) current.old current.new (unpacked choices.old) (unpacked choices.new) }
{
    let i = 2 * k;
    let byte = at + k;
    let first = Best {
        cost: current[i],
        choice: half_bytes::half(choices, byte, 0),
    };
    let second = Best {
        cost: current[i + 1],
        choice: half_bytes::half(choices, byte, 1),
    };
    let pair = States {
        first: first.consider(local.first + tail, choice),
        second: second.consider(local.second + tail, choice),
    };
    row::write_pair(current, choices, k, at, pair);
}

// The edge from count `n` of the next row over the candidate at `j`: none to a count outside the row, and none where nothing finite follows. The distortions
// stand beside the row: a struct of both would have a lifetime more for each.
fn try_edge(
    row: &Row,
    distortion: &[f32; 5],
    current: &mut [f32],
    choices: &mut [u8],
    n: usize,
    j: usize,
)
    requires each { Each (distortion_at row.now.place) row.now.candidates.levels.now distortion.now }
    requires fits { Fits row.now current.old choices.old }
    requires n_le_most { (n ≤ row.now.most) × (j < length row.now.candidates.levels.now) }
    requires tried { TriedIn row.now n j current.old choices.old }
    ensures current_len_unchanged { length current.new ≡ length current.old }
    ensures elsewhere { Elsewhere (2 * row.now.at) (2 * (row.now.most + 1 - row.now.least)) (unpacked choices.old) (unpacked choices.new) }
    ensures tried_after { TriedIn row.now n (j + 1) current.new choices.new }
{
    let candidates = row.candidates;
    let level = candidates.levels[j];
    let nonzero = steps::nonzero(level);
    let tail = row.tail_at(n, nonzero);
    if tail < costs::infinity() {
        let r = n + nonzero;
        if r < row.least || row.most < r {
            return;
        }
        let place = row.place;
        let context = place.context(r);
        let local = place.local_pair(row.book, context, level, distortion[j]);
        let k = r - row.least;
        update_pair(local, tail, j as u8, current, choices, k, row.at);
    }
}

// All edges from count `n` of the next row.
fn edges_from(row: &Row, distortion: &[f32; 5], current: &mut [f32], choices: &mut [u8], n: usize)
    requires each { Each (distortion_at row.now.place) row.now.candidates.levels.now distortion.now }
    requires fits { Fits row.now current.old choices.old }
    requires n_le_most { n ≤ row.now.most }
    requires tried { TriedIn row.now n 0 current.old choices.old }
    ensures current_len_unchanged { length current.new ≡ length current.old }
    ensures elsewhere { Elsewhere (2 * row.now.at) (2 * (row.now.most + 1 - row.now.least)) (unpacked choices.old) (unpacked choices.new) }
    ensures tried_after { TriedIn row.now (n + 1) 0 current.new choices.new }
{
    let candidates = row.candidates;
    for j in 0..candidates.levels.len() {
        try_edge(row, distortion, current, choices, n, j);
    }
}

// All edges of the row, whose states are at +infinity.
fn all_edges(row: &Row, distortion: &[f32; 5], current: &mut [f32], choices: &mut [u8])
    requires each { Each (distortion_at row.now.place) row.now.candidates.levels.now distortion.now }
    requires fits { Fits row.now current.old choices.old }
    requires cleared { Cleared (2 * row.now.at) (2 * (row.now.most + 1 - row.now.least)) current.old (unpacked choices.old) }
    ensures { Filled row.now current.old current.new choices.old choices.new }
{
    // A copy: what is lent would be read anew after each write.
    let own = *row;
    let span = own.span;
    // No edge leads into the row from a count past `most`.
    for n in span.from..=span.upto.min(own.most) {
        edges_from(&own, distortion, current, choices, n);
    }
}

// The states of `n` counts at +infinity, with no choice.
fn clear(current: &mut [f32], choices: &mut [u8], at: usize, n: usize)
    requires { (2 * n ≤ length current.old) × (2 * at + 2 * n ≤ length (unpacked choices.old)) }
    ensures current_len_unchanged { length current.new ≡ length current.old }
    ensures elsewhere { Elsewhere (2 * at) (2 * n) (unpacked choices.old) (unpacked choices.new) }
    ensures cleared { Cleared (2 * at) (2 * n) current.new (unpacked choices.new) }
{
    for k in 0..n {
        row::write_pair(current, choices, k, at, row::unreachable());
    }
}

// The row's states: their costs from the front of `current`, their choices from the row's byte on.
pub fn fill_row(row: &Row, current: &mut [f32], choices: &mut [u8])
    requires { Fits row.now current.old choices.old }
    ensures { Filled row.now current.old current.new choices.old choices.new }
{
    let mut distortion = [0.0f32; 5];
    steps::reading::distortions(row.place, &row.candidates, &mut distortion);
    clear(current, choices, row.at, row.most + 1 - row.least);
    all_edges(row, &distortion, current, choices);
}
