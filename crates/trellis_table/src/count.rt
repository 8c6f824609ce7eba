// The last step: the least cost over the counts.
ghost use Rattle.std.specs.Prelude.{◌≡◌, ◌≤◌};
ghost use Rattle.least_cost.specs.Search.{total, least_total, least_count};
ghost use Rattle.prices.specs.Contents.{contents};
ghost use Rattle.trellis_table.specs.Rows.{FirstRow, problem_in};

use crate::position::Counts;
use prices::book::PriceBook;
use steps::best::Best;
use steps::plan::Plan;

// The least cost with count `n`.
fn total_of(book: &PriceBook, plan: Plan, live: &[f32], counts: Counts, n: usize) -> f32
    requires first_row { FirstRow (contents book.now) plan live.now counts }
    requires least_le_n { (counts.least ≤ n) × (n ≤ counts.most) }
    ensures { (t : FirstRow (contents book.now) plan live.now counts) → result ≡ total (problem_in t) n }
{
    let prev = steps::tokens::first_prev(plan.covered, n);
    let at = 2 * (n - counts.least) + prev;
    live[at] + steps::tokens::count_cost(book, plan, n)
}

// The least cost, and the count that has it.
pub fn best_count(book: &PriceBook, plan: Plan, live: &[f32], counts: Counts) -> Best<usize>
    requires { FirstRow (contents book.now) plan live.now counts }
    ensures { (t : FirstRow (contents book.now) plan live.now counts) → (result.cost ≡ least_total (problem_in t)) × (result.choice ≡ least_count (problem_in t)) }
{
    let mut best = Best {
        cost: costs::infinity(),
        choice: counts.least,
    };
    for n in counts.least..=counts.most {
        let cost = total_of(book, plan, live, counts, n);
        best = best.consider(cost, n);
    }
    best
}
