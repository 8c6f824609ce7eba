// Tokens that no choice changes: the count's, and those past the window.
ghost use Rattle.std.specs.Prelude.{◌≡◌, false, cond, ◌+◌, ◌-◌, ◌*◌, ◌/◌, ◌<◌, ◌≤◌, T, leb, pos, length, get_or};
ghost use Rattle.std.specs.Float.{fin, binary32};
ghost use Rattle.std.specs.Float.Ieee.{mul};
ghost use Rattle.ac_context.specs.Contexts.{Coefficient};
ghost use Rattle.bias.specs.Level.{is_level};
ghost use Rattle.block.specs.Block.{Block, nonzeros_among};
ghost use Rattle.block.specs.Cost.{token_price, tokens_from, count_cost};
ghost use Rattle.candidates.specs.Candidates.{is_current};
ghost use Rattle.prices.specs.Contents.{contents};
ghost use Rattle.least_cost.specs.Position.{nz};
ghost use Rattle.scan.specs.Scan.{Perm, sum_to};
ghost use Rattle.steps.specs.Plan.{Planned, Whole};

use crate::plan::Plan;
use crate::tail;
use crate::tail::Tail;
use prices::Pair;
use prices::book::PriceBook;

// The nonzero levels of a list, in its own order: so the loop is vectorised.
fn nonzeros_in(levels: &[i32]) -> usize
    requires { length levels.now ≤ 65536 }
    ensures { result ≡ sum_to (λ i. nz (get_or levels.now i (pos 0))) (length levels.now) }
{
    let mut count = levels.len() as u32;
    for &level in levels {
        count -= u32::from(level == 0);
    }
    count as usize
}

// The nonzero levels from scan position `from` up to `end`.
pub fn nonzeros_between(scan: &[u32], levels: &[i32], from: usize, end: usize) -> usize
    requires perm { Perm scan.now (length levels.now) }
    requires from_le_end { (from ≤ end) × (end ≤ length scan.now) }
    ensures { result ≡ nonzeros_among scan.now levels.now from (end - from) }
{
    let mut count = 0;
    for k in from..end {
        count += crate::nonzero(crate::level_at(scan, levels, k));
    }
    count
}

// The nonzero levels from scan position `from` to the end. Where that is most of the block, all are counted in the list's own order, less those in front.
pub fn nonzeros_from(scan: &[u32], levels: &[i32], from: usize) -> usize
    requires perm { (Perm scan.now (length levels.now)) × (length levels.now ≤ 65536) }
    requires from_in_bounds { from ≤ length scan.now }
    ensures { result ≡ nonzeros_among scan.now levels.now from (length scan.now - from) }
{
    if scan.len() < 2 * from {
        return nonzeros_between(scan, levels, from, scan.len());
    }
    nonzeros_in(levels) - nonzeros_between(scan, levels, 0, from)
}

// The price of a level's token.
pub fn token_bits(
    book: &PriceBook,
    plan: Plan,
    remaining: usize,
    k: usize,
    prev: usize,
    level: i32,
) -> f32
    requires coefficient { Coefficient plan.covered remaining k prev }
    requires t { T (is_level level) }
    ensures { (b : Block) → Planned b plan → result ≡ token_price (contents book.now) b remaining k prev level }
{
    let context = plan.offset
        + ac_context::zero_density_context(remaining, k, plan.covered, plan.log2, prev);
    let value = packing::pack_signed(level);
    book.token_bits(context, value)
}

// lambda times the price of a level's token.
fn token_cost(
    book: &PriceBook,
    plan: Plan,
    remaining: usize,
    k: usize,
    prev: usize,
    level: i32,
) -> f32
    requires coefficient { Coefficient plan.covered remaining k prev }
    requires t { T (is_current level) }
    ensures { (b : Block) → Planned b plan → result ≡ mul binary32 plan.lambda (token_price (contents book.now) b remaining k prev level) }
{
    plan.lambda * token_bits(book, plan, remaining, k, prev, level)
}

// `prev` at the first position.
pub fn first_prev(covered: usize, count: usize) -> usize
    requires { covered ≤ 1024 }
    ensures { result ≡ cond (leb count (64 * covered / 16)) 1 0 }
{
    usize::from(count <= 64 * covered / 16)
}

// lambda times the price of the count.
pub fn count_cost(book: &PriceBook, plan: Plan, count: usize) -> f32
    requires { count ≤ 65536 }
    ensures { (b : Block) → Planned b plan → result ≡ count_cost (contents book.now) b count }
{
    plan.lambda * book.token_bits(plan.count_context, count as u32)
}

// What the levels from scan position `from` on cost, `count` of them nonzero, with `prev` 0 and 1. `prev` decides the first token alone, so that all others are priced once.
pub fn tail_costs(
    book: &PriceBook,
    plan: Plan,
    scan: &[u32],
    levels: &[i32],
    from: usize,
    count: usize,
) -> Pair
    requires whole { Whole plan.covered from scan.now levels.now }
    requires covered_le_from { (plan.covered ≤ from) × (from ≤ length scan.now) }
    requires count_value { count ≡ nonzeros_among scan.now levels.now from (length scan.now - from) }
    ensures { (b : Block) → scan.now ≡ b.scan → levels.now ≡ b.levels → Planned b plan
        → (result.first ≡ tokens_from (contents book.now) b (length scan.now - from) count from 0 (fin false 0 (pos 0)))
        × (result.second ≡ tokens_from (contents book.now) b (length scan.now - from) count from 1 (fin false 0 (pos 0))) }
{
    if count == 0 {
        return Pair {
            first: 0.0f32,
            second: 0.0f32,
        };
    }
    let level = crate::level_at(scan, levels, from);
    let zero = token_cost(book, plan, count, from, 0, level);
    let one = token_cost(book, plan, count, from, 1, level);
    let nonzero = crate::nonzero(level);
    let k = from + 1;
    let remaining = count - nonzero;
    tail::add_tokens(
        book,
        plan,
        scan,
        levels,
        Tail {
            k,
            remaining,
            prev: nonzero,
            first: 0.0 + zero,
            second: 0.0 + one,
        },
    )
}
