// The tokens past the window, by stretches: positions that share a frequency context, where counts remain that share a count context. A
// stretch has two contexts, by `prev`, and their clusters are looked up once.
ghost use Rattle.std.specs.Prelude.{◌≡◌, cond, List, ℕ, ◌+◌, ◌-◌, ◌*◌, ◌<◌, ◌≤◌, T, eqb, length};
ghost use Rattle.std.specs.Float.Ieee.{mul};
ghost use Rattle.std.specs.Float.{binary32};
ghost use Rattle.ac_context.specs.Contexts.{Coefficient};
ghost use Rattle.block.specs.Block.{Block};
ghost use Rattle.block.specs.Cost.{tokens_from};
ghost use Rattle.candidates.specs.Candidates.{is_current};
ghost use Rattle.packing.specs.Signed.{pack_signed};
ghost use Rattle.prices.specs.Book.{cluster_price};
ghost use Rattle.prices.specs.Contents.{contents};
ghost use Rattle.steps.specs.Plan.{Planned, Whole};
ghost use Rattle.steps.specs.Tail.{Shared, Standing, Continued};

use crate::plan::Plan;
use prices::Pair;
use prices::book::PriceBook;

// How far the tokens are added up: the next scan position, the nonzero levels that remain there, `prev`, and the sums for both values of `prev` where the tail begins.
#[derive(Clone, Copy)]
pub(crate) struct Tail {
    pub k: usize,
    pub remaining: usize,
    pub prev: usize,
    pub first: f32,
    pub second: f32,
}

// Up to which scan position and down to which count the contexts stay, and the clusters of both.
#[derive(Clone, Copy)]
struct Stretch {
    end: usize,
    least: usize,
    zero: usize,
    one: usize,
}

fn stretch_at(book: &PriceBook, plan: Plan, remaining: usize, k: usize) -> Stretch
    requires { Coefficient plan.covered remaining k 0 }
    ensures { Shared plan book.now.map.now k remaining result }
{
    let covered = plan.covered;
    let context = plan.offset
        + ac_context::zero_density_context(remaining, k, covered, plan.log2, 0);
    let end = (k / covered + 1) * covered;
    let least = (remaining - 1) / covered * covered + 1;
    let zero = usize::from(book.map[context]);
    let one = usize::from(book.map[context + 1]);
    Stretch {
        end,
        least,
        zero,
        one,
    }
}

// lambda times the price of a level's token in a stretch.
fn stretch_cost(
    book: &PriceBook,
    lambda: f32,
    zero: usize,
    one: usize,
    prev: usize,
    level: i32,
) -> f32
    requires clusters { (zero < (contents book.now).clusters) × (one < (contents book.now).clusters) }
    requires t { T (is_current level) }
    ensures { result ≡ mul binary32 lambda (cluster_price book.now.configs.now book.now.symbols.now (cond (eqb prev 0) zero one) (pack_signed level)) }
{
    let cluster = crate::by_prev(prev, zero, one);
    let value = packing::pack_signed(level);
    lambda * book.cluster_bits(cluster, value)
}

// Goes on to the end of the stretch.
fn add_stretch(
    book: &PriceBook,
    scan: &[u32],
    levels: &[i32],
    lambda: f32,
    stretch: Stretch,
    tail: Tail,
) -> Tail
    requires clusters { (stretch.zero < (contents book.now).clusters) × (stretch.one < (contents book.now).clusters) }
    requires standing { Standing scan.now levels.now tail }
    requires bounded { (stretch.end ≤ length scan.now) × (1 ≤ stretch.least) }
    ensures standing_after { Standing scan.now levels.now result }
    ensures further { (tail.k ≤ result.k) × (tail.k < stretch.end → stretch.least ≤ tail.remaining → tail.k < result.k) }
    ensures continued { (b : Block) (plan : Plan) → scan.now ≡ b.scan → levels.now ≡ b.levels → Planned b plan → plan.lambda ≡ lambda → Shared plan book.now.map.now tail.k tail.remaining stretch
        → Continued (contents book.now) b (length scan.now) tail result }
{
    let mut sum = tail;
    for k in tail.k..stretch.end {
        if sum.remaining < stretch.least {
            return sum;
        }
        let level = crate::level_at(scan, levels, k);
        let cost = stretch_cost(book, lambda, stretch.zero, stretch.one, sum.prev, level);
        let nonzero = crate::nonzero(level);
        sum = Tail {
            k: k + 1,
            remaining: sum.remaining - nonzero,
            prev: nonzero,
            first: sum.first + cost,
            second: sum.second + cost,
        };
    }
    sum
}

// Adds to both sums what the levels from here on cost, token by token until no nonzero one is left.
pub(crate) fn add_tokens(
    book: &PriceBook,
    plan: Plan,
    scan: &[u32],
    levels: &[i32],
    from: Tail,
) -> Pair
    requires scan_len { length scan.now ≡ 64 * plan.covered }
    requires standing { Standing scan.now levels.now from }
    requires covered_le_k { plan.covered ≤ from.k }
    ensures { (b : Block) → scan.now ≡ b.scan → levels.now ≡ b.levels → Planned b plan
        → (result.first ≡ tokens_from (contents book.now) b (length scan.now - from.k) from.remaining from.k from.prev from.first)
        × (result.second ≡ tokens_from (contents book.now) b (length scan.now - from.k) from.remaining from.k from.prev from.second) }
{
    let mut tail = from;
    // By stretches, each as long as its first token says, until no nonzero level is left.
    while tail.remaining != 0 {
        let stretch = stretch_at(book, plan, tail.remaining, tail.k);
        tail = add_stretch(book, scan, levels, plan.lambda, stretch, tail);
    }
    Pair {
        first: tail.first,
        second: tail.second,
    }
}
