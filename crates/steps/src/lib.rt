// The steps that the searches share.
#![tactic(auto)]

pub mod best;
pub mod plan;
pub mod reading;
mod tail;
pub mod tokens;

ghost use Rattle.std.specs.Prelude.{◌≡◌, true, false, cond, ◌+◌, ◌-◌, ◌*◌, ◌<◌, ◌≤◌, T, eqb, length, get_or, set, nat_abs};
ghost use Rattle.ac_context.specs.Contexts.{Coefficient, Covered};
ghost use Rattle.bias.specs.Level.{is_level};
ghost use Rattle.block.specs.Block.{ideal_at};
ghost use Rattle.least_cost.specs.Position.{nz};
ghost use Rattle.prices.specs.Book.{price};
ghost use Rattle.prices.specs.Contents.{contents};
ghost use Rattle.scan.specs.Scan.{level_at};
ghost use Rattle.steps.specs.Place.{distortion_at, rate_at, context_at, rated_in, local_in};

use bias::DequantBias;
use block::BlockData;
use prices::Pair;
use prices::book::PriceBook;

// All that prices a level at one window position: the scan position, the covered blocks and their logarithm, the first coefficient
// context, the distortion's weight, the ideal, the bias, and the rates of the level 0 and of any other.
#[derive(Clone, Copy)]
pub struct Place {
    pub k: usize,
    pub covered: usize,
    pub log2: u32,
    pub offset: usize,
    pub weight: f32,
    pub ideal: f32,
    pub bias: DequantBias,
    pub lambda: f32,
    pub nonzero_rate: f32,
}

// 1 for a nonzero level.
pub fn nonzero(level: i32) -> usize
    ensures { result ≡ nz level }
{
    usize::from(level != 0)
}

// The one of two that is for `prev`, which is a number, since contexts and indices add it.
pub fn by_prev<T: Copy>(prev: usize, zero: T, one: T) -> T
    ensures { result ≡ cond (eqb prev 0) zero one }
{
    if prev == 0 { zero } else { one }
}

// The ideal at scan position k. `scale` is the block's, handed over apart: what a search knows of it, it knows of its plan's.
pub fn ideal_at(block: &BlockData, scale: f32, k: usize) -> f32
    requires k_in_bounds { k < length block.now.scan.now }
    requires k_in_bounds_2 { get_or block.now.scan.now k 0 < length block.now.source.now }
    requires k_in_bounds_3 { get_or block.now.scan.now k 0 < length block.now.inv_qm.now }
    ensures { result ≡ ideal_at block.now.scan.now block.now.source.now block.now.inv_qm.now scale k }
{
    let at = block.scan[k] as usize;
    block.source[at] * block.inv_qm[at] * scale
}

pub fn level_at(scan: &[u32], levels: &[i32], k: usize) -> i32
    requires k_in_bounds { k < length scan.now }
    requires k_in_bounds_2 { get_or scan.now k 0 < length levels.now }
    ensures { result ≡ level_at scan.now levels.now k }
{
    let at = scan[k] as usize;
    levels[at]
}

pub fn write_level(scan: &[u32], levels: &mut [i32], k: usize, level: i32)
    requires k_in_bounds { k < length scan.now }
    requires k_in_bounds_2 { get_or scan.now k 0 < length levels.old }
    ensures { levels.new ≡ set levels.old (get_or scan.now k 0) level }
{
    levels[scan[k] as usize] = level;
}

impl Place {
    pub fn distortion(self, level: i32) -> f32
        requires { T (is_level level) }
        ensures { result ≡ distortion_at self level }
    {
        let bias = self.bias;
        let off = self.ideal - bias.level(level);
        self.weight * (off * off)
    }

    pub fn rate(self, level: i32) -> f32
        ensures { result ≡ rate_at self level }
    {
        if level == 0 {
            self.lambda
        } else {
            self.nonzero_rate
        }
    }

    // The token's context with `prev` 0, or 0 where nothing remains: no coefficient's context, and the number that definitions have.
    pub fn context(self, remaining: usize) -> usize
        requires covered { Covered self.covered self.log2 }
        requires coefficient { 0 < remaining → Coefficient self.covered remaining self.k 0 }
        requires offset_bound { self.offset + 457 < 14850 }
        ensures { (result ≡ context_at self remaining) × (result + 1 < 14850) }
    {
        if remaining == 0 {
            return 0;
        }
        self.offset
            + ac_context::zero_density_context(remaining, self.k, self.covered, self.log2, 0)
    }

    // The rated prices of a level's token for `prev` 0 and 1. A call of its own would cost the searches more.
    #[inline(always)]
    pub fn rated_pair(self, book: &PriceBook, context: usize, level: i32) -> Pair
        requires context_bound { context + 1 < 14850 }
        requires t { T (is_level level) }
        ensures { (result.first ≡ rated_in (contents book.now) self context 0 level)
            × (result.second ≡ rated_in (contents book.now) self context 1 level) }
    {
        let value = packing::pack_signed(level);
        let bits = book.token_bits_pair(context, value);
        let rate = self.rate(level);
        Pair {
            first: rate * bits.first,
            second: rate * bits.second,
        }
    }

    // The local costs of a level for `prev` 0 and 1, its distortion at hand.
    pub fn local_pair(self, book: &PriceBook, context: usize, level: i32, distortion: f32) -> Pair
        requires context_bound { context + 1 < 14850 }
        requires t { T (is_level level) }
        requires distortion_value { distortion ≡ distortion_at self level }
        ensures { (result.first ≡ local_in (contents book.now) self context 0 level)
            × (result.second ≡ local_in (contents book.now) self context 1 level) }
    {
        if context == 0 {
            return Pair {
                first: distortion,
                second: distortion,
            };
        }
        let rated = self.rated_pair(book, context, level);
        Pair {
            first: distortion + rated.first,
            second: distortion + rated.second,
        }
    }
}
