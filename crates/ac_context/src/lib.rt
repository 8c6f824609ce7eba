// The contexts of a block's tokens: those of src/ac_context.rs that the level search uses.
#![tactic(auto)]

ghost use Rattle.std.specs.Prelude.{◌≡◌, ◌+◌, ◌-◌, ◌*◌, ◌<◌, ◌≤◌, ◌^◌};
ghost use Rattle.ac_context.specs.Contexts.{block_context, fine_block_context, non_zero_bucket, fine_non_zero_context, fine_zero_density_contexts_offset, zero_density_context, fine_block_contexts, Covered, Coefficient, CountsAlike, Logarithm, is_coefficient};

mod tables;

const K_NUM_ORDERS: usize = 13;

const K_NON_ZERO_BUCKETS: u32 = 37;

const K_ZERO_DENSITY_CONTEXT_COUNT: u32 = 458;

const K_NUM_QF_CLASSES: u32 = 2;

const K_NUM_FINE_BLOCK_CTXS: u32 = 30;

fn block_context(c: usize, ac_strategy_code: usize) -> u32
    requires { (c < 3) × (ac_strategy_code < 27) }
    ensures { (result ≡ block_context c ac_strategy_code) × (result < 15) }
{
    let order = tables::strategy_order(ac_strategy_code);
    let row = tables::channel_row(c);
    tables::compact_block_context(row * K_NUM_ORDERS + order) as u32
}

pub fn fine_block_context(c: usize, ac_strategy_code: usize, qf_hi: bool) -> u32
    requires { (c < 3) × (ac_strategy_code < 27) }
    ensures { (result ≡ fine_block_context c ac_strategy_code qf_hi) × (result < fine_block_contexts) }
{
    block_context(c, ac_strategy_code) * K_NUM_QF_CLASSES + u32::from(qf_hi)
}

pub fn non_zero_bucket(non_zeros: u32) -> u32
    ensures { (result ≡ non_zero_bucket non_zeros) × (result < 37) }
{
    if non_zeros < 8 {
        non_zeros
    } else if non_zeros >= 64 {
        36
    } else {
        4 + non_zeros / 2
    }
}

pub fn fine_non_zero_context(non_zeros: u32, fine_block_ctx: u32) -> u32
    requires { fine_block_ctx < fine_block_contexts }
    ensures { (result ≡ fine_non_zero_context non_zeros fine_block_ctx) × (result < 1110) }
{
    non_zero_bucket(non_zeros) * K_NUM_FINE_BLOCK_CTXS + fine_block_ctx
}

pub fn fine_zero_density_contexts_offset(fine_block_ctx: u32) -> u32
    requires { fine_block_ctx < fine_block_contexts }
    ensures { (result ≡ fine_zero_density_contexts_offset fine_block_ctx) × (result < 14850 - 457) }
{
    K_NON_ZERO_BUCKETS * K_NUM_FINE_BLOCK_CTXS + K_ZERO_DENSITY_CONTEXT_COUNT * fine_block_ctx
}

// One covered block: count and position index the tables as they are.
pub fn zero_density_context_8x8(nonzeros_left: usize, k: usize, prev: usize) -> usize
    requires { Coefficient 1 nonzeros_left k prev }
    ensures { (result ≡ zero_density_context 1 nonzeros_left k prev) × (result < 458) }
{
    (tables::coeff_num_nonzero_context(nonzeros_left) + tables::coeff_freq_context(k)) * 2 + prev
}

pub fn zero_density_context(
    nonzeros_left: usize,
    k: usize,
    covered_blocks: usize,
    log2_covered_blocks: u32,
    prev: usize,
) -> usize
    requires { (Covered covered_blocks log2_covered_blocks) × (Coefficient covered_blocks nonzeros_left k prev) }
    ensures { (result ≡ zero_density_context covered_blocks nonzeros_left k prev) × (result < 458) }
{
    let nz = (nonzeros_left + covered_blocks - 1) >> log2_covered_blocks;
    let kk = k >> log2_covered_blocks;
    (tables::coeff_num_nonzero_context(nz) + tables::coeff_freq_context(kk)) * 2 + prev
}

// Up to which count the contexts stay those of `nonzeros_left`, whatever the position.
pub fn last_count_alike(
    nonzeros_left: usize,
    covered_blocks: usize,
    log2_covered_blocks: u32,
) -> usize
    requires { (Covered covered_blocks log2_covered_blocks) × (nonzeros_left ≤ 63 * covered_blocks) }
    ensures { CountsAlike covered_blocks nonzeros_left result }
{
    let nz = (nonzeros_left + covered_blocks - 1) >> log2_covered_blocks;
    tables::last_alike(nz) << log2_covered_blocks
}

// log2 of a number of covered blocks, or 11 where it is no power of two up to 1,024. (An `Option` is no plainer: two of the four callers know that there is one, and
// would have to unwrap it.)
pub fn log2_covered(covered_blocks: usize) -> u32
    ensures { Logarithm covered_blocks result }
{
    for log2 in 0..11 {
        if covered_blocks == 1 << log2 {
            return log2;
        }
    }
    11
}

// Whether a coefficient context is defined there. Each number is one that came as 32 bits.
#[tactic(auto, unfolding(crate::specs::Contexts::is_coefficient))]
pub fn is_coefficient(nonzeros_left: usize, k: usize, covered_blocks: usize, prev: usize) -> bool
    requires { (nonzeros_left < 2 ^ 32) × ((k < 2 ^ 32) × (covered_blocks < 2 ^ 32)) }
    ensures { result ≡ is_coefficient covered_blocks nonzeros_left k prev }
{
    1 <= nonzeros_left
        && nonzeros_left + k <= 64 * covered_blocks
        && covered_blocks <= k
        && prev < 2
}
