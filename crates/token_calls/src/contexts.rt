// The contexts of a block's tokens.
ghost use Rattle.std.specs.Prelude.{◌≡◌};
ghost use Rattle.token_calls.specs.Contexts.{block_context_reply, non_zero_context_reply, offset_reply, zero_density_reply};

use refusals::Refusal;

// The block context of a channel (X = 0, Y = 1, B = 2), a strategy code and a quant class.
#[tactic(auto, unfolding(crate::specs::Contexts::block_context_reply))]
pub fn fine_block_context(channel: u32, strategy: u32, qf_hi: bool) -> Result<u32, Refusal>
    ensures { result ≡ block_context_reply channel strategy qf_hi }
{
    if channel >= 3 || strategy >= 27 {
        return Err(Refusal::Domain);
    }
    Ok(ac_context::fine_block_context(channel as usize, strategy as usize, qf_hi))
}

// The context of a block's nonzero count, by its predicted count.
#[tactic(auto, unfolding(crate::specs::Contexts::non_zero_context_reply))]
pub fn fine_non_zero_context(non_zeros: u32, fine_block_ctx: u32) -> Result<u32, Refusal>
    ensures { result ≡ non_zero_context_reply non_zeros fine_block_ctx }
{
    if fine_block_ctx >= 30 {
        return Err(Refusal::Domain);
    }
    Ok(ac_context::fine_non_zero_context(non_zeros, fine_block_ctx))
}

// The first coefficient context of a block context.
#[tactic(auto, unfolding(crate::specs::Contexts::offset_reply))]
pub fn fine_zero_density_contexts_offset(fine_block_ctx: u32) -> Result<u32, Refusal>
    ensures { result ≡ offset_reply fine_block_ctx }
{
    if fine_block_ctx >= 30 {
        return Err(Refusal::Domain);
    }
    Ok(ac_context::fine_zero_density_contexts_offset(fine_block_ctx))
}

// The context of a coefficient within its block context: `nonzeros_left` counts the nonzero levels at scan position `k` or later.
#[tactic(auto, using(ac_context::proofs::Domain::coefficient), unfolding(crate::specs::Contexts::zero_density_reply))]
pub fn zero_density_context(
    nonzeros_left: u32,
    k: u32,
    covered_blocks: u32,
    prev: u32,
) -> Result<u32, Refusal>
    ensures { result ≡ zero_density_reply covered_blocks nonzeros_left k prev }
{
    let left = nonzeros_left as usize;
    let at = k as usize;
    let covered = covered_blocks as usize;
    let before = prev as usize;
    let log2 = ac_context::log2_covered(covered);
    if log2 >= 11 || !ac_context::is_coefficient(left, at, covered, before) {
        return Err(Refusal::Domain);
    }
    let context = ac_context::zero_density_context(left, at, covered, log2, before);
    Ok(context as u32)
}

// The same for one covered block.
#[tactic(auto, using(ac_context::proofs::Domain::coefficient), unfolding(crate::specs::Contexts::zero_density_reply, ac_context::specs::Contexts::is_covered, ac_context::specs::Contexts::is_power_below))]
pub fn zero_density_context_8x8(nonzeros_left: u32, k: u32, prev: u32) -> Result<u32, Refusal>
    ensures { result ≡ zero_density_reply 1 nonzeros_left k prev }
{
    let left = nonzeros_left as usize;
    let at = k as usize;
    let before = prev as usize;
    if !ac_context::is_coefficient(left, at, 1, before) {
        return Err(Refusal::Domain);
    }
    let context = ac_context::zero_density_context_8x8(left, at, before);
    Ok(context as u32)
}
