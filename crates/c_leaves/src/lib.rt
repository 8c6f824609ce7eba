// The leaf calls, for programs in C and in other languages that call C. `include/rdoq.h` declares them.
#![tactic(auto)]

ghost use Rattle.std.specs.Prelude.{◌≡◌};
ghost use Rattle.token_calls.specs.Contexts.{block_context_reply, non_zero_context_reply, offset_reply, zero_density_reply};
ghost use Rattle.level_calls.specs.Dequant.{level_reply};
ghost use Rattle.token_calls.specs.Tokens.{pack_reply, split_reply};
ghost use Rattle.level_calls.specs.Weighing.{lambda_reply, chroma_reply, distortion_reply, window_reply};
ghost use Rattle.refusals.specs.Numbers.{code_of};
ghost use Rattle.c_answers.specs.Parts.{bias_of, config_of};
ghost use Rattle.c_answers.specs.Told.{after, symbol_after, extra_after, bits_after, length_after, restoring_after};

use bias::DequantBias;
use c_answers::{tell, tell_lengths, tell_token};
use packing::HybridUintConfig;

// Writes the packed form of a level.
#[unsafe(no_mangle)]
pub extern "C" fn rdoq_pack_signed(level: i32, packed: &mut u32) -> u32
    ensures value { result ≡ code_of (pack_reply level) }
    ensures packed_after { packed.new ≡ after (pack_reply level) packed.old }
{
    tell(token_calls::tokens::pack_signed(level), packed)
}

// Writes the symbol of a value under a configuration, how many extra bits it has, and the bits.
#[unsafe(no_mangle)]
pub extern "C" fn rdoq_uint_encode_with_config(
    value: u32,
    split_exponent: u32,
    msb_in_token: u32,
    lsb_in_token: u32,
    symbol: &mut u32,
    extra_bits: &mut u32,
    bits: &mut u32,
) -> u32
    ensures value { result ≡ code_of (split_reply value (config_of split_exponent msb_in_token lsb_in_token)) }
    ensures symbol_after { symbol.new ≡ symbol_after (split_reply value (config_of split_exponent msb_in_token lsb_in_token)) symbol.old }
    ensures extra_bits_after { extra_bits.new ≡ extra_after (split_reply value (config_of split_exponent msb_in_token lsb_in_token)) extra_bits.old }
    ensures bits_after { bits.new ≡ bits_after (split_reply value (config_of split_exponent msb_in_token lsb_in_token)) bits.old }
{
    let config = HybridUintConfig {
        split_exponent,
        msb_in_token,
        lsb_in_token,
    };
    let answer = token_calls::tokens::uint_encode_with_config(value, config);
    tell_token(answer, symbol, extra_bits, bits)
}

// Writes the block context of a channel, a strategy code and a quant class.
#[unsafe(no_mangle)]
pub extern "C" fn rdoq_fine_block_context(
    channel: u32,
    strategy: u32,
    qf_hi: bool,
    context: &mut u32,
) -> u32
    ensures value { result ≡ code_of (block_context_reply channel strategy qf_hi) }
    ensures context_after { context.new ≡ after (block_context_reply channel strategy qf_hi) context.old }
{
    tell(
        token_calls::contexts::fine_block_context(channel, strategy, qf_hi),
        context,
    )
}

// Writes the context of a block's nonzero count, by its predicted count.
#[unsafe(no_mangle)]
pub extern "C" fn rdoq_fine_non_zero_context(
    non_zeros: u32,
    fine_block_ctx: u32,
    context: &mut u32,
) -> u32
    ensures value { result ≡ code_of (non_zero_context_reply non_zeros fine_block_ctx) }
    ensures context_after { context.new ≡ after (non_zero_context_reply non_zeros fine_block_ctx) context.old }
{
    tell(
        token_calls::contexts::fine_non_zero_context(non_zeros, fine_block_ctx),
        context,
    )
}

// Writes the first coefficient context of a block context.
#[unsafe(no_mangle)]
pub extern "C" fn rdoq_fine_zero_density_contexts_offset(
    fine_block_ctx: u32,
    offset: &mut u32,
) -> u32
    ensures value { result ≡ code_of (offset_reply fine_block_ctx) }
    ensures offset_after { offset.new ≡ after (offset_reply fine_block_ctx) offset.old }
{
    tell(
        token_calls::contexts::fine_zero_density_contexts_offset(fine_block_ctx),
        offset,
    )
}

// Writes the context of a coefficient within its block context.
#[unsafe(no_mangle)]
pub extern "C" fn rdoq_zero_density_context(
    nonzeros_left: u32,
    k: u32,
    covered_blocks: u32,
    prev: u32,
    context: &mut u32,
) -> u32
    ensures value { result ≡ code_of (zero_density_reply covered_blocks nonzeros_left k prev) }
    ensures context_after { context.new ≡ after (zero_density_reply covered_blocks nonzeros_left k prev) context.old }
{
    tell(
        token_calls::contexts::zero_density_context(nonzeros_left, k, covered_blocks, prev),
        context,
    )
}

// The same for one covered block.
#[unsafe(no_mangle)]
pub extern "C" fn rdoq_zero_density_context_8x8(
    nonzeros_left: u32,
    k: u32,
    prev: u32,
    context: &mut u32,
) -> u32
    ensures value { result ≡ code_of (zero_density_reply 1 nonzeros_left k prev) }
    ensures context_after { context.new ≡ after (zero_density_reply 1 nonzeros_left k prev) context.old }
{
    tell(
        token_calls::contexts::zero_density_context_8x8(nonzeros_left, k, prev),
        context,
    )
}

// Writes the biased level.
#[unsafe(no_mangle)]
pub extern "C" fn rdoq_level(one: f32, numerator: f32, quant: i32, level: &mut f32) -> u32
    ensures value { result ≡ code_of (level_reply (bias_of one numerator) quant) }
    ensures level_after { level.new ≡ after (level_reply (bias_of one numerator) quant) level.old }
{
    tell(
        level_calls::dequant::level(DequantBias { one, numerator }, quant),
        level,
    )
}

// Writes lambda.
#[unsafe(no_mangle)]
pub extern "C" fn rdoq_lambda(rd: f32, tuning: f32, ratio: f32, lambda: &mut f32) -> u32
    ensures value { result ≡ code_of (lambda_reply rd tuning ratio) }
    ensures lambda_after { lambda.new ≡ after (lambda_reply rd tuning ratio) lambda.old }
{
    tell(
        level_calls::weighing::rdoq_lambda(rd, tuning, ratio),
        lambda,
    )
}

// Writes the multiplier of chroma distortion.
#[unsafe(no_mangle)]
pub extern "C" fn rdoq_chroma_rdoq_weight(distance: f32, weight: &mut f32) -> u32
    ensures value { result ≡ code_of (chroma_reply distance) }
    ensures weight_after { weight.new ≡ after (chroma_reply distance) weight.old }
{
    tell(level_calls::weighing::chroma_rdoq_weight(distance), weight)
}

// Writes the weight of a position in a window.
#[unsafe(no_mangle)]
pub extern "C" fn rdoq_distortion_weight(
    window_index: u32,
    window_len: u32,
    distance: f32,
    weight: &mut f32,
) -> u32
    ensures value { result ≡ code_of (distortion_reply window_index window_len distance) }
    ensures weight_after { weight.new ≡ after (distortion_reply window_index window_len distance) weight.old }
{
    tell(
        level_calls::weighing::rdoq_distortion_weight(window_index, window_len, distance),
        weight,
    )
}

// Writes how many positions the window of a block has, and how many of them may be restored.
#[unsafe(no_mangle)]
pub extern "C" fn rdoq_window_len(
    covered_blocks: u32,
    length: &mut usize,
    restoring: &mut usize,
) -> u32
    ensures value { result ≡ code_of (window_reply covered_blocks) }
    ensures length_after { length.new ≡ length_after (window_reply covered_blocks) length.old }
    ensures restoring_after { restoring.new ≡ restoring_after (window_reply covered_blocks) restoring.old }
{
    tell_lengths(
        level_calls::weighing::rdoq_window_len(covered_blocks),
        length,
        restoring,
    )
}
