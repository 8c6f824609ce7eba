// Lambda, the weights of distortion and the lengths of a window.
ghost use Rattle.std.specs.Prelude.{◌≡◌};
ghost use Rattle.level_calls.specs.Weighing.{lambda_reply, chroma_reply, distortion_reply, window_reply};

use refusals::Refusal;
use weights::Window;

// Lambda from the two constants of the encoder and the quant field ratio, which must be a number.
#[tactic(auto, unfolding(crate::specs::Weighing::lambda_reply))]
pub fn rdoq_lambda(rd: f32, tuning: f32, ratio: f32) -> Result<f32, Refusal>
    ensures { result ≡ lambda_reply rd tuning ratio }
{
    if ratio.is_nan() {
        return Err(Refusal::Domain);
    }
    Ok(weights::rdoq_lambda(rd, tuning, ratio))
}

// The multiplier of chroma distortion at a distance of 0 to 25.
#[tactic(auto, unfolding(crate::specs::Weighing::chroma_reply))]
pub fn chroma_rdoq_weight(distance: f32) -> Result<f32, Refusal>
    ensures { result ≡ chroma_reply distance }
{
    if !weights::is_distance(distance) {
        return Err(Refusal::Domain);
    }
    Ok(weights::chroma_rdoq_weight(distance))
}

// The weight of a position in a window of at most 1,024. The index is at most the length.
#[tactic(auto, unfolding(crate::specs::Weighing::distortion_reply))]
pub fn rdoq_distortion_weight(
    window_index: u32,
    window_len: u32,
    distance: f32,
) -> Result<f32, Refusal>
    ensures { result ≡ distortion_reply window_index window_len distance }
{
    if window_index > window_len || window_len > 1024 || !weights::is_distance(distance) {
        return Err(Refusal::Domain);
    }
    Ok(weights::rdoq_distortion_weight(window_index as usize, window_len as usize, distance))
}

// The lengths of the window for a number of covered blocks, a power of two up to 1,024.
#[tactic(auto, unfolding(crate::specs::Weighing::window_reply))]
pub fn rdoq_window_len(covered_blocks: u32) -> Result<Window, Refusal>
    ensures { result ≡ window_reply covered_blocks }
{
    let covered = covered_blocks as usize;
    if ac_context::log2_covered(covered) >= 11 {
        return Err(Refusal::Domain);
    }
    Ok(weights::rdoq_window_len(covered))
}
