// The value that a decoder restores from a level.
ghost use Rattle.std.specs.Prelude.{◌≡◌};
ghost use Rattle.level_calls.specs.Dequant.{level_reply};

use bias::DequantBias;
use refusals::Refusal;

// The biased level. Takes levels within ±32,768 and a record that passes check 10.
#[tactic(auto, unfolding(crate::specs::Dequant::level_reply))]
pub fn level(bias: DequantBias, quant: i32) -> Result<f32, Refusal>
    ensures { result ≡ level_reply bias quant }
{
    if !bias::is_level(quant) || !bias.valid() {
        return Err(Refusal::Domain);
    }
    Ok(bias.level(quant))
}
