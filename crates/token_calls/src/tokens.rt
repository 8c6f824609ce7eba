// A level as an unsigned number, and a number as a symbol with extra bits.
ghost use Rattle.std.specs.Prelude.{◌≡◌};
ghost use Rattle.packing.specs.Hybrid.{valid_config};
ghost use Rattle.token_calls.specs.Tokens.{pack_reply, split_reply};

use packing::{HybridUintConfig, Split};
use refusals::Refusal;

// The packed form of a level within ±32,768.
#[tactic(auto, unfolding(crate::specs::Tokens::pack_reply))]
pub fn pack_signed(level: i32) -> Result<u32, Refusal>
    ensures { result ≡ pack_reply level }
{
    if bias::is_level(level) {
        Ok(packing::pack_signed(level))
    } else {
        Err(Refusal::Domain)
    }
}

// Check 4 of a configuration. The record's numbers may be too large for the bytes that the check is made of.
#[tactic(auto, unfolding(packing::specs::Hybrid::valid_config))]
fn passes(config: HybridUintConfig) -> bool
    ensures { result ≡ valid_config config.split_exponent config.msb_in_token config.lsb_in_token }
{
    let HybridUintConfig {
        split_exponent: s,
        msb_in_token: m,
        lsb_in_token: l,
    } = config;
    s <= 6 && m <= 6 && l <= 6 && packing::valid_config(s as u8, m as u8, l as u8)
}

// The symbol of a value of at most 131,071 and its extra bits, under a configuration that passes check 4.
#[tactic(auto, unfolding(crate::specs::Tokens::split_reply))]
pub fn uint_encode_with_config(value: u32, config: HybridUintConfig) -> Result<Split, Refusal>
    ensures { result ≡ split_reply value config }
{
    if value > 131071 || !passes(config) {
        return Err(Refusal::Domain);
    }
    Ok(packing::uint_encode_with_config(value, config))
}
