// Packing of levels and splitting of values into a symbol and extra bits (document 01, module 1).
#![tactic(auto)]

ghost use Rattle.std.specs.Prelude.{◌≡◌, true, ◌≤◌, ◌<◌, ◌+◌, ◌*◌, ◌/◌, ◌%◌, ◌^◌, nat_abs, SomeIff};
ghost use Rattle.packing.specs.Signed.{pack_signed, unpack_signed};
ghost use Rattle.packing.specs.Hybrid.{split, top_bit, valid_config, read_hybrid, is_split};

#[derive(Clone, Copy)]
pub struct HybridUintConfig {
    pub split_exponent: u32,
    pub msb_in_token: u32,
    pub lsb_in_token: u32,
}

#[derive(Clone, Copy)]
pub struct Split {
    pub symbol: u32,
    pub extra_bits: u32,
    pub bits: u32,
}

// The packed form of a level within ±32,768.
pub fn pack_signed(level: i32) -> u32
    requires { nat_abs level ≤ 32768 }
    ensures { result ≡ pack_signed level }
{
    if level < 0 {
        ((-1 - level) as u32) * 2 + 1
    } else {
        (level as u32) * 2
    }
}

// A power of two.
pub fn power(k: u32) -> u32
    requires { k < 32 }
    ensures { result ≡ 2 ^ k }
{
    1u32 << k
}

fn shifted_up(x: u32, k: u32) -> u32
    requires k_bound { k < 32 }
    requires k_bound_2 { x * 2 ^ k < 2 ^ 32 }
    ensures { result ≡ x * 2 ^ k }
{
    x << k
}

// The lowest k bits: `%` by a power of two compiles to a mask.
fn low_bits(x: u32, k: u32) -> u32
    requires { k < 32 }
    ensures { result ≡ x % 2 ^ k }
{
    x % power(k)
}

// The position of the top one bit.
pub fn top_bit(v: u32) -> u32
    requires { 0 < v }
    ensures { result ≡ top_bit v }
{
    31 - u32::leading_zeros(v)
}

// Whether a configuration passes check 4.
#[tactic(auto, unfolding(crate::specs::Hybrid::valid_config))]
pub fn valid_config(s: u8, m: u8, l: u8) -> bool
    ensures { result ≡ valid_config s m l }
{
    s <= 6 && u32::from(m) + u32::from(l) <= u32::from(s)
}

// The symbol of a value of at most 131,071, and its extra bits.
pub fn uint_encode_with_config(value: u32, config: HybridUintConfig) -> Split
    requires value_bound { value ≤ 131071 }
    requires lsb_in_token_value { valid_config config.split_exponent config.msb_in_token config.lsb_in_token ≡ true }
    ensures { result ≡ split config.split_exponent config.msb_in_token config.lsb_in_token value }
{
    let s = config.split_exponent;
    let m = config.msb_in_token;
    let l = config.lsb_in_token;
    if value < power(s) {
        return Split {
            symbol: value,
            extra_bits: 0,
            bits: 0,
        };
    }
    let n = top_bit(value);
    let extra_bits = n - m - l;
    let high = low_bits(value >> (n - m), m);
    let symbol = power(s) + shifted_up(n - s, m + l) + shifted_up(high, l) + low_bits(value, l);
    let bits = low_bits(value >> l, extra_bits);
    Split {
        symbol,
        extra_bits,
        bits,
    }
}

// The value that a symbol's high and low bits make with the extra bits between them.
fn joined(symbol: u32, bits: u32, m: u32, l: u32, extra_bits: u32) -> u32
    requires m_bound { (m < 32) × ((l < 32) × (extra_bits < 32)) }
    requires l_bound { ((symbol / 2 ^ l % 2 ^ m + 2 ^ m) * 2 ^ extra_bits + bits) * 2 ^ l + symbol % 2 ^ l ≤ 131071 }
    ensures { result ≡ ((symbol / 2 ^ l % 2 ^ m + 2 ^ m) * 2 ^ extra_bits + bits) * 2 ^ l + symbol % 2 ^ l }
{
    let high = low_bits(symbol >> l, m) + power(m);
    shifted_up(shifted_up(high, extra_bits) + bits, l) + low_bits(symbol, l)
}

// The value of a symbol with its extra bits, where they are the split of one.
#[tactic(auto, using(crate::proofs::Hybrid::valid))]
pub fn uint_read_with_config(symbol: u32, bits: u32, config: HybridUintConfig) -> u32
    requires lsb_in_token_value { valid_config config.split_exponent config.msb_in_token config.lsb_in_token ≡ true }
    requires bits_value { is_split config.split_exponent config.msb_in_token config.lsb_in_token symbol bits ≡ true }
    ensures { result ≡ read_hybrid config.split_exponent config.msb_in_token config.lsb_in_token symbol bits }
{
    let s = config.split_exponent;
    let m = config.msb_in_token;
    let l = config.lsb_in_token;
    let small = power(s);
    if symbol < small {
        return symbol;
    }
    let above = (symbol - small) >> (m + l);
    joined(symbol, bits, m, l, s - m - l + above)
}

// The value of a symbol with its extra bits; `None` where they split no value up to 131,071. The value's top bit is tested before anything is
// shifted: under 0,0,0 symbol 127 stands for 2^126.
#[tactic(auto, using(crate::proofs::Hybrid::valid))]
pub fn uint_decode_with_config(symbol: u32, bits: u32, config: HybridUintConfig) -> Option<u32>
    requires { valid_config config.split_exponent config.msb_in_token config.lsb_in_token ≡ true }
    ensures { SomeIff result
        (is_split config.split_exponent config.msb_in_token config.lsb_in_token symbol bits ≡ true)
        (read_hybrid config.split_exponent config.msb_in_token config.lsb_in_token symbol bits) }
{
    let s = config.split_exponent;
    let m = config.msb_in_token;
    let l = config.lsb_in_token;
    if symbol > 127 {
        return None;
    }
    let small = power(s);
    if symbol < small {
        return if bits == 0 { Some(symbol) } else { None };
    }
    let above = (symbol - small) >> (m + l);
    if s + above > 16 {
        return None;
    }
    let extra_bits = s - m - l + above;
    if bits >= power(extra_bits) {
        return None;
    }
    Some(joined(symbol, bits, m, l, extra_bits))
}

// The level of a packed value of at most 65,536.
pub fn unpack_signed(value: u32) -> i32
    requires { value ≤ 65536 }
    ensures { result ≡ unpack_signed value }
{
    let half = (value / 2) as i32;
    if value % 2 == 0 { half } else { -1 - half }
}
