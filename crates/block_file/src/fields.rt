// Single numbers of a record.
ghost use Rattle.std.specs.Prelude.{◌≡◌, ◌+◌, ◌<◌, ◌≤◌, length, get_or};
ghost use Rattle.std.specs.Float.Ieee.{of_bits};
ghost use Rattle.std.specs.Float.{binary32};
ghost use Rattle.std.proofs.Common.{to_z};
ghost use Rattle.std.specs.Int.{w32};
ghost use Rattle.block_file.specs.Word.{word_at};

use bias::DequantBias;
use block::Shape;
use weights::Settings;

// The number that the four bytes from `at` on hold, the lowest byte first.
#[tactic(auto, unfolding(crate::specs::Word::word_at))]
pub fn word_at(bytes: &[u8], at: usize) -> u32
    requires { at + 4 ≤ length bytes.now }
    ensures { result ≡ word_at bytes.now at }
{
    u32::from_le_bytes([bytes[at], bytes[at + 1], bytes[at + 2], bytes[at + 3]])
}

// The float of these bits. Rattle knows one NaN and gives it no bits, so that every pattern of a NaN is read as that one.
fn float_of(bits: u32) -> f32
    ensures { result ≡ of_bits binary32 bits }
{
    if bits % 0x8000_0000 > 0x7f80_0000 {
        let infinity = f32::from_bits(0x7f80_0000);
        return infinity - infinity;
    }
    f32::from_bits(bits)
}

pub fn float_at(bytes: &[u8], at: usize) -> f32
    requires { at + 4 ≤ length bytes.now }
    ensures { result ≡ of_bits binary32 (word_at bytes.now at) }
{
    float_of(word_at(bytes, at))
}

// The level of these bits: two's complement.
fn level_of(bits: u32) -> i32
    ensures { result ≡ to_z w32 bits }
{
    bits.cast_signed()
}

pub fn level_at(bytes: &[u8], at: usize) -> i32
    requires { at + 4 ≤ length bytes.now }
    ensures { result ≡ to_z w32 (word_at bytes.now at) }
{
    level_of(word_at(bytes, at))
}

// What a block's record holds before its rooms and lists.
#[derive(Clone, Copy)]
pub struct Head {
    pub shape: Shape,
    pub settings: Settings,
    pub bias: DequantBias,
    pub scale: f32,
}

// The length of that part, with its tag and the lengths of the three rooms.
pub const HEAD: usize = 53;

fn shape_at(bytes: &[u8]) -> Shape
    requires { 53 ≤ length bytes.now }
{
    Shape {
        cx: word_at(bytes, 1),
        cy: word_at(bytes, 5),
        strategy: bytes[9],
        channel: bytes[10],
        qf_hi: bytes[11] != 0,
        predicted: bytes[12],
    }
}

fn settings_at(bytes: &[u8]) -> Settings
    requires { 53 ≤ length bytes.now }
{
    Settings {
        channel_weight: float_at(bytes, 13),
        lambda: float_at(bytes, 17),
        penalty: float_at(bytes, 21),
        distance: float_at(bytes, 25),
    }
}

pub fn head_at(bytes: &[u8]) -> Head
    requires { 53 ≤ length bytes.now }
{
    Head {
        shape: shape_at(bytes),
        settings: settings_at(bytes),
        bias: DequantBias {
            one: float_at(bytes, 29),
            numerator: float_at(bytes, 33),
        },
        scale: float_at(bytes, 37),
    }
}
