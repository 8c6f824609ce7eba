// The dequantisation bias: what a decoder makes of a quantised level.
#![tactic(auto)]

ghost use Rattle.std.specs.Prelude.{◌≡◌, T};
ghost use Rattle.bias.specs.Level.{biased, is_level, valid_bias};

// One channel's bias: the size of a level of ±1, and the numerator of the correction of larger ones.
#[derive(Clone, Copy)]
pub struct DequantBias {
    pub one: f32,
    pub numerator: f32,
}

// A level from -32,768 to 32,768.
pub fn is_level(quant: i32) -> bool
    ensures { result ≡ is_level quant }
{
    -32768 <= quant && quant <= 32768
}

impl DequantBias {
    // The value that a decoder restores from the level.
    pub fn level(self, quant: i32) -> f32
        requires { T (is_level quant) }
        ensures { result ≡ biased self quant }
    {
        // no `match`: an arm of a signed number gives the proof no fact
        if quant == 0 {
            0.0
        } else if quant == 1 {
            self.one
        } else if quant == -1 {
            -self.one
        } else {
            let q = quant as f32;
            q - self.numerator / q
        }
    }

    // Check 10 of this record.
    pub fn valid(self) -> bool
        ensures { result ≡ valid_bias self }
    {
        0.0 <= self.one && self.one <= 2.0 && self.numerator == 0.145
    }
}
