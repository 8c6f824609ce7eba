// A logarithm to base 2 from a float's bits, as the Rust's dirty_log2f: its own text is absent, so that the series was chosen (docs/DIFFERENCES.md).
// Additions on the bits wrap; each step of f32 is rounded once, none is fused.
#![tactic(auto)]

ghost use Rattle.std.specs.Prelude.{◌≡◌, not, T, is_nan};
ghost use Rattle.ans_log.specs.Log.{dirty_log2};

pub fn dirty_log2f(d: f32) -> f32
    requires { T (not (is_nan d)) }
    ensures { result ≡ dirty_log2 d }
{
    let i = d.to_bits().wrapping_add(0x3f80_0000 - 0x3f35_04f3);
    let n = (i / 0x80_0000) as f32 - 127.0;
    let a = f32::from_bits((i % 0x80_0000).wrapping_add(0x3f35_04f3));
    let x = (a - 1.0) / (a + 1.0);
    let y = x * x;
    let p = 0.41219857 * y + 0.57707804;
    let q = p * y + 0.9617967;
    y * x * q + (x * 2.88539 + n)
}
