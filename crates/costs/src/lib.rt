// Costs as floats: the one constant that the searches start from. The laws of costs are in proofs/.
#![tactic(auto)]

ghost use Rattle.std.specs.Prelude.{◌≡◌, false};
ghost use Rattle.std.specs.Float.{inf};

// +infinity: the cost of what is not allowed, and what every search of a least cost starts at. Its callers know it as infinity, and not by its bits.
pub fn infinity() -> f32
    ensures { result ≡ inf false }
{
    f32::INFINITY
}
