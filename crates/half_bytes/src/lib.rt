// Choices in half bytes.
#![tactic(auto)]

ghost use Rattle.std.specs.Prelude.{◌≡◌, ◌+◌, ◌*◌, ◌<◌, ◌≤◌, length, get_or, set};
ghost use Rattle.half_bytes.specs.Packed.{unpacked, wide, kept};

// Packs two choices into the k-th byte, the whole of it.
pub fn put_pair(choices: &mut [u8], k: usize, first: u8, second: u8)
    requires { k < length choices.old }
    ensures { unpacked choices.new ≡ set (set (unpacked choices.old) (2 * k) (kept first)) (2 * k + 1) (kept second) }
{
    choices[k] = first % 16 + 16 * (second % 16);
}

// The half of the k-th byte that is for `prev`.
pub fn half(choices: &[u8], k: usize, prev: usize) -> u8
    requires { (k < length choices.now) × (prev ≤ 1) }
    ensures { (wide result ≡ get_or (unpacked choices.now) (2 * k + prev) 0) × (result < 16) }
{
    if prev == 0 {
        choices[k] % 16
    } else {
        choices[k] / 16
    }
}
