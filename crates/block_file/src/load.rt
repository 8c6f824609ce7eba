// A record's lists, copied to where the searches take them from.
ghost use Rattle.std.specs.Prelude.{◌≡◌, ◌+◌, ◌*◌, ◌≤◌, ◌++◌, ℕ, List, drop, length};
ghost use Rattle.block_file.specs.Word.{word_at, float_at, level_at, bytes_from, entries_from};

use crate::{fields, record};

// An entry of a list, which takes four bytes.
pub trait Entry {
    // What the bytes from a place on hold.
    ghost held: { List ℕ → ℕ → Self };

    fn entry_at(bytes: &[u8], at: usize) -> Self
        requires { at + 4 ≤ length bytes.now }
        ensures { result ≡ held bytes.now at };
}

impl Entry for u32 {
    ghost held = { word_at };

    fn entry_at(bytes: &[u8], at: usize) -> u32 {
        fields::word_at(bytes, at)
    }
}

impl Entry for f32 {
    ghost held = { float_at };

    fn entry_at(bytes: &[u8], at: usize) -> f32 {
        fields::float_at(bytes, at)
    }
}

impl Entry for i32 {
    ghost held = { level_at };

    fn entry_at(bytes: &[u8], at: usize) -> i32 {
        fields::level_at(bytes, at)
    }
}

// Copies a list of bytes to the front of `out`.
pub fn take_bytes(bytes: &[u8], list: record::List, out: &mut [u8])
    requires { (list.start + list.count ≤ length bytes.now) × (list.count ≤ length out.old) }
    ensures { out.new ≡ bytes_from bytes.now list.start list.count ++ drop list.count out.old }
{
    out[..list.count].copy_from_slice(&bytes[list.start..list.start + list.count]);
}

// Copies a list of numbers, floats or levels to the front of `out`.
pub fn take_list<T: Entry + Copy>(bytes: &[u8], list: record::List, out: &mut [T])
    requires { (list.start + 4 * list.count ≤ length bytes.now) × (list.count ≤ length out.old) }
    ensures { out.new ≡ entries_from T.held bytes.now list.start list.count ++ drop list.count out.old }
{
    for i in 0..list.count {
        out[i] = T::entry_at(bytes, list.start + 4 * i);
    }
}
