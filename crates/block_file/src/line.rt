// The lines that are printed for a block, each piece put into a buffer.
ghost use Rattle.std.specs.Prelude.{◌≡◌, ◌+◌, ◌≤◌, length, nat_abs};

use block::{Answer, Picked};

// Puts `text` at `at`; answers where the next byte goes.
fn put(out: &mut [u8], at: usize, text: &[u8]) -> usize
    requires { at + length text.now ≤ length out.old }
    ensures { result ≡ at + length text.now }
{
    let end = at + text.len();
    out[at..end].copy_from_slice(text);
    end
}

fn put_decimal(out: &mut [u8], at: usize, number: u64) -> usize
    requires { at + 20 ≤ length out.old }
    ensures { result ≤ at + 20 }
{
    let mut digits = [0u8; 20];
    let n = io::decimal(number, &mut digits);
    put(out, at, &digits[..n])
}

// The bits of a cost. No cost is a NaN, which has none of its own.
fn bits_of(cost: f32) -> u32 {
    if cost.is_nan() {
        return 0x7fc0_0000;
    }
    f32::to_bits(cost)
}

// The eight hexadecimal digits of a cost's bits.
fn put_bits(out: &mut [u8], at: usize, cost: f32) -> usize
    requires { at + 16 ≤ length out.old }
    ensures { result ≤ at + 16 }
{
    let mut digits = [0u8; 16];
    let n = io::hex(u64::from(bits_of(cost)), 8, &mut digits);
    put(out, at, &digits[..n])
}

// What a search answered, in words.
fn put_answer(out: &mut [u8], at: usize, answer: Answer) -> usize
    requires { at + 48 ≤ length out.old }
    ensures { result ≤ at + 48 }
{
    match answer {
        Ok(
            Picked {
                cost: Some(cost),
                count,
            },
        ) => {
            let after_word = put(out, at, b"cost ");
            let after_cost = put_bits(out, after_word, cost);
            let after_name = put(out, after_cost, b" count ");
            put_decimal(out, after_name, u64::from(count))
        }
        Ok(Picked { cost: None, count }) => {
            let after_name = put(out, at, b"count ");
            put_decimal(out, after_name, u64::from(count))
        }
        Err(refusal) => {
            let after_name = put(out, at, b"refused ");
            put_decimal(out, after_name, u64::from(refusal.number()))
        }
    }
}

// The start of a line: the block's number, the search by its name and what it answered.
pub fn put_head(out: &mut [u8], at: usize, number: u64, name: &[u8], answer: Answer) -> usize
    requires { (at + 80 ≤ length out.old) × (length name.now ≤ 12) }
    ensures { result ≤ at + 80 }
{
    let after_number = put_decimal(out, at, number);
    let after_name = put(out, after_number, name);
    put_answer(out, after_name, answer)
}

fn magnitude(level: i32) -> u64
    ensures { result ≡ nat_abs level }
{
    u64::from(level.unsigned_abs())
}

fn put_level(out: &mut [u8], at: usize, level: i32) -> usize
    requires { at + 21 ≤ length out.old }
    ensures { result ≤ at + 21 }
{
    if level < 0 {
        let after_sign = put(out, at, b"-");
        return put_decimal(out, after_sign, magnitude(level));
    }
    put_decimal(out, at, magnitude(level))
}

// A level that changed, with its index.
pub fn put_change(out: &mut [u8], at: usize, index: usize, level: i32) -> usize
    requires { at + 80 ≤ length out.old }
    ensures { result ≤ at + 80 }
{
    let after_blank = put(out, at, b" ");
    let after_index = put_decimal(out, after_blank, index as u64);
    let after_colon = put(out, after_index, b":");
    put_level(out, after_colon, level)
}
