// Lines, gathered and written when the buffer is full.
#![tactic(auto)]

ghost use Rattle.std.specs.Prelude.{◌≡◌, ◌+◌, ◌≤◌, length};

use block::Answer;
use block_file::line;

// The standard output.
const STDOUT_FILENO: i32 = 1;

// The length of the buffer, which `io::large_buffer` is.
pub const OUT: usize = 65536;

// Writes the bytes of `out` that are used.
pub fn write_used(out: &[u8], used: usize)
    requires { used ≤ length out.now }
{
    io::write_all(STDOUT_FILENO, &out[..used]);
}

// Where the next 80 bytes may go: behind the others, or at the start once those are out.
fn make_room(out: &[u8; OUT], used: usize) -> usize
    requires { used ≤ 65536 }
    ensures { result + 80 ≤ 65536 }
{
    if OUT - used < 80 {
        write_used(out, used);
        return 0;
    }
    used
}

// Prints a level with its index where it is not the one before; answers how much of `out` is used then.
fn print_change(out: &mut [u8; OUT], used: usize, index: usize, before: i32, after: i32) -> usize
    requires { used ≤ 65536 }
    ensures { result ≤ 65536 }
{
    if before == after {
        return used;
    }
    let at = make_room(out, used);
    line::put_change(out, at, index, after)
}

// Prints the line of one search.
pub fn print_line(
    out: &mut [u8; OUT],
    used: usize,
    number: u64,
    name: &[u8],
    answer: Answer,
    before: &[i32],
    after: &[i32],
) -> usize
    requires used_bound { used ≤ 65536 }
    requires name_len_bound { (length name.now ≤ 12) × (length before.now ≤ length after.now) }
    ensures { result ≤ 65536 }
{
    let at = make_room(out, used);
    let mut end = line::put_head(out, at, number, name, answer);
    for (index, &level) in before.iter().enumerate() {
        end = print_change(out, end, index, level, after[index]);
    }
    let last = make_room(out, end);
    out[last] = 10;
    last + 1
}

pub fn say_unreadable(at: u64) {
    io::write_all(STDOUT_FILENO, b"unreadable record at byte ");
    io::print_decimal(STDOUT_FILENO, at);
    io::write_all(STDOUT_FILENO, b"\n");
}
