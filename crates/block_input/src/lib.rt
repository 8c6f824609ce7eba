// The bytes of standard input, record by record.
#![tactic(auto)]

ghost use Rattle.std.specs.Prelude.{◌≡◌, ◌+◌, ◌-◌, ◌≤◌, length};
ghost use Rattle.block_input.specs.Held.{HeldIn};

use block_file::record::{self, Flaw, Record};

// The standard input.
const STDIN_FILENO: i32 = 0;

// More than the longest record takes, 1,049,669 bytes.
pub const INPUT: usize = 1114112;

pub fn input_room() -> [u8; INPUT] {
    [0; INPUT]
}

// What is held of the input: the bytes from `start` to `end`. They begin with this record, or with none; `passed` bytes of the input came before them.
#[derive(Clone, Copy)]
pub struct Held {
    pub found: Result<Record, Flaw>,
    pub start: usize,
    pub end: usize,
    pub passed: u64,
}

// Copies `kept` bytes from `start` on to the front.
fn move_down(input: &mut [u8], start: usize, kept: usize)
    requires { start + kept ≤ length input.old }
{
    input.copy_within(start..start + kept, 0);
}

// Reads more bytes behind those that are held; answers how many.
fn read_more(input: &mut [u8], end: usize) -> usize
    requires { end ≤ length input.old }
    ensures { end + result ≤ length input.old }
{
    let behind = &mut input[end..];
    io::read_full(STDIN_FILENO, behind)
}

// What the bytes from `start` to `end` begin with.
fn held_from(input: &[u8], start: usize, end: usize, passed: u64) -> Held
    requires { (start ≤ end) × ((end ≤ 1114112) × (1114112 ≤ length input.now)) }
    ensures { HeldIn result }
{
    Held {
        found: record::record_of(&input[start..end]),
        start,
        end,
        passed,
    }
}

// The input has ended: nothing is left, or a record that is cut short.
fn ended(kept: usize, passed: u64) -> Held
    ensures { HeldIn result }
{
    let flaw = if kept == 0 {
        Flaw::Short
    } else {
        Flaw::Unreadable
    };
    Held {
        found: Err(flaw),
        start: 0,
        end: 0,
        passed,
    }
}

// Before the first record.
pub fn nothing_yet() -> Held
    ensures { HeldIn result }
{
    ended(0, 0)
}

// Reads on behind the bytes from `start` to `end`, which are a record cut short.
fn read_on(input: &mut [u8; INPUT], start: usize, end: usize, passed: u64) -> Held
    requires { (start ≤ end) × (end ≤ 1114112) }
    ensures { HeldIn result }
{
    let kept = end - start;
    move_down(input, start, kept);
    let more = read_more(input, kept);
    if more == 0 {
        return ended(kept, passed);
    }
    held_from(input, 0, kept + more, passed)
}

// The length of the record that is held, 0 where none is.
fn taken(held: Held) -> usize
    requires { HeldIn held }
    ensures { held.start + result ≤ held.end }
{
    match held.found {
        Ok(record) => record.length(),
        Err(_) => 0,
    }
}

// The record after the one that is held, once it is whole. Flaw::Short says that the input ended before it.
pub fn next_record(input: &mut [u8; INPUT], before: Held) -> Held
    requires { HeldIn before }
    ensures { HeldIn result }
{
    let length = taken(before);
    let passed = before.passed.wrapping_add(length as u64);
    let mut held = held_from(input, before.start + length, before.end, passed);
    // Every turn reads a byte or more, so that there are no more turns than the buffer has bytes.
    for _ in 0..INPUT {
        if !matches!(held.found, Err(Flaw::Short)) {
            break;
        }
        held = read_on(input, held.start, held.end, passed);
        if held.end == 0 {
            break;
        }
    }
    held
}

// The bytes that are held, which begin with the record.
pub fn held_bytes(input: &[u8; INPUT], held: Held) -> &[u8]
    requires { HeldIn held }
    ensures { length result.now ≡ held.end - held.start }
{
    &input[held.start..held.end]
}
