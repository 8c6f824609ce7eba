// The context sheet: reads lines of four columns from standard input and prints each with its context.
#![tactic(auto)]

ghost use Rattle.std.specs.Prelude.{◌≡◌, ◌+◌, ◌≤◌, length};

// Standard input and output.
const STDIN_FILENO: i32 = 0;

const STDOUT_FILENO: i32 = 1;

// Of a line longer than 24 bytes only 25 are kept: it is of another form, whatever they are.
fn keep(line: &mut [u8], n: usize, byte: u8) -> usize
    requires line_len { 25 ≤ length line.old }
    requires within { n ≤ 25 }
    ensures { result ≤ 25 }
{
    if n < 25 {
        line[n] = byte;
        n + 1
    } else {
        n
    }
}

// Where the next line is written: behind the others, or at the start once those are out.
fn make_room(out: &[u8], used: usize) -> usize
    requires { (31 ≤ length out.now) × (used ≤ length out.now) }
    ensures { result + 31 ≤ length out.now }
{
    if out.len() - used < 31 {
        io::write_all(STDOUT_FILENO, &out[..used]);
        0
    } else {
        used
    }
}

// Prints the line into `out`; answers how much of `out` is used then.
fn end_line(line: &[u8], n: usize, out: &mut [u8], used: usize) -> usize
    requires { (n ≤ length line.now) × ((31 ≤ length out.old) × (used ≤ length out.old)) }
    ensures { result ≤ length out.old }
{
    let at = make_room(out, used);
    let printed = sheet::line::print_line(&line[..n], out, at);
    at + printed
}

#[derive(Clone, Copy)]
struct State {
    n: usize,
    used: usize,
}

fn take_byte(byte: u8, line: &mut [u8], out: &mut [u8], state: State) -> State
    requires { (25 ≤ length line.old) × ((31 ≤ length out.old) × ((state.n ≤ 25) × (state.used ≤ length out.old))) }
    ensures { (result.n ≤ 25) × (result.used ≤ length out.old) }
{
    let State { n, used } = state;
    if byte == b'\n' {
        State {
            n: 0,
            used: end_line(line, n, out, used),
        }
    } else {
        State {
            n: keep(line, n, byte),
            used,
        }
    }
}

// Takes the bytes of a piece, one after the other, and writes what they complete; answers the length of the line that is still open.
fn take_piece(piece: &[u8], line: &mut [u8], out: &mut [u8], held: usize) -> usize
    requires { (25 ≤ length line.old) × ((31 ≤ length out.old) × (held ≤ 25)) }
    ensures { result ≤ 25 }
{
    let mut state = State { n: held, used: 0 };
    for &byte in piece {
        state = take_byte(byte, line, out, state);
    }
    io::write_all(STDOUT_FILENO, &out[..state.used]);
    state.n
}

fn main() {
    let mut piece = io::large_buffer();
    let mut out = io::large_buffer();
    let mut line = [0u8; 25];
    let mut held: usize = 0;
    // A proved loop has to end, and nothing says that a file does: no run uses this number up.
    for _ in 0..u64::MAX {
        let n = io::read_full(STDIN_FILENO, &mut piece);
        if n == 0 {
            break;
        }
        held = take_piece(&piece[..n], &mut line, &mut out, held);
    }
    if held > 0 {
        let used = end_line(&line, held, &mut out, 0);
        io::write_all(STDOUT_FILENO, &out[..used]);
    }
}
