// Reads a block file on standard input. For each block prints a line for each search: what it answers and which levels it changes.
// A record that is cut short, has an unknown tag or asks for more than the program holds (see `block_file::record`) ends the run with a line that names its
// first byte. A byte other than 0 says the high quant class.
#![tactic(auto)]

ghost use Rattle.std.specs.Prelude.{◌≤◌, length};
ghost use Rattle.block_file.specs.Within.{RecordInside};
ghost use Rattle.level_search.specs.State.{Sound};

use block_file::record::{CHOICES, CONFIGS, Flaw, LEVELS, MAP, READY, ROW, Record, SYMBOLS};
use block_input::Held;
use block_lists::{BookLengths, Lists};
use block_search::Line;
use search_lines::OUT;
use weights::HALF_WIDTH;

// Where the program stands: the latest book and half-width, and where the next line goes.
#[derive(Clone, Copy)]
struct State {
    book: BookLengths,
    half_width: u32,
    line: Line,
}

fn beginning() -> State
    ensures { Sound result }
{
    State {
        book: block_lists::no_book(),
        half_width: HALF_WIDTH,
        line: Line { number: 0, used: 0 },
    }
}

// Takes a record: a book or a half-width stays until the next one, a block is searched.
fn take_record(
    found: Record,
    bytes: &[u8],
    lists: &mut Lists,
    out: &mut [u8; OUT],
    state: State,
) -> State
    requires sound { Sound state }
    requires within { RecordInside found (length bytes.now) }
    ensures { Sound result }
{
    match found {
        Record::Book(book) => State {
            book: block_lists::copy_book(bytes, book, lists),
            ..state
        },
        Record::Width(half_width) => State {
            half_width,
            ..state
        },
        Record::Block(block) => State {
            line: Line {
                number: state.line.number.wrapping_add(1),
                used: block_search::search_block(
                    bytes,
                    block,
                    state.book,
                    state.half_width,
                    lists,
                    out,
                    state.line,
                ),
            },
            ..state
        },
    }
}

// After the last record: writes what is left, and where a record is unreadable says so.
fn finish(out: &[u8; OUT], used: usize, held: Held)
    requires { used ≤ 65536 }
{
    search_lines::write_used(out, used);
    if matches!(held.found, Err(Flaw::Unreadable)) {
        search_lines::say_unreadable(held.passed);
    }
}

fn main() {
    let mut input = block_input::input_room();
    let mut out = io::large_buffer();
    // Made here: handed back by a call they would lie on the stack twice where the program is built without a proof, which is more than there is.
    let mut lists = Lists {
        map: [0; MAP],
        configs: [0; CONFIGS],
        symbols: [0.0; SYMBOLS],
        ready: [0.0; READY],
        levels: [0; LEVELS],
        scan: [0; LEVELS],
        source: [0.0; LEVELS],
        inv_qm: [0.0; LEVELS],
        work: [0; LEVELS],
        choices: [0; CHOICES],
        row_a: [0.0; ROW],
        row_b: [0.0; ROW],
    };
    let mut state = beginning();
    let mut held = block_input::next_record(&mut input, block_input::nothing_yet());
    // A proved loop has to end, and nothing says that a file does: no run uses this number up.
    for _ in 0..u64::MAX {
        let Ok(found) = held.found else {
            break;
        };
        let bytes = block_input::held_bytes(&input, held);
        state = take_record(found, bytes, &mut lists, &mut out, state);
        held = block_input::next_record(&mut input, held);
    }
    finish(&out, state.line.used, held);
}
