// A line of the sheet: four columns, printed again with the context as a fifth.
ghost use Rattle.std.specs.Prelude.{◌≡◌, ◌+◌, ◌<◌, ◌≤◌, true, false, length, get_or};
ghost use Rattle.sheet.specs.Line.{is_line, context_of, fifth, printed, printed_line, laid, minus_column};

use crate::column;
use refusals::Refusal;

const OUTSIDE: [u8; 6] = [b' ', b' ', b' ', b' ', b'-', b'1'];

const OTHER_FORM: [u8; 7] = [b' ', b' ', b' ', b' ', b'-', b'2', b'\n'];

#[tactic(auto, unfolding(crate::specs::Line::is_line))]
fn is_line(line: &[u8]) -> bool
    ensures { result ≡ is_line line.now }
{
    line.len() == 24
        && column::is_column(line, 0)
        && column::is_column(line, 6)
        && column::is_column(line, 12)
        && column::is_column(line, 18)
}

#[tactic(auto, unfolding(crate::specs::Line::context_of))]
fn context_of(line: &[u8]) -> Result<u32, Refusal>
    requires { length line.now ≡ 24 }
    ensures { result ≡ context_of line.now }
{
    let covered_blocks = column::column_value(line, 0);
    let remaining = column::column_value(line, 6);
    let k = column::column_value(line, 12);
    let prev = column::column_value(line, 18);
    token_calls::contexts::zero_density_context(remaining, k, covered_blocks, prev)
}

fn fifth_char(context: Result<u32, Refusal>, i: usize) -> u8
    requires { i < 6 }
    ensures { result ≡ get_or (fifth context) i 0 }
{
    match context {
        Ok(n) => column::column_char(n, i),
        Err(_) => OUTSIDE[i],
    }
}

// The byte at i of what is printed for a line of four columns.
fn line_char(line: &[u8], context: Result<u32, Refusal>, i: usize) -> u8
    requires { (length line.now ≡ 24) × ((i < 31) × (context ≡ context_of line.now)) }
    ensures { result ≡ get_or (printed_line true line.now) i 0 }
{
    if i < 24 {
        line[i]
    } else if i < 30 {
        fifth_char(context, i - 24)
    } else {
        b'\n'
    }
}

fn print_columns(line: &[u8], context: Result<u32, Refusal>, out: &mut [u8], at: usize)
    requires { (length line.now ≡ 24) × ((context ≡ context_of line.now) × (at + 31 ≤ length out.old)) }
    ensures { out.new ≡ laid (printed_line true line.now) at 31 out.old }
{
    for i in 0..31 {
        out[at + i] = line_char(line, context, i);
    }
}

fn print_other_form(line: &[u8], out: &mut [u8], at: usize)
    requires { at + 31 ≤ length out.old }
    ensures { out.new ≡ laid (printed_line false line.now) at 7 out.old }
{
    for (i, &char) in OTHER_FORM.iter().enumerate() {
        out[at + i] = char;
    }
}

// Writes what is printed for a line, given without its newline, into `out` from `at` on; answers how many bytes that is.
pub fn print_line(line: &[u8], out: &mut [u8], at: usize) -> usize
    requires { at + 31 ≤ length out.old }
    ensures { (result ≡ length (printed line.now)) × ((out.new ≡ laid (printed line.now) at result out.old) × (result ≤ 31)) }
{
    if is_line(line) {
        print_columns(line, context_of(line), out, at);
        31
    } else {
        print_other_form(line, out, at);
        7
    }
}
