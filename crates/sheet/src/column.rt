// Columns of six characters: a decimal number, right-justified.
ghost use Rattle.std.specs.Prelude.{◌≡◌, ◌+◌, ◌%◌, ◌<◌, ◌≤◌, length, get_or};
ghost use Rattle.sheet.specs.Column.{places, digit_zero, column_char, digit_of, column_value, is_column};

const PLACES: [u32; 6] = [100000, 10000, 1000, 100, 10, 1];

fn place(i: usize) -> u32
    requires { i < 6 }
    ensures { (result ≡ get_or places i 0) × (0 < result) }
{
    PLACES[i]
}

fn last_digit(n: u32) -> u8
    ensures { result ≡ digit_zero + n % 10 }
{
    b'0' + (n % 10) as u8
}

pub(crate) fn column_char(n: u32, i: usize) -> u8
    requires { i < 6 }
    ensures { result ≡ column_char n i }
{
    let high = n / place(i);
    if i >= 5 {
        return last_digit(high);
    }
    if high == 0 {
        return b' ';
    }
    last_digit(high)
}

#[tactic(auto, unfolding(crate::specs::Column::digit_of))]
fn digit(char: u8) -> u32
    ensures { (result ≡ digit_of char) × (result < 10) }
{
    if char.is_ascii_digit() {
        u32::from(char - b'0')
    } else {
        0
    }
}

pub(crate) fn column_value(line: &[u8], at: usize) -> u32
    requires { at + 6 ≤ length line.now }
    ensures { (result ≡ column_value line.now at) × (result < 1000000) }
{
    digit(line[at]) * 100000
        + digit(line[at + 1]) * 10000
        + digit(line[at + 2]) * 1000
        + digit(line[at + 3]) * 100
        + digit(line[at + 4]) * 10
        + digit(line[at + 5])
}

pub(crate) fn is_column(line: &[u8], at: usize) -> bool
    requires { at + 6 ≤ length line.now }
    ensures { result ≡ is_column line.now at }
{
    let n = column_value(line, at);
    for i in 0..6 {
        if line[at + i] != column_char(n, i) {
            return false;
        }
    }
    true
}
