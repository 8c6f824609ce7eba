// Runs the routine behind the ANS prices over all frequencies, against the table, and prints how many there are and how many differ.
#![tactic(auto)]

ghost use Rattle.std.specs.Prelude.{◌≤◌};

// Standard output.
const STDOUT_FILENO: i32 = 1;

// The bits of 12 - log2 of a frequency, 15.0 for 0.
fn routine(frequency: u16) -> u32
    requires { frequency ≤ 4096 }
{
    let d = f32::from(frequency);
    // no frequency is a NaN, nor is its price
    let price = if frequency == 0 || d.is_nan() {
        15.0
    } else {
        12.0 - ans_log::dirty_log2f(d)
    };
    if price.is_nan() {
        return 0;
    }
    price.to_bits()
}

fn differ(table: &[u32; 4097]) -> u32 {
    let mut n = 0;
    for f in 0..4097 {
        if routine(f) != table[usize::from(f)] {
            n += 1;
        }
    }
    n
}

fn main() {
    let table = ans::table::price_table();
    let n = differ(&table);
    io::print_decimal(STDOUT_FILENO, table.len() as u64);
    io::write_all(STDOUT_FILENO, b" frequencies, ");
    io::print_decimal(STDOUT_FILENO, u64::from(n));
    io::write_all(STDOUT_FILENO, b" differ\n");
}
