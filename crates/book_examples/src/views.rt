// Values priced through a view and through plain slices. Prints what the view answers and whether the plain call answers the same: a refusal's number, or a
// price as the eight hexadecimal digits of its bits.
ghost use Rattle.std.specs.Prelude.{◌≡◌, length};

use crate::STDOUT_FILENO;
use book_calls::view::PriceView;
use book_calls::{book, view};
use prices::Pair;
use refusals::Refusal;

// A map of every context to cluster 0, but of context 1 to cluster 1. Only its length is told, which lending it needs.
fn two_clusters() -> [u8; 14850]
    ensures { 14850 ≡ length result }
{
    let mut map: [u8; 14850] = [0; 14850];
    map[1] = 1;
    map
}

fn say_equal(equal: bool) {
    if equal {
        io::write_all(STDOUT_FILENO, b" equal");
    } else {
        io::write_all(STDOUT_FILENO, b" differs");
    }
}

fn say_price(viewed: f32, plain: f32) {
    // A NaN has no bits of its own.
    if viewed.is_nan() || plain.is_nan() {
        io::write_all(STDOUT_FILENO, b" NaN");
        return;
    }
    let one = viewed.to_bits();
    let two = plain.to_bits();
    io::write_all(STDOUT_FILENO, b" ");
    io::print_hex(STDOUT_FILENO, u64::from(one), 8);
    say_equal(one == two);
}

fn say_refusal(viewed: Refusal, plain: Refusal) {
    io::write_all(STDOUT_FILENO, b" ");
    io::print_decimal(STDOUT_FILENO, u64::from(viewed.number()));
    say_equal(viewed == plain);
}

fn say_one(viewed: Result<f32, Refusal>, plain: Result<f32, Refusal>) {
    match (viewed, plain) {
        (Ok(one), Ok(two)) => say_price(one, two),
        (Err(one), Err(two)) => say_refusal(one, two),
        _ => say_equal(false),
    }
}

fn say_two(viewed: Result<Pair, Refusal>, plain: Result<Pair, Refusal>) {
    match (viewed, plain) {
        (Ok(one), Ok(two)) => {
            say_price(one.first, two.first);
            say_price(one.second, two.second);
        }
        (Err(one), Err(two)) => say_refusal(one, two),
        _ => say_equal(false),
    }
}

// The parts of a book by a view and by themselves.
fn compare(text: &[u8], parts: &PriceView, context: u32, value: u32) {
    let PriceView {
        clusters,
        map,
        configs,
        symbols,
        ready,
    } = *parts;
    io::write_all(STDOUT_FILENO, text);
    say_one(
        view::token_bits_by_view(clusters, map, configs, symbols, ready, context, value),
        book::token_bits(clusters, map, configs, symbols, ready, context, value),
    );
    io::write_all(STDOUT_FILENO, b"; with the next context:");
    say_two(
        view::token_bits_pair_by_view(clusters, map, configs, symbols, ready, context, value),
        book::token_bits_pair(clusters, map, configs, symbols, ready, context, value),
    );
    io::write_all(STDOUT_FILENO, b"\n");
}

fn comparisons(parts: &PriceView) {
    compare(b"16 in context 0:", parts, 0, 16);
    compare(b"255 in context 0:", parts, 0, 255);
    compare(b"65,536 in context 0:", parts, 0, 65536);
    compare(b"255 in context 1:", parts, 1, 255);
    compare(b"131,072 in context 0:", parts, 0, 131072);
    compare(b"3 in context 0, not kept:", parts, 0, 3);
    compare(b"0 in the last context:", parts, 14849, 0);
    compare(b"0 past the last context:", parts, 14850, 0);
    let exchanged = PriceView {
        configs: parts.map,
        ..*parts
    };
    compare(b"16 with a map for configurations:", &exchanged, 0, 16);
}

// Two clusters of configurations 4,2,0 and 6,2,0. Symbol prices are 1, but 2 in cluster 1 for the symbols of 16 and of 255, which are 16 and 71. One ready price
// of cluster 0 is wrong.
pub fn price_through_a_view() {
    let map = two_clusters();
    let configs: [u8; 6] = [4, 2, 0, 6, 2, 0];
    let mut symbols: [f32; 256] = [1.0; 256];
    symbols[144] = 2.0;
    symbols[199] = 2.0;
    let mut ready: [f32; 512] = [0.0; 512];
    let _ = book::fill_ready(2, &map, &configs, &symbols, &mut ready);
    ready[3] = 0.0;
    comparisons(&view::new(2, &map, &configs, &symbols, &ready));
}
