// Document 01's examples of a price book that are not starred, and more of its checks, through the public calls. Prints a line for each: what was asked, and
// the answer; where a book is filled first, a refusal of that shows in the answer too. Prices are printed as the eight hexadecimal digits of their bits.
// Then values priced through a view, see `views`.
#![tactic(auto)]

mod views;

ghost use Rattle.std.specs.Prelude.{◌≡◌, ◌≤◌, ◌<◌, length};

use book_calls::book::{check_book, fill_ready, prefix_symbol_bits, token_bits, token_bits_pair};
use prices::Pair;
use refusals::Refusal;

// Standard output.
pub(crate) const STDOUT_FILENO: i32 = 1;

// A map of every context to cluster 0. Only its length is told, which lending it needs.
fn zero_map() -> [u8; 14850]
    ensures { 14850 ≡ length result }
{
    [0; 14850]
}

fn say(text: &[u8], answer: u32) {
    io::write_all(STDOUT_FILENO, text);
    io::print_decimal(STDOUT_FILENO, u64::from(answer));
    io::write_all(STDOUT_FILENO, b"\n");
}

fn say_checked(text: &[u8], checked: Result<(), Refusal>) {
    say(text, refusals::code(checked));
}

fn print_bits(price: f32) {
    // A NaN has no bits of its own.
    if price.is_nan() {
        io::write_all(STDOUT_FILENO, b"NaN");
        return;
    }
    io::print_hex(STDOUT_FILENO, u64::from(price.to_bits()), 8);
}

fn say_price(text: &[u8], answer: Result<f32, Refusal>) {
    match answer {
        Ok(price) => {
            io::write_all(STDOUT_FILENO, text);
            print_bits(price);
            io::write_all(STDOUT_FILENO, b"\n");
        }
        Err(refusal) => say(text, refusal.number()),
    }
}

fn say_pair(text: &[u8], answer: Result<Pair, Refusal>) {
    match answer {
        Ok(pair) => {
            io::write_all(STDOUT_FILENO, text);
            print_bits(pair.first);
            io::write_all(STDOUT_FILENO, b" ");
            print_bits(pair.second);
            io::write_all(STDOUT_FILENO, b"\n");
        }
        Err(refusal) => say(text, refusal.number()),
    }
}

// Checks a book of one cluster whose ready prices were filled.
fn check_filled(map: &[u8], configs: &[u8], symbols: &[f32]) -> Result<(), Refusal> {
    let mut ready: [f32; 256] = [0.0; 256];
    fill_ready(1, map, configs, symbols, &mut ready)?;
    check_book(1, map, configs, symbols, &ready)
}

fn configuration(text: &[u8], map: &[u8], s: u8, m: u8, l: u8) {
    let configs = [s, m, l];
    let symbols: [f32; 128] = [1.0; 128];
    say_checked(text, check_filled(map, &configs, &symbols));
}

fn configurations(map: &[u8]) {
    configuration(b"4,2,1: ", map, 4, 2, 1);
    configuration(b"6,2,0: ", map, 6, 2, 0);
    configuration(b"5,2,2: ", map, 5, 2, 2);
    configuration(b"6,3,0: ", map, 6, 3, 0);
    configuration(b"6,3,3: ", map, 6, 3, 3);
    configuration(b"7,0,0: ", map, 7, 0, 0);
    configuration(b"2,2,1: ", map, 2, 2, 1);
}

// The last symbol has another price than the rest.
fn symbol_price(text: &[u8], map: &[u8], price: f32) {
    let configs: [u8; 3] = [4, 2, 0];
    let mut symbols: [f32; 128] = [1.0; 128];
    symbols[127] = price;
    say_checked(text, check_filled(map, &configs, &symbols));
}

fn infinity() -> f32 {
    f32::from_bits(0x7f80_0000)
}

fn symbol_prices(map: &[u8]) {
    symbol_price(b"symbol price NaN: ", map, infinity() - infinity());
    symbol_price(b"symbol price -1: ", map, -1.0);
    symbol_price(b"symbol price 1,025: ", map, 1025.0);
    symbol_price(b"symbol price 1,024: ", map, 1024.0);
    symbol_price(b"symbol price +infinity: ", map, infinity());
    symbol_price(b"symbol price -0.0: ", map, -0.0);
}

// Every symbol has one price, and one ready price is changed after filling.
fn ready_price(text: &[u8], map: &[u8], price: f32, at: usize, kept: f32)
    requires { at < 256 }
{
    let configs: [u8; 3] = [4, 2, 0];
    let symbols: [f32; 128] = [price; 128];
    let mut ready: [f32; 256] = [0.0; 256];
    let _ = fill_ready(1, map, &configs, &symbols, &mut ready);
    ready[at] = kept;
    say_checked(text, check_book(1, map, &configs, &symbols, &ready));
}

// At symbol price 1.0 value 0 costs 1.0 and value 255, with 5 extra bits, 6.0; the floats that follow these are one bit off.
fn ready_prices(map: &[u8]) {
    ready_price(b"ready price as due: ", map, 1.0, 255, 6.0);
    ready_price(
        b"ready price of 0 one bit off: ",
        map,
        1.0,
        0,
        f32::from_bits(0x3f80_0001),
    );
    ready_price(
        b"ready price of 255 one bit off: ",
        map,
        1.0,
        255,
        f32::from_bits(0x40c0_0001),
    );
    ready_price(b"ready price -0.0 for +0.0: ", map, 0.0, 0, -0.0);
    ready_price(
        b"ready price +0.0 of symbol price -0.0: ",
        map,
        -0.0,
        0,
        0.0,
    );
    ready_price(
        b"ready price -0.0 of symbol price -0.0: ",
        map,
        -0.0,
        0,
        -0.0,
    );
}

// Under 6,3,3 the value 128 has symbol 128, which has no price.
fn ready_without_a_word(text: &[u8], map: &[u8], kept: f32) {
    let configs: [u8; 3] = [6, 3, 3];
    let symbols: [f32; 128] = [1.0; 128];
    let mut ready: [f32; 256] = [0.0; 256];
    let _ = fill_ready(1, map, &configs, &symbols, &mut ready);
    ready[128] = kept;
    say_checked(text, check_book(1, map, &configs, &symbols, &ready));
}

fn ready_without_words(map: &[u8]) {
    ready_without_a_word(b"6,3,3, ready price of 128 +infinity: ", map, infinity());
    ready_without_a_word(b"6,3,3, ready price of 128 2: ", map, 2.0);
    ready_without_a_word(b"6,3,3, ready price of 128 15: ", map, 15.0);
}

fn lengths(
    map: &[u8],
    text: &[u8],
    clusters: u32,
    of_configs: usize,
    of_symbols: usize,
    of_ready: usize,
)
    requires { (of_configs ≤ 3) × ((of_symbols ≤ 128) × (of_ready ≤ 256)) }
{
    let configs: [u8; 3] = [4, 2, 0];
    let symbols: [f32; 128] = [1.0; 128];
    let ready: [f32; 256] = [1.0; 256];
    say_checked(
        text,
        check_book(
            clusters,
            map,
            &configs[..of_configs],
            &symbols[..of_symbols],
            &ready[..of_ready],
        ),
    );
}

fn all_lengths(map: &[u8]) {
    lengths(map, b"no cluster: ", 0, 0, 0, 0);
    lengths(map, b"257 clusters: ", 257, 3, 128, 256);
    lengths(map, b"2 bytes of configuration: ", 1, 2, 128, 256);
    lengths(map, b"127 symbol prices: ", 1, 3, 127, 256);
    lengths(map, b"255 ready prices: ", 1, 3, 128, 255);
    lengths(map, b"ready prices not filled: ", 1, 3, 128, 256);
}

// The ready prices of a book with one cluster, as they are filled, but that of 3 is wrong.
fn fill_but_one(map: &[u8], configs: &[u8], symbols: &[f32], ready: &mut [f32])
    requires { 256 ≡ length ready.old }
{
    let _ = fill_ready(1, map, configs, symbols, ready);
    ready[3] = 0.0;
}

fn price(text: &[u8], map: &[u8], symbols: &[f32], context: u32, value: u32) {
    let configs: [u8; 3] = [4, 2, 0];
    let mut ready: [f32; 256] = [0.0; 256];
    fill_but_one(map, &configs, symbols, &mut ready);
    say_price(
        text,
        token_bits(1, map, &configs, symbols, &ready, context, value),
    );
}

fn pair(text: &[u8], map: &[u8], symbols: &[f32], context: u32, value: u32) {
    let configs: [u8; 3] = [4, 2, 0];
    let mut ready: [f32; 256] = [0.0; 256];
    fill_but_one(map, &configs, symbols, &mut ready);
    say_pair(
        text,
        token_bits_pair(1, map, &configs, symbols, &ready, context, value),
    );
}

// Symbol 1 has depth 3, all others depth 0.
fn prefix_code(zero: &[u8], three: &[u8], map: &[u8], single: u8, strict: bool) {
    let mut depths: [u8; 128] = [0; 128];
    depths[1] = 3;
    let singles = [single];
    let mut symbols: [f32; 128] = [1.0; 128];
    let _ = prefix_symbol_bits(1, &depths, &singles, strict, &mut symbols);
    price(zero, map, &symbols, 0, 0);
    price(three, map, &symbols, 0, 1);
}

fn prefix_codes(map: &[u8]) {
    prefix_code(
        b"prefix code, depth 0: ",
        b"prefix code, depth 3: ",
        map,
        0,
        false,
    );
    prefix_code(
        b"strict prefix code, depth 0: ",
        b"strict prefix code, depth 3: ",
        map,
        0,
        true,
    );
    prefix_code(
        b"code of a single symbol, depth 0: ",
        b"code of a single symbol, depth 3: ",
        map,
        2,
        false,
    );
}

// Strict, two clusters: context 0 lies in one where symbol 1 alone has a word, context 1 in one where no symbol has.
fn untrained_cluster() {
    let mut map = zero_map();
    map[1] = 1;
    let configs: [u8; 6] = [4, 2, 0, 4, 2, 0];
    let mut depths: [u8; 256] = [0; 256];
    depths[1] = 3;
    let singles: [u8; 2] = [0, 1];
    let mut symbols: [f32; 256] = [1.0; 256];
    let mut ready: [f32; 512] = [0.0; 512];
    let _ = prefix_symbol_bits(2, &depths, &singles, true, &mut symbols);
    let _ = fill_ready(2, &map, &configs, &symbols, &mut ready);
    say_pair(
        b"strict, value 0 in a cluster with a word and in one without: ",
        token_bits_pair(2, &map, &configs, &symbols, &ready, 0, 0),
    );
    say_pair(
        b"strict, value 1 in a cluster with a word and in one without: ",
        token_bits_pair(2, &map, &configs, &symbols, &ready, 0, 1),
    );
}

// Every symbol price is 1.
fn price_and_pair(text: &[u8], map: &[u8], context: u32, value: u32) {
    let symbols: [f32; 128] = [1.0; 128];
    price(text, map, &symbols, context, value);
    pair(text, map, &symbols, context, value);
}

fn prices(map: &[u8]) {
    price_and_pair(b"price of 15: ", map, 0, 15);
    price_and_pair(b"price of 16: ", map, 0, 16);
    price_and_pair(b"price of 255: ", map, 0, 255);
    price_and_pair(b"price of 65,536: ", map, 0, 65536);
    price_and_pair(b"price of 131,072: ", map, 0, 131072);
    price_and_pair(b"price of 3, not kept: ", map, 0, 3);
    price_and_pair(b"price in the last context: ", map, 14849, 0);
    price_and_pair(b"price past the last context: ", map, 14850, 0);
}

// A value under a configuration, in the first of two clusters with symbol price 1: past symbol 127 there is no word, and not the next cluster's.
fn split_price(text: &[u8], map: &[u8], s: u8, m: u8, l: u8, value: u32) {
    let configs: [u8; 6] = [s, m, l, s, m, l];
    let symbols: [f32; 256] = [1.0; 256];
    let mut ready: [f32; 512] = [0.0; 512];
    let _ = fill_ready(2, map, &configs, &symbols, &mut ready);
    say_price(
        text,
        token_bits(2, map, &configs, &symbols, &ready, 0, value),
    );
}

fn split_prices(map: &[u8]) {
    split_price(b"5,2,2, price of 2,047: ", map, 5, 2, 2, 2047);
    split_price(b"5,2,2, price of 2,048: ", map, 5, 2, 2, 2048);
    split_price(b"6,3,0, price of 16,383: ", map, 6, 3, 0, 16383);
    split_price(b"6,3,0, price of 16,384: ", map, 6, 3, 0, 16384);
    split_price(b"6,3,3, price of 127: ", map, 6, 3, 3, 127);
    split_price(b"6,3,3, price of 128: ", map, 6, 3, 3, 128);
}

fn short_map(map: &[u8])
    requires { 14850 ≡ length map.now }
{
    let configs: [u8; 3] = [4, 2, 0];
    let symbols: [f32; 128] = [1.0; 128];
    say_checked(
        b"map of 14,849: ",
        check_filled(&map[..14849], &configs, &symbols),
    );
}

// The last context lies in a cluster that is not there.
fn map_entry(map: &mut [u8])
    requires { 14850 ≡ length map.old }
{
    let configs: [u8; 3] = [4, 2, 0];
    let symbols: [f32; 128] = [1.0; 128];
    map[14849] = 1;
    say_checked(b"map entry 1: ", check_filled(map, &configs, &symbols));
    lengths(map, b"map entry 1 and 127 symbol prices: ", 1, 3, 127, 256);
}

fn main() {
    let mut map = zero_map();
    configurations(&map);
    symbol_prices(&map);
    ready_prices(&map);
    ready_without_words(&map);
    all_lengths(&map);
    prefix_codes(&map);
    untrained_cluster();
    prices(&map);
    split_prices(&map);
    short_map(&map);
    map_entry(&mut map);
    views::price_through_a_view();
}
