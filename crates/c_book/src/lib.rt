// The price book, for programs in C and in other languages that call C. `include/rdoq.h` declares its calls.
#![tactic(auto)]

ghost use Rattle.std.specs.Prelude.{◌≡◌};
ghost use Rattle.prices.specs.Book.{book_of};
ghost use Rattle.prices.specs.Checks.{book_refusal, fill_refusal};
ghost use Rattle.book_build.specs.Fill.{filled_ready};
ghost use Rattle.book_build.specs.Prefix.{prefix_of, prefix_refusal, prefix_symbols};
ghost use Rattle.ans_build.specs.Ans.{ans_refusal, ans_symbols};
ghost use Rattle.c_book.specs.Prices.{PriceTold, PairTold};

use c_answers::{tell, tell_pair};

// The first of checks 1 to 6 that a book fails, or 0.
#[unsafe(no_mangle)]
pub extern "C" fn rdoq_check_book(
    clusters: u32,
    map: &[u8],
    configs: &[u8],
    symbols: &[f32],
    ready: &[f32],
) -> u32
    ensures { result ≡ book_refusal (book_of clusters map.now configs.now symbols.now ready.now) }
{
    refusals::code(book_calls::book::check_book(clusters, map, configs, symbols, ready))
}

// Writes every ready price of a book that passes checks 1 to 5.
#[unsafe(no_mangle)]
pub extern "C" fn rdoq_fill_ready(
    clusters: u32,
    map: &[u8],
    configs: &[u8],
    symbols: &[f32],
    ready: &mut [f32],
) -> u32
    ensures value { result ≡ fill_refusal (book_of clusters map.now configs.now symbols.now ready.old) }
    ensures ready_after { ready.new ≡ filled_ready (book_of clusters map.now configs.now symbols.now ready.old) }
{
    refusals::code(book_calls::book::fill_ready(clusters, map, configs, symbols, ready))
}

// Writes every symbol price of a prefix code.
#[unsafe(no_mangle)]
pub extern "C" fn rdoq_prefix_symbol_bits(
    clusters: u32,
    depths: &[u8],
    singles: &[u8],
    strict: bool,
    symbols: &mut [f32],
) -> u32
    ensures value { result ≡ prefix_refusal (prefix_of clusters depths.now singles.now strict) symbols.old }
    ensures symbols_after { symbols.new ≡ prefix_symbols (prefix_of clusters depths.now singles.now strict) symbols.old }
{
    refusals::code(book_calls::book::prefix_symbol_bits(clusters, depths, singles, strict, symbols))
}

// Writes every symbol price of an ANS code.
#[unsafe(no_mangle)]
pub extern "C" fn rdoq_ans_symbol_bits(clusters: u32, freqs: &[u16], symbols: &mut [f32]) -> u32
    ensures value { result ≡ ans_refusal clusters freqs.now symbols.old }
    ensures symbols_after { symbols.new ≡ ans_symbols clusters freqs.now symbols.old }
{
    refusals::code(book_calls::book::ans_symbol_bits(clusters, freqs, symbols))
}

// Writes the price of a value in a context.
#[unsafe(no_mangle)]
pub extern "C" fn rdoq_token_bits(
    clusters: u32,
    map: &[u8],
    configs: &[u8],
    symbols: &[f32],
    ready: &[f32],
    context: u32,
    value: u32,
    bits: &mut f32,
) -> u32
    ensures { PriceTold (book_of clusters map.now configs.now symbols.now ready.now) context value bits.old result bits.new }
{
    let answer = book_calls::book::token_bits(
        clusters, map, configs, symbols, ready, context, value,
    );
    tell(answer, bits)
}

// Writes the prices of a value in a context and the next one.
#[unsafe(no_mangle)]
pub extern "C" fn rdoq_token_bits_pair(
    clusters: u32,
    map: &[u8],
    configs: &[u8],
    symbols: &[f32],
    ready: &[f32],
    context: u32,
    value: u32,
    first: &mut f32,
    second: &mut f32,
) -> u32
    ensures { PairTold (book_of clusters map.now configs.now symbols.now ready.now) context value first.old second.old result first.new second.new }
{
    let answer = book_calls::book::token_bits_pair(
        clusters, map, configs, symbols, ready, context, value,
    );
    tell_pair(answer, first, second)
}
