// The price book: its checks, its prices, and what fills it. A book is lent in five parts: the number of clusters, the cluster of each of the 14,850
// contexts, and for each cluster three bytes of configuration, 128 symbol prices and 256 ready prices.
ghost use Rattle.std.specs.Prelude.{◌≡◌};
ghost use Rattle.refusals.specs.Numbers.{code_of};
ghost use Rattle.prices.specs.Book.{book_of};
ghost use Rattle.prices.specs.Checks.{book_refusal, fill_refusal};
ghost use Rattle.book_build.specs.Fill.{filled_ready};
ghost use Rattle.book_build.specs.Prefix.{prefix_of, prefix_refusal, prefix_symbols};
ghost use Rattle.ans_build.specs.Ans.{ans_refusal, ans_symbols};
ghost use Rattle.book_calls.specs.Prices.{Priced, PairPriced};

use prices::Pair;
use refusals::Refusal;

// Checks 1 to 6.
pub fn check_book(
    clusters: u32,
    map: &[u8],
    configs: &[u8],
    symbols: &[f32],
    ready: &[f32],
) -> Result<(), Refusal>
    ensures { code_of result ≡ book_refusal (book_of clusters map.now configs.now symbols.now ready.now) }
{
    book_checks::check_book(&price_view::new(clusters, map, configs, symbols, ready))
}

// Writes every ready price of a book that passes checks 1 to 5. Otherwise refuses by the first check that fails, and writes nothing.
pub fn fill_ready(
    clusters: u32,
    map: &[u8],
    configs: &[u8],
    symbols: &[f32],
    ready: &mut [f32],
) -> Result<(), Refusal>
    ensures value { code_of result ≡ fill_refusal (book_of clusters map.now configs.now symbols.now ready.old) }
    ensures ready_after { ready.new ≡ filled_ready (book_of clusters map.now configs.now symbols.now ready.old) }
{
    book_build::fill_ready(clusters, map, configs, symbols, ready)
}

// Writes every symbol price of a prefix code. Otherwise refuses by check 1 or 2, for its own lengths, and writes nothing. There are 128 depths a cluster,
// and a byte that is not 0 where the cluster's code has a single symbol. A symbol that the code lacks costs 15.0, or +infinity under strict pricing; in a cluster
// without a word every symbol costs 15.0, strict or not.
pub fn prefix_symbol_bits(
    clusters: u32,
    depths: &[u8],
    singles: &[u8],
    strict: bool,
    symbols: &mut [f32],
) -> Result<(), Refusal>
    ensures value { code_of result ≡ prefix_refusal (prefix_of clusters depths.now singles.now strict) symbols.old }
    ensures symbols_after { symbols.new ≡ prefix_symbols (prefix_of clusters depths.now singles.now strict) symbols.old }
{
    book_build::prefix_symbol_bits(clusters, depths, singles, strict, symbols)
}

// Writes every symbol price of an ANS code. Otherwise refuses by check 1 or 2, for its own lengths, or 19, and writes nothing. There are 128 frequencies a
// cluster, each at most 4,096, which is the whole; they need not add up to it. Frequency 0 costs 15.0, any other 12 less its logarithm.
pub fn ans_symbol_bits(clusters: u32, freqs: &[u16], symbols: &mut [f32]) -> Result<(), Refusal>
    ensures value { code_of result ≡ ans_refusal clusters freqs.now symbols.old }
    ensures symbols_after { symbols.new ≡ ans_symbols clusters freqs.now symbols.old }
{
    ans_build::ans_symbol_bits(clusters, freqs, symbols)
}

// The price of a value of at most 131,071 in a context; +infinity for a value that has no word. Looks at the entries that it reads and at no others.
pub fn token_bits(
    clusters: u32,
    map: &[u8],
    configs: &[u8],
    symbols: &[f32],
    ready: &[f32],
    context: u32,
    value: u32,
) -> Result<f32, Refusal>
    ensures { Priced (book_of clusters map.now configs.now symbols.now ready.now) context value result }
{
    price_leaves::token_bits(
        &price_view::new(clusters, map, configs, symbols, ready),
        context,
        value,
    )
}

// The prices of a value in a context and the next one.
pub fn token_bits_pair(
    clusters: u32,
    map: &[u8],
    configs: &[u8],
    symbols: &[f32],
    ready: &[f32],
    context: u32,
    value: u32,
) -> Result<Pair, Refusal>
    ensures { PairPriced (book_of clusters map.now configs.now symbols.now ready.now) context value result }
{
    price_leaves::token_bits_pair(
        &price_view::new(clusters, map, configs, symbols, ready),
        context,
        value,
    )
}
