// The price calls of `book` over a view: a price book as one value, which refers to the caller's context map, configurations and prices (document 01, "a price
// view"). A view is made by `new` of the parts that the calls of `book` take, and answers as they do. It costs a copy of four slices and a number.
ghost use Rattle.std.specs.Prelude.{◌≡◌};
ghost use Rattle.prices.specs.Book.{book_of};
ghost use Rattle.price_view.specs.View.{book_in};
ghost use Rattle.price_leaves.specs.Leaf.{price_reply, pair_reply};

pub use price_view::{PriceView, new};
use prices::Pair;
use refusals::Refusal;

// The price of a value of at most 131,071 in a context, as `book::token_bits` answers it.
pub fn token_bits<'a>(view: PriceView<'a>, context: u32, value: u32) -> Result<f32, Refusal>
    ensures { result ≡ price_reply (book_in view.entry) context value }
{
    price_leaves::token_bits(&view, context, value)
}

// The prices of a value in a context and the next one.
pub fn token_bits_pair<'a>(view: PriceView<'a>, context: u32, value: u32) -> Result<Pair, Refusal>
    ensures { result ≡ pair_reply (book_in view.entry) context value }
{
    price_leaves::token_bits_pair(&view, context, value)
}

// The price by way of a view, from plain slices of one lifetime. Its contract says nothing of a view, so a caller of it has an ordinary proof.
pub fn token_bits_by_view<'a>(
    clusters: u32,
    map: &'a [u8],
    configs: &'a [u8],
    symbols: &'a [f32],
    ready: &'a [f32],
    context: u32,
    value: u32,
) -> Result<f32, Refusal>
    ensures { result ≡ price_reply (book_of clusters map.now configs.now symbols.now ready.now) context value }
{
    token_bits(new(clusters, map, configs, symbols, ready), context, value)
}

// The prices in a context and the next one, likewise.
pub fn token_bits_pair_by_view<'a>(
    clusters: u32,
    map: &'a [u8],
    configs: &'a [u8],
    symbols: &'a [f32],
    ready: &'a [f32],
    context: u32,
    value: u32,
) -> Result<Pair, Refusal>
    ensures { result ≡ pair_reply (book_of clusters map.now configs.now symbols.now ready.now) context value }
{
    token_bits_pair(new(clusters, map, configs, symbols, ready), context, value)
}
