// A price book that passed its checks.
ghost use Rattle.std.specs.Prelude.{◌≡◌};
ghost use Rattle.prices.specs.Book.{book_in};
ghost use Rattle.prices.specs.Checks.{book_refusal};

// A price book that passed checks 1 to 6: the cluster of each context, and of each cluster three bytes of configuration, 128 symbol prices and 256 ready prices.
#[derive(Clone, Copy)]
pub struct PriceBook<'a> {
    pub map: &'a [u8],
    pub configs: &'a [u8],
    pub symbols: &'a [f32],
    pub ready: &'a [f32],
    ghost passed: { book_refusal (book_in map.now configs.now symbols.now ready.now) ≡ 0 },
}
