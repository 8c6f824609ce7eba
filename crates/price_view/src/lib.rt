// A price book as one value: a view that refers to the caller's context map, configurations and prices (document 01, "a price view"). The
// checks of a book and the price calls go by it. The caller keeps the slices; a view is a copy of references and a number.
#![tactic(auto)]

ghost use Rattle.std.specs.Prelude.{◌≡◌};
ghost use Rattle.price_view.specs.View.{view_of};

#[derive(Clone, Copy)]
pub struct PriceView<'a> {
    pub clusters: u32,
    pub map: &'a [u8],
    pub configs: &'a [u8],
    pub symbols: &'a [f32],
    pub ready: &'a [f32],
}

// A view of a book that is lent in parts. Nothing is checked: each price call looks at what it reads.
pub fn new<'a>(
    clusters: u32,
    map: &'a [u8],
    configs: &'a [u8],
    symbols: &'a [f32],
    ready: &'a [f32],
) -> PriceView<'a>
    ensures { result ≡ view_of clusters map.entry configs.entry symbols.entry ready.entry }
{
    PriceView {
        clusters,
        map,
        configs,
        symbols,
        ready,
    }
}
