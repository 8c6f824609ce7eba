// Checks 1 to 6 of a price book, in document 01's order.
#![tactic(auto)]

ghost use Rattle.std.specs.Prelude.{◌≡◌, ◌≤◌, ◌*◌, length};
ghost use Rattle.refusals.specs.Numbers.{code_of};
ghost use Rattle.price_view.specs.View.{book_in};
ghost use Rattle.prices.specs.Book.{cluster_valid};
ghost use Rattle.book_checks.specs.Checked.{IsChecked};
ghost use Rattle.prices.specs.Checks.{each, symbol_price, map_below, all_priced, first_two, fill_refusal, book_refusal};

use price_view::PriceView;
use prices::book::PriceBook;
use refusals::Refusal;

// Check 3: the largest entry is below the number of clusters. (A maximum needs no early exit, so the loop is vectorised.)
pub fn map_below(map: &[u8], clusters: u32) -> bool
    requires { 1 ≤ clusters }
    ensures { result ≡ map_below clusters map.now }
{
    let mut top: u8 = 0;
    for &entry in map {
        top = top.max(entry);
    }
    u32::from(top) < clusters
}

// Check 4.
pub fn configs_valid(configs: &[u8], clusters: usize) -> bool
    requires { length configs.now ≡ 3 * clusters }
    ensures { result ≡ each clusters (cluster_valid configs.now) }
{
    for k in 0..clusters {
        let at = 3 * k;
        if !packing::valid_config(configs[at], configs[at + 1], configs[at + 2]) {
            return false;
        }
    }
    true
}

// Whether a float is a symbol price.
pub fn is_symbol_price(x: f32) -> bool
    ensures { result ≡ symbol_price x }
{
    x >= 0.0 && (x <= 1024.0 || x == costs::infinity())
}

// Check 5: failures are counted, so the loop has no early exit and is vectorised.
fn symbols_priced(symbols: &[f32]) -> bool
    requires { length symbols.now ≤ 32768 }
    ensures { result ≡ all_priced symbols.now }
{
    let mut bad: u32 = 0;
    for &x in symbols {
        bad += u32::from(!is_symbol_price(x));
    }
    bad == 0
}

// Checks 1 and 2.
#[tactic(auto, unfolding(prices::specs::Checks::check1, prices::specs::Checks::check2, prices::specs::Checks::first_two))]
pub fn check_lengths(view: &PriceView) -> Result<(), Refusal>
    ensures { code_of result ≡ first_two (book_in view.now) 0 }
{
    if view.map.len() != 14850 || view.clusters == 0 || view.clusters > 256 {
        return Err(Refusal::MapLength);
    }
    let n = view.clusters as usize;
    if view.configs.len() != 3 * n || view.symbols.len() != 128 * n || view.ready.len() != 256 * n {
        return Err(Refusal::BookLength);
    }
    Ok(())
}

// Checks 1 to 5.
#[tactic(auto, using(refusals::proofs::Numbers::number_positive), unfolding(prices::specs::Checks::check1, prices::specs::Checks::check2, prices::specs::Checks::check3, prices::specs::Checks::check4, prices::specs::Checks::check5, prices::specs::Checks::first_two, prices::specs::Checks::first_five, prices::specs::Checks::fill_refusal))]
pub fn check_one_to_five(view: &PriceView) -> Result<(), Refusal>
    ensures { code_of result ≡ fill_refusal (book_in view.now) }
{
    check_lengths(view)?;
    if !map_below(view.map, view.clusters) {
        return Err(Refusal::MapEntry);
    }
    if !configs_valid(view.configs, view.clusters as usize) {
        return Err(Refusal::Configuration);
    }
    if !symbols_priced(view.symbols) {
        return Err(Refusal::SymbolPrice);
    }
    Ok(())
}

// Checks 1 to 6.
#[tactic(auto, unfolding(prices::specs::Checks::check6, prices::specs::Checks::first_two, prices::specs::Checks::first_five, prices::specs::Checks::fill_refusal, prices::specs::Checks::book_refusal))]
pub fn check_book(view: &PriceView) -> Result<(), Refusal>
    ensures { code_of result ≡ book_refusal (book_in view.now) }
{
    check_one_to_five(view)?;
    if !book_rows::rows_kept(
        view.clusters as usize,
        view.configs,
        view.symbols,
        view.ready,
    ) {
        return Err(Refusal::ReadyPrice);
    }
    Ok(())
}

// The book, once it has passed its checks.
pub fn checked_book<'a>(view: &PriceView<'a>) -> Result<PriceBook<'a>, Refusal>
    ensures { IsChecked (book_in view.now) result }
{
    check_book(view)?;
    Ok(PriceBook {
        map: view.map,
        configs: view.configs,
        symbols: view.symbols,
        ready: view.ready,
    })
}
