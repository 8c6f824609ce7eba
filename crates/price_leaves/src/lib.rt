// The price calls that take anything: a price, or refusal 17 (document 01, module 4).
#![tactic(auto)]

ghost use Rattle.std.specs.Prelude.{◌≡◌, true, ◌≤◌, ◌<◌, ◌+◌};
ghost use Rattle.price_view.specs.View.{book_in};
ghost use Rattle.prices.specs.Checks.{check1, check2};
ghost use Rattle.price_leaves.specs.Leaf.{price_reply, pair_reply, entry_reply};

use price_view::PriceView;
use prices::Pair;
use refusals::Refusal;

// The price of a value in a context of a book with the right lengths, where the entries that it reads pass their checks.
#[tactic(auto, unfolding(crate::specs::Leaf::entry_reply, crate::specs::Leaf::entries_pass, crate::specs::Leaf::cluster_passes, prices::specs::Book::cluster_valid, prices::specs::Book::price))]
fn entry_price(view: &PriceView, context: usize, value: u32) -> Result<f32, Refusal>
    requires counts { check1 (book_in view.now) ≡ true }
    requires lengths { check2 (book_in view.now) ≡ true }
    requires context_bound { context < 14850 }
    requires value_bound { value ≤ 131071 }
    ensures { result ≡ entry_reply (book_in view.now) context value }
{
    let cluster = usize::from(view.map[context]);
    if cluster >= view.clusters as usize {
        return Err(Refusal::Domain);
    }
    let configs = view.configs;
    let at = 3 * cluster;
    if !packing::valid_config(configs[at], configs[at + 1], configs[at + 2]) {
        return Err(Refusal::Domain);
    }
    let split = prices::cluster_split(configs, cluster, value);
    if !book_checks::is_symbol_price(prices::symbol_at(view.symbols, cluster, split.symbol)) {
        return Err(Refusal::Domain);
    }
    let price = prices::cluster_price(configs, view.symbols, cluster, value);
    if value < 256 && !book_rows::same_bits(view.ready[256 * cluster + value as usize], price) {
        return Err(Refusal::Domain);
    }
    Ok(price)
}

// The price of a value in a context.
#[tactic(auto, unfolding(crate::specs::Leaf::price_reply, crate::specs::Leaf::entry_reply, crate::specs::Leaf::in_domain, prices::specs::Checks::first_two))]
pub fn token_bits(view: &PriceView, context: u32, value: u32) -> Result<f32, Refusal>
    ensures { result ≡ price_reply (book_in view.now) context value }
{
    if context >= 14850 || value > 131071 {
        return Err(Refusal::Domain);
    }
    if book_checks::check_lengths(view).is_err() {
        return Err(Refusal::Domain);
    }
    entry_price(view, context as usize, value)
}

// The prices of a value in a context and the next one.
#[tactic(auto, unfolding(crate::specs::Leaf::pair_reply, crate::specs::Leaf::price_reply, crate::specs::Leaf::in_domain))]
pub fn token_bits_pair(view: &PriceView, context: u32, value: u32) -> Result<Pair, Refusal>
    ensures { result ≡ pair_reply (book_in view.now) context value }
{
    if context >= 14849 {
        return Err(Refusal::Domain);
    }
    let first = token_bits(view, context, value)?;
    let second = token_bits(view, context + 1, value)?;
    Ok(Pair { first, second })
}
