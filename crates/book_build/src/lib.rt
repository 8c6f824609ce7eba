// Filling the ready prices of a book, and symbol prices from a prefix code (document 01, module 4).
#![tactic(auto)]

ghost use Rattle.std.specs.Prelude.{◌≡◌, ◌&&◌, ℕ, ◌≤◌, ◌<◌, ◌+◌, ◌*◌, length};
ghost use Rattle.refusals.specs.Numbers.{code_of};
ghost use Rattle.prices.specs.Book.{book_of};
ghost use Rattle.prices.specs.Checks.{fill_refusal};
ghost use Rattle.book_rows.specs.Row.{Row};
ghost use Rattle.book_build.specs.Paint.{paint};
ghost use Rattle.book_build.specs.Fill.{ready_entry, filled_ready};
ghost use Rattle.book_build.specs.Prefix.{prefix_of, depth_price, trained, unseen_price, prefix_entry, row_entry, prefix_refusal, prefix_symbols};

use price_view::PriceView;
use refusals::Refusal;

fn write_ready(configs: &[u8], symbols: &[f32], ready: &mut [f32])
    requires { (k : ℕ) → 256 * k < length ready.old → Row configs.now symbols.now ready.old k }
    ensures { ready.new ≡ paint (ready_entry configs.now symbols.now) 0 (length ready.old) ready.old }
{
    for (i, price) in ready.iter_mut().enumerate() {
        *price = prices::cluster_price(configs, symbols, i / 256, (i % 256) as u32);
    }
}

// Writes every ready price of a book that passes checks 1 to 5; else writes nothing. (Check 3 is the map's; no price goes by it.)
pub fn fill_ready(
    clusters: u32,
    map: &[u8],
    configs: &[u8],
    symbols: &[f32],
    ready: &mut [f32],
) -> Result<(), Refusal>
    ensures value { code_of result ≡ fill_refusal (book_of clusters map.now configs.now symbols.now ready.old) }
    ensures ready_after { ready.new ≡ filled_ready (book_of clusters map.now configs.now symbols.now ready.old) }
{
    book_checks::check_one_to_five(&PriceView {
        clusters,
        map,
        configs,
        symbols,
        ready: &*ready,
    })?;
    write_ready(configs, symbols, ready);
    Ok(())
}

fn depth_price(unseen: f32, single: bool, depth: u8) -> f32
    ensures { result ≡ depth_price unseen single depth }
{
    if depth == 0 {
        unseen
    } else if single {
        0.0
    } else {
        f32::from(depth)
    }
}

// Whether a cluster has a word. Most do, and show it within a few depths.
fn is_trained(depths: &[u8], cluster: usize) -> bool
    requires { 128 * cluster + 128 ≤ length depths.now }
    ensures { result ≡ trained depths.now cluster }
{
    let from = 128 * cluster;
    depths[from..from + 128].iter().any(|&depth| depth != 0)
}

// What a symbol without a word costs in a cluster.
fn unseen_price(strict: bool, depths: &[u8], cluster: usize) -> f32
    requires { 128 * cluster + 128 ≤ length depths.now }
    ensures { result ≡ unseen_price (strict && trained depths.now cluster) }
{
    if strict && is_trained(depths, cluster) {
        costs::infinity()
    } else {
        15.0
    }
}

// The 128 prices of one cluster.
fn write_row(unseen: f32, single: bool, depths: &[u8], symbols: &mut [f32], cluster: usize)
    requires depths_in_bounds { 128 * cluster + 128 ≤ length depths.now }
    requires symbols_in_bounds { 128 * cluster + 128 ≤ length symbols.old }
    ensures { symbols.new ≡ paint (row_entry unseen single depths.now) (128 * cluster) 128 symbols.old }
{
    for j in 0..128 {
        let at = 128 * cluster + j;
        symbols[at] = depth_price(unseen, single, depths[at]);
    }
}

fn write_rows(clusters: usize, strict: bool, depths: &[u8], singles: &[u8], symbols: &mut [f32])
    requires depths_len { length depths.now ≡ 128 * clusters }
    requires singles_len { length singles.now ≡ clusters }
    requires symbols_len { length symbols.old ≡ 128 * clusters }
    ensures { symbols.new ≡ paint (prefix_entry (prefix_of clusters depths.now singles.now strict)) 0 (128 * clusters) symbols.old }
{
    for (k, &single) in singles.iter().enumerate() {
        let unseen = unseen_price(strict, depths, k);
        write_row(unseen, single != 0, depths, symbols, k);
    }
}

// Writes every symbol price of a prefix code; or nothing, where check 1 or 2 fails.
#[tactic(auto, unfolding(crate::specs::Prefix::prefix_refusal, crate::specs::Prefix::prefix_symbols))]
pub fn prefix_symbol_bits(
    clusters: u32,
    depths: &[u8],
    singles: &[u8],
    strict: bool,
    symbols: &mut [f32],
) -> Result<(), Refusal>
    ensures value { code_of result ≡ prefix_refusal (prefix_of clusters depths.now singles.now strict) symbols.old }
    ensures symbols_after { symbols.new ≡ prefix_symbols (prefix_of clusters depths.now singles.now strict) symbols.old }
{
    if clusters == 0 || clusters > 256 {
        return Err(Refusal::MapLength);
    }
    let n = clusters as usize;
    if depths.len() != 128 * n || singles.len() != n || symbols.len() != 128 * n {
        return Err(Refusal::BookLength);
    }
    write_rows(n, strict, depths, singles, symbols);
    Ok(())
}
