// The price of a value in a context, from a book that passed its checks (document 01, module 4).
#![tactic(auto)]

pub mod book;

ghost use Rattle.std.specs.Prelude.{◌≡◌, true, ◌≤◌, ◌<◌, ◌+◌, ◌*◌, length, get_or};
ghost use Rattle.prices.specs.Book.{price, symbol_at, cluster_price, cluster_valid, cluster_symbol, cluster_extra};
ghost use Rattle.prices.specs.Checks.{ClusterPassed};
ghost use Rattle.prices.specs.Contents.{contents};

use book::PriceBook;
use packing::{HybridUintConfig, Split, uint_encode_with_config};

// The prices of a value in two contexts.
#[derive(Clone, Copy)]
pub struct Pair {
    pub first: f32,
    pub second: f32,
}

// The configuration of a cluster.
pub fn config_of(configs: &[u8], cluster: usize) -> HybridUintConfig
    requires { 3 * cluster + 2 < length configs.now }
    ensures split_exponent_value { result.split_exponent ≡ get_or configs.now (3 * cluster) 0 }
    ensures msb_in_token_value { result.msb_in_token ≡ get_or configs.now (3 * cluster + 1) 0 }
    ensures lsb_in_token_value { result.lsb_in_token ≡ get_or configs.now (3 * cluster + 2) 0 }
{
    let at = 3 * cluster;
    HybridUintConfig {
        split_exponent: u32::from(configs[at]),
        msb_in_token: u32::from(configs[at + 1]),
        lsb_in_token: u32::from(configs[at + 2]),
    }
}

// The symbol and the extra bits of a value in a cluster.
pub fn cluster_split(configs: &[u8], cluster: usize, value: u32) -> Split
    requires configs_in_bounds { 3 * cluster + 2 < length configs.now }
    requires cluster_value { cluster_valid configs.now cluster ≡ true }
    requires value_bound { value ≤ 131071 }
    ensures symbol_value { result.symbol ≡ cluster_symbol configs.now cluster value }
    ensures extra_bits_value { result.extra_bits ≡ cluster_extra configs.now cluster value }
{
    uint_encode_with_config(value, config_of(configs, cluster))
}

// The price of a symbol in a cluster. Above 127 there is no word.
pub fn symbol_at(symbols: &[f32], cluster: usize, symbol: u32) -> f32
    requires { 128 * cluster + 127 < length symbols.now }
    ensures { result ≡ symbol_at symbols.now cluster symbol }
{
    if symbol > 127 {
        return costs::infinity();
    }
    symbols[128 * cluster + symbol as usize]
}

// The price of a value in a cluster, by its split.
pub fn cluster_price(configs: &[u8], symbols: &[f32], cluster: usize, value: u32) -> f32
    requires configs_in_bounds { 3 * cluster + 2 < length configs.now }
    requires symbols_in_bounds { 128 * cluster + 127 < length symbols.now }
    requires cluster_value { cluster_valid configs.now cluster ≡ true }
    requires value_bound { value ≤ 131071 }
    ensures { result ≡ cluster_price configs.now symbols.now cluster value }
{
    let split = cluster_split(configs, cluster, value);
    symbol_at(symbols, cluster, split.symbol) + split.extra_bits as f32
}

// The price of a value in a cluster that passed its checks. Values below 256 are kept ready.
pub fn cluster_bits(
    configs: &[u8],
    symbols: &[f32],
    ready: &[f32],
    cluster: usize,
    value: u32,
) -> f32
    requires cluster_passed { ClusterPassed configs.now symbols.now ready.now cluster }
    requires value_bound { value ≤ 131071 }
    ensures { result ≡ cluster_price configs.now symbols.now cluster value }
{
    if value < 256 {
        return ready[256 * cluster + value as usize];
    }
    cluster_price(configs, symbols, cluster, value)
}

impl<'a> PriceBook<'a> {
    // The price of a value in a cluster.
    pub fn cluster_bits(&self, cluster: usize, value: u32) -> f32
        requires cluster_bound { cluster < (contents self.now).clusters }
        requires value_bound { value ≤ 131071 }
        ensures { result ≡ cluster_price self.now.configs.now self.now.symbols.now cluster value }
    {
        cluster_bits(self.configs, self.symbols, self.ready, cluster, value)
    }

    // The price of a value in a context.
    pub fn token_bits(&self, context: usize, value: u32) -> f32
        requires context_bound { context < 14850 }
        requires value_bound { value ≤ 131071 }
        ensures { result ≡ price (contents self.now) context value }
    {
        self.cluster_bits(usize::from(self.map[context]), value)
    }

    // The prices of a value in a context and the next one: the two `prev` contexts of a coefficient. Inlined, since a call of its own would cost the searches more.
    #[inline(always)]
    pub fn token_bits_pair(&self, context: usize, value: u32) -> Pair
        requires context_bound { context < 14849 }
        requires value_bound { value ≤ 131071 }
        ensures first_value { result.first ≡ price (contents self.now) context value }
        ensures second_value { result.second ≡ price (contents self.now) (context + 1) value }
    {
        Pair {
            first: self.token_bits(context, value),
            second: self.token_bits(context + 1, value),
        }
    }
}
