// Check 6 of a price book: the ready prices.
#![tactic(auto)]

ghost use Rattle.std.specs.Prelude.{◌≡◌, true, ℕ, ◌≤◌, ◌<◌, ◌+◌, ◌*◌, ◌%◌, ◌^◌, T, length};
ghost use Rattle.std.specs.Float.Ieee.{add};
ghost use Rattle.std.specs.Float.{binary32};
ghost use Rattle.costs.specs.Cost.{cost};
ghost use Rattle.prices.specs.Book.{at};
ghost use Rattle.prices.specs.Checks.{each, symbol_price, same_bits, row_kept};
ghost use Rattle.book_rows.specs.Row.{Row, above, line_kept, four_kept, line_four, run_kept, octave_kept, priced_octaves};

// Whether two floats have the same bits. A NaN has no bits of its own, and no price is one.
#[tactic(auto, unfolding(prices::specs::Checks::same_bits))]
pub fn same_bits(kept: f32, price: f32) -> bool
    requires { T (cost price) }
    ensures { result ≡ same_bits kept price }
{
    !kept.is_nan() && kept.to_bits() == price.to_bits()
}

// Whether `count` ready prices in a row are as many symbols' prices plus the extra bits. Failures are counted, so the loop has no early exit and is vectorised.
fn line_kept(
    symbols: &[f32],
    ready: &[f32],
    from: usize,
    to: usize,
    count: usize,
    extra: f32,
) -> bool
    requires count_bound { count ≤ 256 }
    requires symbols_in_bounds { from + count ≤ length symbols.now }
    requires ready_in_bounds { to + count ≤ length ready.now }
    requires by_index { (i : ℕ) → i < count → T (cost (add binary32 (at symbols.now (from + i)) extra)) }
    ensures { result ≡ each count (line_kept symbols.now ready.now from to extra) }
{
    let mut bad: u32 = 0;
    for i in 0..count {
        let price = symbols[from + i] + extra;
        bad += u32::from(!same_bits(ready[to + i], price));
    }
    bad == 0
}

// Whether four ready prices in a row are these. What equals a float above 0 has its bits, and `&` has no branch: so the four are compared at once.
fn four_kept(ready: &[f32], to: usize, a: f32, b: f32, c: f32, d: f32) -> bool
    requires to_in_bounds { to + 4 ≤ length ready.now }
    requires a_above { T (above a) }
    requires b_above { T (above b) }
    requires c_above { T (above c) }
    requires d_above { T (above d) }
    ensures { result ≡ four_kept ready.now to a b c d }
{
    (ready[to] == a) & (ready[to + 1] == b) & (ready[to + 2] == c) & (ready[to + 3] == d)
}

// Whether ready prices, four after four, are two prices by turns.
fn turns_kept(ready: &[f32], to: usize, fours: usize, a: f32, b: f32) -> bool
    requires fours_in_bounds { to + 4 * fours ≤ length ready.now }
    requires a_above { T (above a) }
    requires b_above { T (above b) }
    ensures { result ≡ each fours (λ i. four_kept ready.now (to + 4 * i) a b a b) }
{
    for i in 0..fours {
        if !four_kept(ready, to + 4 * i, a, b, a, b) {
            return false;
        }
    }
    true
}

// Whether ready prices, four after four, are those of `lines` times four symbols by turns, plus the extra bits.
fn lines_kept(
    symbols: &[f32],
    ready: &[f32],
    from: usize,
    to: usize,
    fours: usize,
    lines: usize,
    extra: f32,
) -> bool
    requires lines_nonzero { 0 < lines }
    requires lines_in_bounds { from + 4 * lines ≤ length symbols.now }
    requires fours_in_bounds { to + 4 * fours ≤ length ready.now }
    requires by_index { (i : ℕ) → i < 4 * lines → T (above (add binary32 (at symbols.now (from + i)) extra)) }
    ensures { result ≡ each fours (λ i. line_four symbols.now ready.now (from + 4 * (i % lines)) (to + 4 * i) extra) }
{
    for i in 0..fours {
        let at = from + 4 * (i % lines);
        let a = symbols[at] + extra;
        let b = symbols[at + 1] + extra;
        let c = symbols[at + 2] + extra;
        let d = symbols[at + 3] + extra;
        if !four_kept(ready, to + 4 * i, a, b, c, d) {
            return false;
        }
    }
    true
}

// Whether the ready prices of a run of 2^(l + bits) values are those of its 2^l symbols by turns, plus the extra bits. With no extra bits a price may be 0, and so -0.0 has to be told from it.
fn run_kept(symbols: &[f32], ready: &[f32], from: usize, to: usize, l: u32, bits: u32) -> bool
    requires bits_bound { l + bits ≤ 7 }
    requires l_in_bounds { from + 2 ^ l ≤ length symbols.now }
    requires bits_in_bounds { to + 2 ^ (l + bits) ≤ length ready.now }
    requires by_index { (i : ℕ) → i < 2 ^ l → symbol_price (at symbols.now (from + i)) ≡ true }
    ensures { result ≡ each (2 ^ (l + bits)) (run_kept symbols.now ready.now from to l bits) }
{
    let extra = bits as f32;
    if bits == 0 {
        return line_kept(symbols, ready, from, to, packing::power(l) as usize, extra);
    }
    if l + bits < 2 {
        let price = symbols[from] + extra;
        return (ready[to] == price) & (ready[to + 1] == price);
    }
    let fours = packing::power(l + bits - 2) as usize;
    if l < 2 {
        let a = symbols[from] + extra;
        let b = symbols[from + l as usize] + extra;
        return turns_kept(ready, to, fours, a, b);
    }
    let lines = packing::power(l - 2) as usize;
    lines_kept(symbols, ready, from, to, fours, lines, extra)
}

// Whether the ready prices of 2^m runs in a row are kept, each with the next 2^l symbols.
fn octave_kept(
    symbols: &[f32],
    ready: &[f32],
    from: usize,
    to: usize,
    m: u32,
    l: u32,
    bits: u32,
) -> bool
    requires bits_bound { m + l + bits ≤ 7 }
    requires l_in_bounds { from + 2 ^ (m + l) ≤ length symbols.now }
    requires bits_in_bounds { to + 2 ^ (m + l + bits) ≤ length ready.now }
    requires by_index { (i : ℕ) → i < 2 ^ (m + l) → symbol_price (at symbols.now (from + i)) ≡ true }
    ensures { result ≡ octave_kept symbols.now ready.now from to m l bits }
{
    let runs = packing::power(m) as usize;
    let period = packing::power(l) as usize;
    let count = packing::power(l + bits) as usize;
    for i in 0..runs {
        if !run_kept(symbols, ready, from + i * period, to + i * count, l, bits) {
            return false;
        }
    }
    true
}

// How many octaves below 256 have symbols that have prices, with `both` bits of a value in its symbol: all, but for 6,m,6-m the last.
fn priced_octaves(both: u32) -> u32
    ensures { result ≡ priced_octaves both }
{
    if both == 6 { 7 } else { 8 }
}

// Check 6 for one cluster. Values with top bit n are 2^m runs: in a run all but the low bits of the symbol stay, and so do the extra bits.
// Where they have no symbols, their prices are +infinity.
fn row_kept(configs: &[u8], symbols: &[f32], ready: &[f32], cluster: usize) -> bool
    requires { Row configs.now symbols.now ready.now cluster }
    ensures { result ≡ row_kept configs.now symbols.now ready.now cluster }
{
    let config = prices::config_of(configs, cluster);
    let m = config.msb_in_token;
    let l = config.lsb_in_token;
    let small = packing::power(config.split_exponent) as usize;
    if !line_kept(symbols, ready, 128 * cluster, 256 * cluster, small, 0.0) {
        return false;
    }
    let mut from = 128 * cluster + small;
    let end = priced_octaves(m + l);
    for n in config.split_exponent..end {
        let to = 256 * cluster + packing::power(n) as usize;
        if !octave_kept(symbols, ready, from, to, m, l, n - m - l) {
            return false;
        }
        from += packing::power(m + l) as usize;
    }
    if end < 8 {
        let none = costs::infinity();
        return turns_kept(ready, 256 * cluster + 128, 32, none, none);
    }
    true
}

// Check 6.
pub fn rows_kept(clusters: usize, configs: &[u8], symbols: &[f32], ready: &[f32]) -> bool
    requires { (k : ℕ) → k < clusters → Row configs.now symbols.now ready.now k }
    ensures { result ≡ each clusters (row_kept configs.now symbols.now ready.now) }
{
    for k in 0..clusters {
        if !row_kept(configs, symbols, ready, k) {
            return false;
        }
    }
    true
}
