// Use of symbols in a batch: counts by cluster and symbol, and the total of extra bits, as the Rust's `AdaptiveRate::add` counts them. A block's tokens are added,
// and taken out when the block is searched again.
#![tactic(auto)]

pub mod tokens;

ghost use Rattle.std.specs.Prelude.{◌≡◌, ◌+◌, ◌*◌, ◌<◌, ◌≤◌, leb, min, length, get_or, IfErr, SomeIff};
ghost use Rattle.coding.specs.Coding.{coding_of};
ghost use Rattle.prices.specs.Book.{cluster_symbol, cluster_extra};
ghost use Rattle.prices.specs.Checks.{each};
ghost use Rattle.tallying.specs.Uses.{tokens_of};
ghost use Rattle.tallying.specs.Tally.{tally_of, many, are_tokens};
ghost use Rattle.tallying.specs.Checked.{tokens_in, IsChecked};
ghost use Rattle.tallying.specs.Changes.{opposite, op_of, Goes, counted_of, SomeCounted};

use coding::code::Code;
use refusals::Refusal;
use tokens::Tokens;

// Where a token is counted, and its extra bits.
#[derive(Clone, Copy)]
struct Use {
    place: usize,
    extra: u64,
}

// A symbol above 127 is counted as 127.
fn use_of(code: &Code, context: u32, value: u32) -> Use
    requires token { (context ≤ 14849) × (value ≤ 131071) }
    ensures place_value { result.place ≡ 128 * get_or code.now.map.now context 0 + min (cluster_symbol code.now.configs.now (get_or code.now.map.now context 0) value) 127 }
    ensures extra_value { result.extra ≡ cluster_extra code.now.configs.now (get_or code.now.map.now context 0) value }
{
    let cluster = usize::from(code.map[context as usize]);
    let split = prices::cluster_split(code.configs, cluster, value);
    Use {
        place: 128 * cluster + split.symbol.min(127) as usize,
        extra: u64::from(split.extra_bits),
    }
}

// Whether tokens are added to a tally or taken out of it.
#[derive(Clone, Copy)]
pub enum Change {
    Add,
    Remove,
}

impl Change {
    pub fn opposite(self) -> Change
        ensures { result ≡ opposite self }
    {
        match self {
            Change::Add => Change::Remove,
            Change::Remove => Change::Add,
        }
    }

    // A count with a token more or less; `None` where it has no room for one, or holds none.
    fn count(self, count: u32) -> Option<u32>
        ensures { SomeIff result (Goes self 4294967296 count 1) (op_of self count 1) }
    {
        match self {
            Change::Add => count.checked_add(1),
            Change::Remove => count.checked_sub(1),
        }
    }

    // The same of a total and a token's extra bits.
    fn total(self, total: u64, extra: u64) -> Option<u64>
        ensures { SomeIff result (Goes self 18446744073709551616 total extra) (op_of self total extra) }
    {
        match self {
            Change::Add => total.checked_add(extra),
            Change::Remove => total.checked_sub(extra),
        }
    }
}

// Adds tokens to a tally, or takes them out, up to the first that has no room for its count or for its extra bits: `Err` has how many come before it.
pub fn count_tokens(
    change: Change,
    code: &Code,
    tokens: &Tokens,
    counts: &mut [u32],
    extra: &mut u64,
) -> Result<(), usize>
    requires { length counts.old ≡ 128 * code.now.clusters }
    ensures counted { let t = tokens_in tokens.now in
        SomeCounted change code.now.map.now code.now.configs.now t (many t) (tally_of counts.old extra.old) (counted_of result (many t)) (tally_of counts.new extra.new) }
    ensures stopped_early { IfErr result (λ done. done < length tokens.now.contexts.now) }
{
    for (i, &context) in tokens.contexts.iter().enumerate() {
        let token = use_of(code, context, tokens.values[i]);
        let count = change.count(counts[token.place]).ok_or(i)?;
        *extra = change.total(*extra, token.extra).ok_or(i)?;
        counts[token.place] = count;
    }
    Ok(())
}

// Whether no number of a list is above `most`. (A maximum needs no early exit, so the loop is vectorised.)
fn none_above(most: u32, list: &[u32]) -> bool
    ensures { result ≡ each (length list.now) (λ i. leb (get_or list.now i 0) most) }
{
    let mut top: u32 = 0;
    for &number in list {
        top = top.max(number);
    }
    top <= most
}

// The same of a piece of both lists.
fn pass(contexts: &[u32], values: &[u32]) -> bool
    requires { length values.now ≡ length contexts.now }
    ensures { result ≡ are_tokens (tokens_of contexts.now values.now) }
{
    none_above(14849, contexts) && none_above(131071, values)
}

// So many tokens are compared before one that fails ends it.
const PIECE: usize = 64;

// 17: two lists of one length, contexts below 14,850, values up to 131,071.
fn are_tokens(contexts: &[u32], values: &[u32]) -> bool
    ensures { result ≡ are_tokens (tokens_of contexts.now values.now) }
{
    let n = contexts.len();
    if values.len() != n {
        return false;
    }
    for piece in 0..n / PIECE + 1 {
        let start = piece * PIECE;
        let end = n.min(start + PIECE);
        if !pass(&contexts[start..end], &values[start..end]) {
            return false;
        }
    }
    true
}

// Checks 1 to 4 and 17: code and tokens, once they have passed. `places`: how many counts were lent.
pub fn check_tokens<'a, 'b>(
    clusters: u32,
    map: &'a [u8],
    configs: &'a [u8],
    contexts: &'b [u32],
    values: &'b [u32],
    places: usize,
) -> Result<(Code<'a>, Tokens<'b>), Refusal>
    ensures { IsChecked (coding_of clusters map.now configs.now) (tokens_of contexts.now values.now) places result }
{
    let code = coding::checked_code(clusters, map, configs, places == 128 * clusters as usize)?;
    if !are_tokens(contexts, values) {
        return Err(Refusal::Domain);
    }
    Ok((code, Tokens { contexts, values }))
}
