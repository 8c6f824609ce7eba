// The tokens of one block, out and back (ticket 5): the count of nonzero levels from scan position c on, then each level from there until nothing remains. Both calls
// are lent a code without prices: the number of clusters, the cluster of each context, and three bytes of configuration a cluster.
//
// A call answers its number of tokens, or a refusal: 1 to 4 of the code, 7, 8, 9 and 18 of the shape (levels and scan belong to 8), 11 of the scan, then its
// own. A refused call changes nothing.
ghost use Rattle.block_tokens.specs.Outcome.{given_of};
ghost use Rattle.block_tokens.specs.Promise.{Write, Read};
ghost use Rattle.block_tokens.specs.Reply.{reply_of};
ghost use Rattle.block_tokens.specs.Writing.{outputs};

use block::Shape;
use refusals::Refusal;

// Writes a block's tokens: the context of each, its symbol, the number of its extra bits, and these. 63c + 1 numbers are always room enough; nothing past the tokens
// changes. 24: a level beyond ±32,768; 20: a value whose symbol is above 127; 23: an output too short.
pub fn write_tokens(
    clusters: u32,
    map: &[u8],
    configs: &[u8],
    shape: Shape,
    scan: &[u32],
    levels: &[i32],
    contexts: &mut [u32],
    symbols: &mut [u32],
    extra_bits: &mut [u32],
    bits: &mut [u32],
) -> Result<u32, Refusal>
    ensures { Write (given_of clusters map.now configs.now shape scan.now) levels.now
        (outputs contexts.old symbols.old extra_bits.old bits.old) (reply_of result)
        (outputs contexts.new symbols.new extra_bits.new bits.new) }
{
    let code = token_checks::check_lent(clusters, map, configs, shape, scan, levels)?;
    token_write::write_coded(
        &code, shape, scan, levels, contexts, symbols, extra_bits, bits,
    )
}

// Restores the levels from scan position c on from the symbols and extra bits of exactly one block's tokens, 0 past the last token; the first c stay. 22: the lists
// differ in length, end early, or are not used up; 20: a pair that is no value's up to 131,071; 21: a count above 63c; 25: more levels owed than positions left;
// 24: a level beyond ±32,768.
pub fn read_tokens(
    clusters: u32,
    map: &[u8],
    configs: &[u8],
    shape: Shape,
    scan: &[u32],
    symbols: &[u32],
    bits: &[u32],
    levels: &mut [i32],
) -> Result<u32, Refusal>
    ensures { Read (given_of clusters map.now configs.now shape scan.now) symbols.now bits.now levels.old (reply_of result) levels.new }
{
    let code = token_checks::check_lent(clusters, map, configs, shape, scan, levels)?;
    token_read::read_coded(&code, shape, scan, symbols, bits, levels)
}
