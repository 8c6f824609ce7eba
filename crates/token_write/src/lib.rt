// The writer of a block's tokens, once what it is lent has passed. Nothing is written before everything has passed.
#![tactic(auto)]

ghost use Rattle.std.specs.Prelude.{◌≡◌, true, leb, length};
ghost use Rattle.block_tokens.specs.Tokens.{coded_levels};
ghost use Rattle.block_tokens.specs.Code.{contents};
ghost use Rattle.block_tokens.specs.Passed.{Shaped, Scanned};
ghost use Rattle.block_tokens.specs.Reply.{reply_of};
ghost use Rattle.block_tokens.specs.Writing.{outputs, written, room_for, all_within, wrote, write_result};
ghost use Rattle.token_steps.specs.Steps.{levels_in, tokens_in};

use block::Shape;
use coding::code::Code;
use refusals::Refusal;
use token_steps::coded::Coded;

// The number of tokens: the count's, and one for each scan position from c on until no nonzero level remains.
fn tokens_of(coded: &Coded) -> usize
    ensures { result ≡ length (tokens_in coded.now) }
{
    let mut left = coded.count;
    let mut k = coded.layout.covered;
    // It ends with the levels that are left, and not with an index.
    while left > 0 {
        left -= steps::nonzero(steps::level_at(coded.scan, coded.levels, k));
        k += 1;
    }
    k + 1 - coded.layout.covered
}

// Whether there is room for all tokens. Where there is room for any block's they are not counted.
fn has_room(coded: &Coded, room: usize) -> bool
    ensures { result ≡ leb (length (tokens_in coded.now)) room }
{
    63 * coded.layout.covered + 1 <= room || tokens_of(coded) <= room
}

// Writes all tokens, once everything has passed, and answers their number.
fn write_all(
    code: &Code,
    coded: &Coded,
    contexts: &mut [u32],
    symbols: &mut [u32],
    extra_bits: &mut [u32],
    bits: &mut [u32],
) -> usize
    requires within { all_within (levels_in coded.now) ≡ true }
    requires room { room_for (length (tokens_in coded.now)) (outputs contexts.old symbols.old extra_bits.old bits.old) ≡ true }
    ensures number { result ≡ length (tokens_in coded.now) }
    ensures written { outputs contexts.new symbols.new extra_bits.new bits.new
        ≡ written (contents code.now) (tokens_in coded.now) (outputs contexts.old symbols.old extra_bits.old bits.old) }
{
    let split = token_steps::count_split(code, coded);
    contexts[0] = coded.layout.count_context as u32;
    symbols[0] = split.symbol;
    extra_bits[0] = split.extra_bits;
    bits[0] = split.bits;
    let mut i = 1;
    let mut left = coded.count;
    let mut prev = steps::tokens::first_prev(coded.layout.covered, coded.count);
    let mut k = coded.layout.covered;
    // It ends with the levels that are left, and not with an index.
    while left > 0 {
        let step = token_steps::step_at(code, coded, k, left, prev);
        contexts[i] = step.context as u32;
        symbols[i] = step.symbol;
        extra_bits[i] = step.extra_bits;
        bits[i] = step.bits;
        i += 1;
        prev = step.nonzero;
        left -= prev;
        k += 1;
    }
    i
}

// The tokens of a block, into the four lists that C lends.
pub fn write_coded(
    code: &Code,
    shape: Shape,
    scan: &[u32],
    levels: &[i32],
    contexts: &mut [u32],
    symbols: &mut [u32],
    extra_bits: &mut [u32],
    bits: &mut [u32],
) -> Result<u32, Refusal>
    requires shaped { (Shaped shape) × (Scanned shape scan.now levels.now) }
    ensures { wrote (reply_of result) (outputs contexts.new symbols.new extra_bits.new bits.new)
        ≡ write_result (contents code.now) shape (coded_levels shape scan.now levels.now) (outputs contexts.old symbols.old extra_bits.old bits.old) }
{
    let layout = token_steps::layout_of(shape);
    let count = steps::tokens::nonzeros_from(scan, levels, layout.covered);
    let coded = Coded {
        layout,
        scan,
        levels,
        count,
    };
    token_bounds::check_levels(code, &coded)?;
    let room = contexts
        .len()
        .min(symbols.len())
        .min(extra_bits.len())
        .min(bits.len());
    if !has_room(&coded, room) {
        return Err(Refusal::OutputShort);
    }
    let n = write_all(code, &coded, contexts, symbols, extra_bits, bits);
    Ok(n as u32)
}
