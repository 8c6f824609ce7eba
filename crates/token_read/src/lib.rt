// The reader of a block's tokens, once what it is lent has passed. No level changes before everything has passed.
#![tactic(auto)]

ghost use Rattle.std.specs.Prelude.{◌≡◌, [], ◌-◌, length};
ghost use Rattle.least_cost.specs.Position.{nz};
ghost use Rattle.packing.specs.Signed.{unpack_signed};
ghost use Rattle.refusals.specs.Numbers.{code_of};
ghost use Rattle.scan.specs.Scan.{Perm, put};
ghost use Rattle.block_tokens.specs.Code.{contents};
ghost use Rattle.block_tokens.specs.Outcome.{read_as, read_result};
ghost use Rattle.block_tokens.specs.Passed.{Shaped, Scanned};
ghost use Rattle.block_tokens.specs.Reading.{read_tokens};
ghost use Rattle.block_tokens.specs.Reply.{reply_of};
ghost use Rattle.token_read.specs.Passes.{refusal_of, Accepted, Restored};

use block::Shape;
use coding::code::Code;
use refusals::Refusal;
use token_steps::layout::Layout;

// 1 where a packed value stands for a nonzero level.
fn nonzero_value(value: u32) -> usize
    ensures { result ≡ nz (unpack_signed value) }
{
    usize::from(value != 0)
}

// What the reader refuses of the two lists: the first pass.
fn check_pairs(code: &Code, layout: Layout, symbols: &[u32], bits: &[u32]) -> Result<(), Refusal>
    ensures { code_of result ≡ refusal_of (read_tokens (contents code.now) layout.shape symbols.now bits.now) }
{
    if symbols.len() != bits.len() || symbols.is_empty() {
        return Err(Refusal::TokenLists);
    }
    let Some(count) = token_steps::value_in(code, layout.count_context, symbols[0], bits[0]) else {
        return Err(Refusal::TokenSplit);
    };
    let mut owed = count as usize;
    if owed > 63 * layout.covered {
        return Err(Refusal::TokenCount);
    }
    let mut prev = steps::tokens::first_prev(layout.covered, owed);
    let mut k = layout.covered;
    let mut i = 1;
    // It ends with the levels that are left, and not with an index.
    while owed > 0 {
        if owed > 64 * layout.covered - k {
            return Err(Refusal::LevelsOwed);
        }
        if i >= symbols.len() {
            return Err(Refusal::TokenLists);
        }
        let context = token_steps::context_at(layout, owed, k, prev);
        let Some(value) = token_steps::value_in(code, context, symbols[i], bits[i]) else {
            return Err(Refusal::TokenSplit);
        };
        if value > 65536 {
            return Err(Refusal::TokenLevel);
        }
        prev = nonzero_value(value);
        owed -= prev;
        k += 1;
        i += 1;
    }
    if i < symbols.len() {
        return Err(Refusal::TokenLists);
    }
    Ok(())
}

// Restores the levels that have tokens: the second pass, once everything has passed. Answers the first scan position without a token.
fn restore(
    code: &Code,
    layout: Layout,
    scan: &[u32],
    symbols: &[u32],
    bits: &[u32],
    levels: &mut [i32],
) -> usize
    requires scanned { Scanned layout.shape scan.now levels.old }
    requires accepted { Accepted (contents code.now) layout.shape symbols.now bits.now }
    ensures { Restored (contents code.now) layout.shape scan.now symbols.now bits.now levels.old result levels.new }
{
    let count = token_steps::read_in(code, layout.count_context, symbols[0], bits[0]);
    let mut owed = count as usize;
    let mut prev = steps::tokens::first_prev(layout.covered, owed);
    let mut k = layout.covered;
    let mut i = 1;
    // It ends with the levels that are left, and not with an index.
    while owed > 0 {
        let context = token_steps::context_at(layout, owed, k, prev);
        let value = token_steps::read_in(code, context, symbols[i], bits[i]);
        steps::write_level(scan, levels, k, packing::unpack_signed(value));
        prev = nonzero_value(value);
        owed -= prev;
        k += 1;
        i += 1;
    }
    k
}

// Writes 0 from a scan position on.
fn clear_from(scan: &[u32], levels: &mut [i32], from: usize)
    requires { Perm scan.now (length levels.old) }
    ensures { levels.new ≡ put scan.now [] from (length scan.now - from) levels.old }
{
    for k in from..scan.len() {
        steps::write_level(scan, levels, k, 0);
    }
}

// The levels of a block from scan position c on.
pub fn read_coded(
    code: &Code,
    shape: Shape,
    scan: &[u32],
    symbols: &[u32],
    bits: &[u32],
    levels: &mut [i32],
) -> Result<u32, Refusal>
    requires shaped { (Shaped shape) × (Scanned shape scan.now levels.old) }
    ensures { read_as (reply_of result) levels.new ≡ read_result shape scan.now (length symbols.now) levels.old (read_tokens (contents code.now) shape symbols.now bits.now) }
{
    let layout = token_steps::layout_of(shape);
    check_pairs(code, layout, symbols, bits)?;
    let from = restore(code, layout, scan, symbols, bits, levels);
    clear_from(scan, levels, from);
    Ok(symbols.len() as u32)
}
