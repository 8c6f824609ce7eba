// Checks 24 and 20 of the writer: whether the levels lie within ±32,768, and whether every token has a symbol.
#![tactic(auto)]

ghost use Rattle.std.specs.Prelude.{◌≡◌, true, ◌-◌, ◌≤◌, leb, eqb, pos, nat_abs, length, get_or};
ghost use Rattle.block.specs.Block.{nonzeros_among};
ghost use Rattle.block.specs.declared.Shape.{Shape};
ghost use Rattle.coding.specs.Coding.{Coded as IsCoded};
ghost use Rattle.prices.specs.Checks.{each};
ghost use Rattle.refusals.specs.Numbers.{code_of};
ghost use Rattle.block_tokens.specs.Tokens.{block_tokens, coded_levels};
ghost use Rattle.block_tokens.specs.Code.{contents, code_of as coded_by};
ghost use Rattle.block_tokens.specs.Passed.{Scanned};
ghost use Rattle.block_tokens.specs.Writing.{all_within, all_coded};
ghost use Rattle.token_steps.specs.Steps.{Numbered, Placed, levels_in};
ghost use Rattle.token_bounds.specs.Bounds.{levels_refusal};

use coding::code::Code;
use refusals::Refusal;
use token_steps::coded::Coded;
use token_steps::layout::LayoutNumbers;

fn is_small(level: i32) -> bool
    ensures { result ≡ leb (nat_abs level) 63 }
{
    -63 <= level && level <= 63
}

// 0 for a level within ±63, else 1.
fn large(level: i32) -> u32
    ensures level_value { leb (nat_abs level) 63 ≡ eqb result 0 }
    ensures upper_bound { result ≤ 1 }
{
    u32::from(!is_small(level))
}

// Whether every level is within ±63, the first c of the scan among them: then no value but the count reaches 128, and any configuration has symbols for it. In the list's
// own order and with no early exit the loop is vectorised.
fn all_small(levels: &[i32]) -> bool
    requires { length levels.now ≤ 65536 }
    ensures { result ≡ each (length levels.now) (λ i. leb (nat_abs (get_or levels.now i (pos 0))) 63) }
{
    let mut bad = 0;
    for &level in levels {
        bad += large(level);
    }
    bad == 0
}

// Whether each level from scan position c on is within ±32,768.
fn all_within(layout: LayoutNumbers, scan: &[u32], levels: &[i32]) -> bool
    requires { Placed layout scan.now levels.now }
    ensures { (h : Shape) → Numbered h layout → result ≡ all_within (coded_levels h scan.now levels.now) }
{
    for k in layout.covered..scan.len() {
        if !bias::is_level(steps::level_at(scan, levels, k)) {
            return false;
        }
    }
    true
}

// Whether each token has one of the 128 symbols, token by token. `count`: the nonzero levels from scan position c on.
fn all_coded(
    map: &[u8],
    configs: &[u8],
    layout: LayoutNumbers,
    scan: &[u32],
    levels: &[i32],
    count: usize,
) -> bool
    requires coded { (IsCoded map.now configs.now) × (Placed layout scan.now levels.now) }
    requires levels_value { (h : Shape) → Numbered h layout → all_within (coded_levels h scan.now levels.now) ≡ true }
    requires count_value { count ≡ nonzeros_among scan.now levels.now layout.covered (length scan.now - layout.covered) }
    ensures { (h : Shape) → Numbered h layout → Scanned h scan.now levels.now → result ≡ all_coded (coded_by map.now configs.now) (block_tokens h (coded_levels h scan.now levels.now)) }
{
    if token_steps::split_under(map, configs, layout.count_context, count as u32).symbol > 127 {
        return false;
    }
    let mut left = count;
    let mut prev = steps::tokens::first_prev(layout.covered, count);
    let mut k = layout.covered;
    // It ends with the levels that are left, and not with an index.
    while left > 0 {
        let step = token_steps::token_at(map, configs, layout, scan, levels, k, left, prev);
        if step.symbol > 127 {
            return false;
        }
        prev = step.nonzero;
        left -= prev;
        k += 1;
    }
    true
}

// 24 and 20, by every shape that has these numbers and this scan. Where all levels are small the count alone decides. `count`: the nonzero levels from scan position c on.
pub fn check_placed(
    map: &[u8],
    configs: &[u8],
    layout: LayoutNumbers,
    scan: &[u32],
    levels: &[i32],
    count: usize,
) -> Result<(), Refusal>
    requires coded { (IsCoded map.now configs.now) × (Placed layout scan.now levels.now) }
    requires count_value { count ≡ nonzeros_among scan.now levels.now layout.covered (length scan.now - layout.covered) }
    ensures { (h : Shape) → Numbered h layout → Scanned h scan.now levels.now → code_of result ≡ levels_refusal (coded_by map.now configs.now) h (coded_levels h scan.now levels.now) }
{
    if all_small(levels) {
        if token_steps::split_under(map, configs, layout.count_context, count as u32).symbol > 127 {
            return Err(Refusal::TokenSplit);
        }
        return Ok(());
    }
    if !all_within(layout, scan, levels) {
        return Err(Refusal::TokenLevel);
    }
    if !all_coded(map, configs, layout, scan, levels, count) {
        return Err(Refusal::TokenSplit);
    }
    Ok(())
}

// The same of a block's levels.
pub fn check_levels(code: &Code, coded: &Coded) -> Result<(), Refusal>
    ensures { code_of result ≡ levels_refusal (contents code.now) coded.now.layout.shape (levels_in coded.now) }
{
    check_placed(
        code.map,
        code.configs,
        coded.layout.numbers(),
        coded.scan,
        coded.levels,
        coded.count,
    )
}
