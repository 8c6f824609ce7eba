// The steps that the writer and the reader of a block's tokens share.
#![tactic(auto)]

pub mod coded;
pub mod layout;

ghost use Rattle.std.specs.Prelude.{◌≡◌, true, ◌+◌, ◌<◌, ◌≤◌, nat_abs, SomeIff};
ghost use Rattle.ac_context.specs.Contexts.{Covered, Coefficient, zero_density_context};
ghost use Rattle.coding.specs.Coding.{Coded as IsCoded};
ghost use Rattle.scan.specs.Scan.{level_at};
ghost use Rattle.block_tokens.specs.Tokens.{covered_by, level_context};
ghost use Rattle.block_tokens.specs.Code.{code_of, contents};
ghost use Rattle.block_tokens.specs.Passed.{Shaped};
ghost use Rattle.block_tokens.specs.Reading.{pair, splits_in, value_in};
ghost use Rattle.token_steps.specs.Steps.{count_token, level_token, placed_token, HasToken, ConfigAt, SplitIn, StepAt};

use block::Shape;
use coded::Coded;
use coding::code::Code;
use layout::{Layout, LayoutNumbers};
use packing::{HybridUintConfig, Split};

pub fn layout_of(shape: Shape) -> Layout
    requires { Shaped shape }
    ensures { result.shape ≡ shape }
{
    let covered = shape.cx as usize * shape.cy as usize;
    let block = ac_context::fine_block_context(
        usize::from(shape.channel),
        usize::from(shape.strategy),
        shape.qf_hi,
    );
    let count_context = ac_context::fine_non_zero_context(u32::from(shape.predicted), block);
    Layout {
        shape,
        covered,
        log2: ac_context::log2_covered(covered),
        offset: ac_context::fine_zero_density_contexts_offset(block) as usize,
        count_context: count_context as usize,
    }
}

// The context of the level at scan position k, where `left` nonzero levels stand from k on.
fn context_in(layout: LayoutNumbers, left: usize, k: usize, prev: usize) -> usize
    requires covers { (Covered layout.covered layout.log2) × (layout.offset + 457 < 14850) }
    requires coefficient { Coefficient layout.covered left k prev }
    ensures { (result ≡ layout.offset + zero_density_context layout.covered left k prev) × (result < 14850) }
{
    layout.offset + ac_context::zero_density_context(left, k, layout.covered, layout.log2, prev)
}

// The same by what the shape has.
pub fn context_at(layout: Layout, left: usize, k: usize, prev: usize) -> usize
    requires { Coefficient (covered_by layout.shape) left k prev }
    ensures { (result ≡ level_context layout.shape left k prev) × (result < 14850) }
{
    context_in(layout.numbers(), left, k, prev)
}

// The configuration of a context's cluster.
fn config_at(map: &[u8], configs: &[u8], context: usize) -> HybridUintConfig
    requires coded { IsCoded map.now configs.now }
    requires context_bound { context < 14850 }
    ensures { ConfigAt (code_of map.now configs.now) context result }
{
    prices::config_of(configs, usize::from(map[context]))
}

// The split of a value under the configuration of a context's cluster.
pub fn split_under(map: &[u8], configs: &[u8], context: usize, value: u32) -> Split
    requires coded { IsCoded map.now configs.now }
    requires context_bound { (context < 14850) × (value ≤ 131071) }
    ensures { SplitIn (code_of map.now configs.now) (record { context = context; value = value }) result }
{
    packing::uint_encode_with_config(value, config_at(map, configs, context))
}

// The same under a checked code.
pub fn split_in(code: &Code, context: usize, value: u32) -> Split
    requires context_bound { (context < 14850) × (value ≤ 131071) }
    ensures { SplitIn (contents code.now) (record { context = context; value = value }) result }
{
    split_under(code.map, code.configs, context, value)
}

// The value of a symbol and its extra bits under the configuration of a context's cluster; `None` where they split none.
pub fn value_in(code: &Code, context: usize, symbol: u32, bits: u32) -> Option<u32>
    requires context_bound { context < 14850 }
    ensures { let x = contents code.now in let p = pair symbol bits in SomeIff result (splits_in x context p ≡ true) (value_in x context p) }
{
    packing::uint_decode_with_config(symbol, bits, config_at(code.map, code.configs, context))
}

// The same where they are the split of a value.
pub fn read_in(code: &Code, context: usize, symbol: u32, bits: u32) -> u32
    requires context_bound { context < 14850 }
    requires bits_value { splits_in (contents code.now) context (pair symbol bits) ≡ true }
    ensures { result ≡ value_in (contents code.now) context (pair symbol bits) }
{
    packing::uint_read_with_config(symbol, bits, config_at(code.map, code.configs, context))
}

// The split of the count, which is the first token's value.
pub fn count_split(code: &Code, coded: &Coded) -> Split
    ensures { SplitIn (contents code.now) (count_token coded.now) result }
{
    split_in(code, coded.layout.count_context, coded.count as u32)
}

// A level's token as it is written, and whether the level is nonzero.
#[derive(Clone, Copy)]
pub struct Step {
    pub context: usize,
    pub symbol: u32,
    pub extra_bits: u32,
    pub bits: u32,
    pub nonzero: usize,
}

// The step of scan position k, where `left` nonzero levels stand from k on. Inlined, since a call with all these arguments would cost the writer's walks more.
#[inline(always)]
pub fn token_at(
    map: &[u8],
    configs: &[u8],
    layout: LayoutNumbers,
    scan: &[u32],
    levels: &[i32],
    k: usize,
    left: usize,
    prev: usize,
) -> Step
    requires coded { IsCoded map.now configs.now }
    requires has_token { HasToken layout scan.now levels.now k left prev }
    ensures { StepAt (code_of map.now configs.now) (placed_token layout scan.now levels.now k left prev) (level_at scan.now levels.now k) result }
{
    let level = steps::level_at(scan, levels, k);
    let context = context_in(layout, left, k, prev);
    let split = split_under(map, configs, context, packing::pack_signed(level));
    Step {
        context,
        symbol: split.symbol,
        extra_bits: split.extra_bits,
        bits: split.bits,
        nonzero: steps::nonzero(level),
    }
}

// The same of a block's levels.
pub fn step_at(code: &Code, coded: &Coded, k: usize, left: usize, prev: usize) -> Step
    requires coefficient { Coefficient (covered_by coded.now.layout.shape) left k prev }
    requires small { nat_abs (level_at coded.now.scan.now coded.now.levels.now k) ≤ 32768 }
    ensures { StepAt (contents code.now) (level_token coded.now.layout.shape coded.now.scan.now coded.now.levels.now k left prev) (level_at coded.now.scan.now coded.now.levels.now k) result }
{
    token_at(
        code.map,
        code.configs,
        coded.layout.numbers(),
        coded.scan,
        coded.levels,
        k,
        left,
        prev,
    )
}
