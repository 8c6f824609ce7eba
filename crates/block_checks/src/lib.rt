// Checks 7 to 14, 18 and 26, in the order in which they are made.
#![tactic(auto)]

ghost use Rattle.std.specs.Prelude.{◌≡◌, true, ◌&&◌, ◌+◌, ◌*◌, ◌≤◌, ◌<◌, eqb, leb, pos, Float, length, get_or};
ghost use Rattle.ac_context.specs.Contexts.{is_power_below};
ghost use Rattle.block.specs.Block.{covered, ideal_at};
ghost use Rattle.block.specs.Data.{block_with};
ghost use Rattle.block.specs.Checks.{block_refusal, strategy_covered, valid_width, enough_room};
ghost use Rattle.candidates.specs.Candidates.{is_current};
ghost use Rattle.candidates.specs.Nearest.{is_ideal};
ghost use Rattle.prices.specs.Checks.{each};
ghost use Rattle.refusals.specs.Numbers.{code_of};
ghost use Rattle.scan.specs.Scan.{Perm, level_at};
ghost use Rattle.weights.specs.Window.{window_for};
ghost use Rattle.block_checks.specs.Parts.{form_refusal, content_refusal};

use block::BlockData;
use refusals::Refusal;

#[tactic(auto, unfolding(ac_context::specs::Contexts::is_power_below))]
pub fn is_side(side: u32) -> bool
    ensures { result ≡ is_power_below 6 side }
{
    matches!(side, 1 | 2 | 4 | 8 | 16 | 32)
}

// Asked for sides that passed alone, so that the product fits.
pub fn covered_blocks(cx: u32, cy: u32) -> usize
    requires { (is_power_below 6 cx ≡ true) × (is_power_below 6 cy ≡ true) }
    ensures { result ≡ cx * cy }
{
    (cx as usize) * (cy as usize)
}

fn hold(n: usize, block: &BlockData, levels: &[i32]) -> bool
    ensures { result ≡ (eqb (length levels.now) n && eqb (length block.now.scan.now) n && eqb (length block.now.source.now) n && eqb (length block.now.inv_qm.now) n) }
{
    levels.len() == n && block.scan.len() == n && block.source.len() == n && block.inv_qm.len() == n
}

pub fn is_coded(strategy: u8, channel: u8) -> bool
    ensures { result ≡ (leb strategy 26 && leb channel 2) }
{
    strategy <= 26 && channel <= 2
}

// ISO/IEC 18181-1: how many 8×8 blocks a varblock of each strategy code covers.
const STRATEGY_COVERED: [u16; 27] = [
    1, 1, 1, 1, 4, 16, 2, 2, 4, 4, 8, 8, 1, 1, 1, 1, 1, 1, 64, 32, 32, 256, 128, 128, 1024, 512,
    512,
];

// Check 18.
#[tactic(auto, unfolding(block::specs::Checks::strategy_covered))]
pub fn fits(strategy: u8, covered_blocks: usize) -> bool
    requires { strategy ≤ 26 }
    ensures { result ≡ eqb covered_blocks (get_or strategy_covered strategy 0) }
{
    covered_blocks == usize::from(STRATEGY_COVERED[usize::from(strategy)])
}

// 0 for a level within ±32,767, else 1.
fn outside(level: i32) -> u32
    ensures level_value { is_current level ≡ eqb result 0 }
    ensures upper_bound { result ≤ 1 }
{
    u32::from(!candidates::is_current(level))
}

// Whether every level is within ±32,767, the first c of the scan among them. In the list's own order and with no early exit the loop is vectorised.
fn all_within(levels: &[i32]) -> bool
    requires { length levels.now ≤ 65536 }
    ensures { result ≡ each (length levels.now) (λ i. is_current (get_or levels.now i (pos 0))) }
{
    let mut bad = 0;
    for &level in levels {
        bad += outside(level);
    }
    bad == 0
}

// Check 12: the levels from scan position c on. Where all pass, those do.
fn levels_within(covered_blocks: usize, scan: &[u32], levels: &[i32]) -> bool
    requires perm { (Perm scan.now (64 * covered_blocks)) × (covered_blocks ≤ 1024) }
    requires levels_len { length levels.now ≡ 64 * covered_blocks }
    ensures { result ≡ each (63 * covered_blocks) (λ i. is_current (level_at scan.now levels.now (covered_blocks + i))) }
{
    if all_within(levels) {
        return true;
    }
    for i in 0..63 * covered_blocks {
        if !candidates::is_current(steps::level_at(scan, levels, covered_blocks + i)) {
            return false;
        }
    }
    true
}

// Check 13: the ideals of the window.
fn ideals_within(covered_blocks: usize, window: usize, block: &BlockData) -> bool
    requires perm { Perm block.now.scan.now (64 * covered_blocks) }
    requires window_bound { covered_blocks + window ≤ 64 * covered_blocks }
    requires source_len { length block.now.source.now ≡ 64 * covered_blocks }
    requires inv_qm_len { length block.now.inv_qm.now ≡ 64 * covered_blocks }
    ensures { result ≡ each window (λ i. is_ideal (ideal_at block.now.scan.now block.now.source.now block.now.inv_qm.now block.now.scale (covered_blocks + i))) }
{
    for i in 0..window {
        if !candidates::is_ideal(steps::ideal_at(block, block.scale, covered_blocks + i)) {
            return false;
        }
    }
    true
}

// Checks 7, 8, 9, 18 and 10.
#[tactic(auto, unfolding(crate::specs::Parts::form_refusal, block::specs::Block::covered, block::specs::Checks::check7, block::specs::Checks::check8, block::specs::Checks::check9, block::specs::Checks::check18, block::specs::Checks::check10, block::specs::Checks::form_checks, laws::specs::Refusals::first_refused))]
fn check_form(block: &BlockData, levels: &[i32]) -> Result<(), Refusal>
    ensures { code_of result ≡ form_refusal (block_with block.now levels.now) }
{
    let shape = block.shape;
    if !is_side(shape.cx) || !is_side(shape.cy) {
        return Err(Refusal::BlockSide);
    }
    let covered = covered_blocks(shape.cx, shape.cy);
    if !hold(64 * covered, block, levels) {
        return Err(Refusal::BlockLength);
    }
    if !is_coded(shape.strategy, shape.channel) {
        return Err(Refusal::Strategy);
    }
    if !fits(shape.strategy, covered) {
        return Err(Refusal::Sides);
    }
    if !block.settings.valid() || !block.bias.valid() {
        return Err(Refusal::Settings);
    }
    Ok(())
}

// Checks 11 to 13, in a window of at most `cap` positions.
#[tactic(auto, unfolding(crate::specs::Parts::content_refusal, block::specs::Block::covered, block::specs::Block::input_at, block::specs::Block::ideal, block::specs::Checks::check11, block::specs::Checks::check12, block::specs::Checks::check13, block::specs::Checks::content_checks, laws::specs::Refusals::first_refused))]
fn check_content(block: &BlockData, levels: &[i32], cap: usize) -> Result<(), Refusal>
    requires { form_refusal (block_with block.now levels.now) ≡ 0 }
    ensures { code_of result ≡ content_refusal (window_for cap (block.now.shape.cx * block.now.shape.cy)) (block_with block.now levels.now) }
{
    let covered = covered_blocks(block.shape.cx, block.shape.cy);
    if !scan::each_once(block.scan) {
        return Err(Refusal::Scan);
    }
    if !levels_within(covered, block.scan, levels) {
        return Err(Refusal::Level);
    }
    let window = weights::window_under(cap, covered);
    if !ideals_within(covered, window.length, block) {
        return Err(Refusal::Ideal);
    }
    Ok(())
}

// Check 26.
#[tactic(auto, unfolding(block::specs::Checks::valid_width))]
fn valid_width(width: u32) -> bool
    ensures { result ≡ valid_width width }
{
    1 <= width && width <= 12
}

// How far a search goes: the half-width of the trellis's band, and the most positions of a window.
#[derive(Clone, Copy)]
pub struct Limits {
    pub half_width: u32,
    pub cap: usize,
    ghost some: { 0 < cap },
}

// Checks 7 to 13, 18 and 26, of any half-width and cap.
#[tactic(auto, unfolding(crate::specs::Parts::form_refusal, crate::specs::Parts::content_refusal, block::specs::Block::covered, block::specs::Checks::form_checks, block::specs::Checks::block_refusal, laws::specs::Refusals::first_refused))]
pub fn check_block(
    block: &BlockData,
    levels: &[i32],
    half_width: u32,
    cap: usize,
) -> Result<(), Refusal>
    ensures { let b = block_with block.now levels.now in code_of result ≡ block_refusal half_width (window_for cap (covered b)) b 0 }
{
    check_form(block, levels)?;
    if !valid_width(half_width) {
        return Err(Refusal::HalfWidth);
    }
    check_content(block, levels, cap)
}

// The room that check 14 asks for: choice bytes a window position, and costs in each row.
#[derive(Clone, Copy)]
pub struct Asked {
    pub bytes: usize,
    pub floats: usize,
}

// How much room is lent: choice bytes, and costs in either row.
#[derive(Clone, Copy)]
pub struct RoomLengths {
    pub choices: usize,
    pub row_a: usize,
    pub row_b: usize,
}

// Check 14.
#[tactic(auto, unfolding(block::specs::Checks::enough_room))]
pub fn enough_room(asked: Asked, window: usize, room: RoomLengths) -> bool
    requires { (asked.bytes ≤ 17179869184) × (window ≤ 1024) }
    ensures { result ≡ enough_room asked.bytes asked.floats window room.choices room.row_a room.row_b }
{
    asked.bytes * window <= room.choices && asked.floats <= room.row_a && asked.floats <= room.row_b
}
