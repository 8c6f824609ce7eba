// The levels that a search may pick for one coefficient.
#![tactic(auto)]

ghost use Rattle.std.specs.Prelude.{◌≡◌, ◌<◌, T, pos};
ghost use Rattle.candidates.specs.Nearest.{nearest_of, is_ideal};
ghost use Rattle.candidates.specs.Candidates.{candidates_of, filled, filler, in_array, is_current, kept_of, restored_of, settled};
ghost use Rattle.candidates.specs.Steps.{offer, with_zero};

// At most five levels in trial order, in fixed memory, since there is no heap. Past the count stands 0, or where the level may be restored the current level.
#[derive(Clone, Copy)]
pub struct Candidates {
    pub levels: [i32; 5],
    pub count: usize,
}

// A level from -32,767 to 32,767, as check 12 has it.
pub fn is_current(current: i32) -> bool
    ensures { result ≡ is_current current }
{
    -32767 <= current && current <= 32767
}

// An ideal from -32,767 to 32,767 and no NaN, as check 13 has it.
pub fn is_ideal(ideal: f32) -> bool
    ensures { result ≡ is_ideal ideal }
{
    -32767.0 <= ideal && ideal <= 32767.0
}

// The nearest whole number, halves away from zero.
pub fn round_half_away(x: f32) -> i32
    requires { T (is_ideal x) }
    ensures { result ≡ nearest_of x }
{
    let bits = f32::to_bits(x);
    let exponent = bits % 0x8000_0000 / 0x80_0000;
    if exponent < 126 {
        return 0;
    }
    // x in halves, less what lies below a half
    let digits = 0x80_0000 + bits % 0x80_0000;
    let halves = digits >> (149 - exponent);
    let size = ((halves + 1) / 2) as i32;
    if bits < 0x8000_0000 { size } else { -size }
}

// Whether the ideal is so near to a whole number above 2.5 that the level stays.
fn is_settled(ideal: f32, rounded: i32) -> bool
    requires is_ideal { T (is_ideal ideal) }
    requires is_rounding { rounded ≡ nearest_of ideal }
    ensures { result ≡ settled ideal }
{
    let off = ideal - rounded as f32;
    2.5 < ideal.abs() && off.abs() < 0.25
}

// The current level, one step toward zero, then 0.
fn kept(current: i32, levels: &mut [i32; 5]) -> usize
    requires { T (is_current current) }
    ensures { in_array result levels.new ≡ filled (pos 0) (kept_of current) }
{
    if 1 < current {
        *levels = [current, current - 1, 0, 0, 0];
        return 3;
    }
    if current < -1 {
        *levels = [current, current + 1, 0, 0, 0];
        return 3;
    }
    *levels = [current, 0, 0, 0, 0];
    if current == 0 { 1 } else { 2 }
}

// The current level and 0.
fn with_zero(current: i32, levels: &mut [i32; 5]) -> usize
    requires { T (is_current current) }
    ensures { in_array result levels.new ≡ with_zero current }
{
    *levels = [current, 0, current, current, current];
    if current == 0 { 1 } else { 2 }
}

// One level more behind the first `count`, unless it is 0 or the current one.
#[tactic(auto, unfolding(crate::specs::Steps::offer))]
fn offered(levels: &mut [i32; 5], count: usize, current: i32, level: i32) -> usize
    requires { count < 5 }
    ensures { in_array result levels.new ≡ offer (in_array count levels.old) current level }
{
    if level == 0 || level == current {
        return count;
    }
    levels[count] = level;
    count + 1
}

// The current level, 0, the ideal's rounding and its neighbours.
fn restored(ideal: f32, current: i32, levels: &mut [i32; 5]) -> usize
    requires is_ideal { T (is_ideal ideal) }
    requires is_current { T (is_current current) }
    ensures { in_array result levels.new ≡ filled current (restored_of ideal current) }
{
    let r = round_half_away(ideal);
    if is_settled(ideal, r) {
        *levels = [current; 5];
        return 1;
    }
    let first = with_zero(current, levels);
    let second = offered(levels, first, current, r);
    let third = offered(levels, second, current, r - 1);
    offered(levels, third, current, r + 1)
}

// Lists the candidates for one coefficient, the current level first, and answers how many they are. In a lent array no search copies them.
pub fn list_candidates(ideal: f32, current: i32, restore: bool, levels: &mut [i32; 5]) -> usize
    requires is_ideal { T (is_ideal ideal) }
    requires is_current { T (is_current current) }
    ensures { in_array result levels.new ≡ filled (filler current restore) (candidates_of ideal current restore) }
{
    if restore {
        restored(ideal, current, levels)
    } else {
        kept(current, levels)
    }
}

// The same, by value.
pub fn rdoq_candidates(ideal: f32, current: i32, restore: bool) -> Candidates
    requires is_ideal { T (is_ideal ideal) }
    requires is_current { T (is_current current) }
    ensures { result ≡ filled (filler current restore) (candidates_of ideal current restore) }
{
    let mut levels = [0i32; 5];
    let count = list_candidates(ideal, current, restore, &mut levels);
    Candidates { levels, count }
}
