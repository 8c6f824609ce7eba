// What is refused of a group's list before any search: 17, 7, the channel part of 9, 29, 30, 31, each over the whole list before the next.
#![tactic(auto)]

ghost use Rattle.std.specs.Prelude.{◌≡◌, true, ◌&&◌, ◌+◌, ◌*◌, ◌/◌, ◌%◌, ◌≤◌, ◌<◌, eqb, leb, get_or, length};
ghost use Rattle.ac_context.specs.Contexts.{is_power_below};
ghost use Rattle.group_cells.specs.Grid.{at};
ghost use Rattle.group_list.specs.Checks.{Tested, list_refusal, whole_blocks, sided, channelled, inside as Within};
ghost use Rattle.group_checks.specs.Marks.{Marks, free_row, free_cells, near_left, near_up, PlacesRefused};
ghost use Rattle.refusals.specs.Numbers.{code_of};

use refusals::Refusal;

// 17: whole blocks, 8 words and 7 floats each.
#[tactic(auto, unfolding(group_list::specs::Checks::whole_blocks))]
fn is_whole(words: &[u32], reals: &[f32]) -> bool
    ensures { result ≡ whole_blocks words.now reals.now }
{
    words.len() % 8 == 0 && reals.len() == 7 * (words.len() / 8)
}

fn are_sides(cx: u32, cy: u32) -> bool
    ensures { result ≡ (is_power_below 6 cx && is_power_below 6 cy) }
{
    block_checks::is_side(cx) && block_checks::is_side(cy)
}

// 7
fn sides(words: &[u32]) -> bool
    ensures { Tested sided words.now result }
{
    for i in 0..words.len() / 8 {
        if !are_sides(words[8 * i + 2], words[8 * i + 3]) {
            return false;
        }
    }
    true
}

// 9, of the channel
fn channels(words: &[u32]) -> bool
    ensures { Tested channelled words.now result }
{
    for i in 0..words.len() / 8 {
        if words[8 * i + 5] > 2 {
            return false;
        }
    }
    true
}

fn is_inside(x: u32, y: u32, cx: u32, cy: u32) -> bool
    ensures { result ≡ (leb (x + cx) 32 && leb (y + cy) 32) }
{
    x as usize + cx as usize <= 32 && y as usize + cy as usize <= 32
}

// 29
fn inside(words: &[u32]) -> bool
    ensures { Tested Within words.now result }
{
    for i in 0..words.len() / 8 {
        if !is_inside(
            words[8 * i],
            words[8 * i + 1],
            words[8 * i + 2],
            words[8 * i + 3],
        ) {
            return false;
        }
    }
    true
}

// Whether n cells from `start` on are unmarked.
fn free_row(marks: &[u8], start: usize, n: usize) -> bool
    requires { start + n ≤ length marks.now }
    ensures { result ≡ free_row marks.now start n }
{
    marks[start..start + n].iter().all(|&mark| mark == 0)
}

// Whether the cx by cy cells of a channel from (x, y) on are.
fn free_cells(marks: &[u8], channel: usize, x: usize, y: usize, cx: usize, cy: usize) -> bool
    requires marks_len { length marks.now ≡ 3072 }
    requires channel_bound { (channel ≤ 2) × ((x + cx ≤ 32) × (y + cy ≤ 32)) }
    ensures { result ≡ free_cells marks.now channel x y cx cy }
{
    for j in 0..cy {
        if !free_row(marks, 1024 * channel + 32 * (y + j) + x, cx) {
            return false;
        }
    }
    true
}

// Whether the cell left of (x, y) is marked, where there is one.
#[tactic(auto, unfolding(crate::specs::Marks::near_left))]
fn near_left(marks: &[u8], channel: usize, x: usize, y: usize) -> bool
    requires marks_len { length marks.now ≡ 3072 }
    requires channel_bound { (channel ≤ 2) × ((x < 32) × (y < 32)) }
    ensures { result ≡ near_left marks.now channel x y }
{
    x == 0 || marks[1024 * channel + 32 * y + (x - 1)] != 0
}

// Whether the cell above (x, y) is.
#[tactic(auto, unfolding(crate::specs::Marks::near_up))]
fn near_up(marks: &[u8], channel: usize, x: usize, y: usize) -> bool
    requires marks_len { length marks.now ≡ 3072 }
    requires channel_bound { (channel ≤ 2) × ((x < 32) × (y < 32)) }
    ensures { result ≡ near_up marks.now channel x y }
{
    y == 0 || marks[1024 * channel + 32 * (y - 1) + x] != 0
}

// 30 and 31, of a list that passed 7, 9 and 29. A block's cells are marked once it is tested, so that the whole is linear. 31 waits for the end of the list, since 30 comes first.
#[tactic(auto, using(crate::proofs::Marks::placed_at))]
fn places_on(words: &[u32], marks: &mut [u8]) -> Result<(), Refusal>
    requires marks { Marks words.now 0 marks.old }
    requires tested { Tested sided words.now true × (Tested channelled words.now true × Tested Within words.now true) }
    ensures { PlacesRefused words.now (code_of result) }
{
    let mut neighboured = true;
    for i in 0..words.len() / 8 {
        let x = words[8 * i] as usize;
        let y = words[8 * i + 1] as usize;
        let cx = words[8 * i + 2] as usize;
        let cy = words[8 * i + 3] as usize;
        let channel = words[8 * i + 5] as usize;
        if !free_cells(marks, channel, x, y, cx, cy) {
            return Err(Refusal::Overlap);
        }
        let left = near_left(marks, channel, x, y);
        let up = near_up(marks, channel, x, y);
        neighboured = neighboured && left && up;
        group_cells::write_cells(marks, channel, x, y, cx, cy, 1);
    }
    if neighboured {
        Ok(())
    } else {
        Err(Refusal::NeighbourMissing)
    }
}

fn places(words: &[u32]) -> Result<(), Refusal>
    requires { Tested sided words.now true × (Tested channelled words.now true × Tested Within words.now true) }
    ensures { PlacesRefused words.now (code_of result) }
{
    let mut marks = [0u8; 3072];
    places_on(words, &mut marks)
}

// The first of 17, 7, 9, 29, 30, 31 that the list meets.
#[tactic(auto, unfolding(group_list::specs::Checks::list_refusal, group_list::specs::Checks::heads_refusal, laws::specs::Refusals::first_refused))]
pub fn check_list(words: &[u32], reals: &[f32]) -> Result<(), Refusal>
    ensures { code_of result ≡ list_refusal words.now reals.now }
{
    if !is_whole(words, reals) {
        return Err(Refusal::Domain);
    }
    if !sides(words) {
        return Err(Refusal::BlockSide);
    }
    if !channels(words) {
        return Err(Refusal::Strategy);
    }
    if !inside(words) {
        return Err(Refusal::OutsideGroup);
    }
    places(words)
}
