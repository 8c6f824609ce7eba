// What a listed block reads from its neighbours' cells and writes into its own.
#![tactic(auto)]

ghost use Rattle.std.specs.Prelude.{◌≡◌, List, ◌∷◌, ◌+◌, ◌-◌, ◌*◌, ◌/◌, ◌≤◌, ◌<◌, Float, length, get_or};
ghost use Rattle.group_cells.specs.Cells.{Counted, predicted};
ghost use Rattle.group_cells.specs.Grid.{Grid};
ghost use Rattle.group_list.specs.Heads.{head_at, blocks_in, PlacedAt};

// How many numbers of each list are block i's.
pub fn size_at(words: &[u32], i: usize) -> usize
    requires { (i < blocks_in words.now) × PlacedAt words.now i }
    ensures { result ≡ 64 * (get_or words.now (8 * i + 2) 0 * get_or words.now (8 * i + 3) 0) }
{
    64 * (words[8 * i + 2] as usize * words[8 * i + 3] as usize)
}

// The count predicted for block i.
pub fn predicted_at(cells: &[u8], words: &[u32], i: usize) -> u8
    requires { (i < blocks_in words.now) × (PlacedAt words.now i × (length cells.now ≡ 3072)) }
    ensures { (reals : List Float) (done : List Counted) → Grid done cells.now → result ≡ predicted done (head_at words.now reals i) }
{
    let x = words[8 * i] as usize;
    let y = words[8 * i + 1] as usize;
    let channel = words[8 * i + 5] as usize;
    group_cells::predict_from_top_and_left(cells, channel, x, y)
}

// A count over the covered blocks, rounded up.
fn per_block(count: u32, covered: usize) -> u8
    requires { (1 ≤ covered) × ((covered ≤ 1024) × (count ≤ 63 * covered)) }
    ensures { result ≡ (count + covered - 1) / covered }
{
    ((count as usize + covered - 1) / covered) as u8
}

// Block i, settled with a count, writes its cells.
pub fn write_count(cells: &mut [u8], words: &[u32], i: usize, count: u32)
    requires i_bound { (i < blocks_in words.now) × (PlacedAt words.now i × (length cells.old ≡ 3072)) }
    requires count_bound { count ≤ 63 * (get_or words.now (8 * i + 2) 0 * get_or words.now (8 * i + 3) 0) }
    ensures { (reals : List Float) (done : List Counted) → Grid done cells.old → Grid (record { head = head_at words.now reals i; count = count } ∷ done) cells.new }
{
    let x = words[8 * i] as usize;
    let y = words[8 * i + 1] as usize;
    let cx = words[8 * i + 2] as usize;
    let cy = words[8 * i + 3] as usize;
    let channel = words[8 * i + 5] as usize;
    let value = per_block(count, cx * cy);
    group_cells::write_cells(cells, channel, x, y, cx, cy, value);
}
