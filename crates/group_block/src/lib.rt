// One block of a group's list: read from the list, searched where its numbers lie, and its count written into its cells.
#![tactic(auto)]

pub mod lists;

ghost use Rattle.std.specs.Prelude.{◌≡◌, ◌<◌, min, length};
ghost use Rattle.block.specs.Answer.{answer_of};
ghost use Rattle.block.specs.Block.{covered};
ghost use Rattle.rooms.specs.Lending.{SameBuffers, lent_in, result_in};
ghost use Rattle.prices.specs.Contents.{contents};
ghost use Rattle.searches.specs.Outcome.{search_outcome};
ghost use Rattle.group_run.specs.Block.{shape_of, settings_of, bias_of, size};
ghost use Rattle.weights.specs.Window.{window_of};
ghost use Rattle.group_block.specs.Part.{in_place, block_from, Stepped};
ghost use Rattle.group_block.specs.Lists.{head_in, numbers_in, room_in, IsListed, IsLent};

use bias::DequantBias;
use block::{Answer, BlockData, Shape};
use block_checks::Limits;
use lists::{Lists, Part};
use prices::book::PriceBook;
use rooms::Room;
use searches::Search;
use weights::Settings;

// x, or 255 where it is more: any strategy above 26 is refused by check 9.
fn narrow(x: u32) -> u8
    ensures { result ≡ min x 255 }
{
    x.min(255) as u8
}

// Block i's shape.
#[tactic(auto, unfolding(group_list::specs::Heads::head_at))]
fn shape_at(lists: &Lists, i: usize, predicted: u8) -> Shape
    requires { IsListed i lists.now }
    ensures { result ≡ shape_of (head_in lists.now i) predicted }
{
    let words = lists.words;
    let strategy = narrow(words[8 * i + 4]);
    let channel = words[8 * i + 5] as u8;
    Shape {
        cx: words[8 * i + 2],
        cy: words[8 * i + 3],
        strategy,
        channel,
        qf_hi: words[8 * i + 6] != 0,
        predicted,
    }
}

// Block i's settings.
#[tactic(auto, unfolding(group_list::specs::Heads::head_at))]
fn settings_at(lists: &Lists, i: usize) -> Settings
    requires { IsListed i lists.now }
    ensures { result ≡ settings_of (head_in lists.now i) }
{
    let reals = lists.reals;
    Settings {
        channel_weight: reals[7 * i],
        lambda: reals[7 * i + 1],
        penalty: reals[7 * i + 2],
        distance: reals[7 * i + 3],
    }
}

// Block i's bias.
#[tactic(auto, unfolding(group_list::specs::Heads::head_at))]
fn bias_at(lists: &Lists, i: usize) -> DequantBias
    requires { IsListed i lists.now }
    ensures { result ≡ bias_of (head_in lists.now i) }
{
    DequantBias {
        one: lists.reals[7 * i + 4],
        numerator: lists.reals[7 * i + 5],
    }
}

// Searches a block with the count predicted for it.
fn search_at(
    search: Search,
    book: &PriceBook,
    lists: &Lists,
    part: Part,
    predicted: u8,
    levels: &mut [i32],
    room: &mut Room,
) -> Answer
    requires listed { IsListed part.index lists.now }
    requires lent { IsLent part lists.now levels.old }
    ensures same { SameBuffers room.old room.new }
    ensures outcome { let h = head_in lists.now part.index in
        let b = block_from h (numbers_in lists.now levels.old) part.at part.n predicted levels.old in
        result_in (answer_of result) levels.new room.new
        ≡ in_place part.at part.n levels.old (search_outcome h.half_width (window_of (covered b)) search (contents book.now) b
        (lent_in b.levels room.old)) }
{
    let Part { index, at, n } = part;
    let end = at + n;
    let block = BlockData {
        shape: shape_at(lists, index, predicted),
        settings: settings_at(lists, index),
        bias: bias_at(lists, index),
        scale: lists.reals[7 * index + 6],
        scan: &lists.scans[at..end],
        source: &lists.sources[at..end],
        inv_qm: &lists.inv_qms[at..end],
    };
    searches::rdoq_block_checked(
        search,
        book,
        &block,
        &mut levels[at..end],
        room,
        Limits {
            half_width: lists.words[8 * index + 7],
            cap: weights::WINDOW_CAP,
        },
    )
}

// Settles a block: searched with the count that the cells predict, it writes its own count into its cells.
pub fn settle_part(
    search: Search,
    book: &PriceBook,
    lists: &Lists,
    part: Part,
    levels: &mut [i32],
    room: &mut Room,
    cells: &mut [u8],
) -> Answer
    requires listed { IsListed part.index lists.now }
    requires n_is_size { part.n ≡ size (head_in lists.now part.index) }
    requires lent { IsLent part lists.now levels.old }
    requires cells_len { length cells.old ≡ 3072 }
    ensures same { SameBuffers room.old room.new }
    ensures stepped { Stepped search (contents book.now)
        (head_in lists.now part.index)
        (numbers_in lists.now levels.old) part.at levels.old
        (room_in room.old) cells.old
        (result_in (answer_of result) levels.new room.new) cells.new }
{
    let predicted = group_counts::predicted_at(cells, lists.words, part.index);
    let picked = search_at(search, book, lists, part, predicted, levels, room)?;
    group_counts::write_count(cells, lists.words, part.index, picked.count);
    Ok(picked)
}
