// A block's record through the searches, one after the other, each on the levels as read.
#![tactic(auto)]

ghost use Rattle.std.specs.Prelude.{◌≡◌, ◌≤◌, length};
ghost use Rattle.block.specs.Answer.{answer_of};
ghost use Rattle.block.specs.Data.{block_with};
ghost use Rattle.block_file.specs.Within.{BlockInside};
ghost use Rattle.block_lists.specs.Lengths.{BookHeld};
ghost use Rattle.price_view.specs.View.{book_in};
ghost use Rattle.rooms.specs.Lending.{lent_in, result_in};
ghost use Rattle.searches.specs.Outcome.{Promised};

use block::{Answer, BlockData};
use block_file::record::BlockRecord;
use block_lists::{BookLengths, Lists};
use price_view::PriceView;
use rooms::Room;
use search_lines::OUT;
use searches::Search;

// Searches on a copy of the levels.
fn run(
    search: Search,
    view: &PriceView,
    block: &BlockData,
    half_width: u32,
    levels: &[i32],
    work: &mut [i32],
    room: &mut Room,
) -> Answer
    requires { length levels.now ≡ length work.old }
    ensures { Promised half_width search
        (book_in view.now)
        (block_with block.now levels.now)
        (lent_in levels.now room.old)
        (result_in (answer_of result) work.new room.new) }
{
    work.copy_from_slice(levels);
    searches::rdoq_block(search, view, block, half_width, work, room)
}

// The name of a search, as it stands in its line.
fn name_of(search: Search) -> &'static [u8]
    ensures { length result.now ≤ 12 }
{
    match search {
        Search::Greedy => b" Greedy ",
        Search::Beam => b" Beam ",
        Search::Trellis => b" Trellis ",
        Search::Unfactored => b" Unfactored ",
    }
}

// Where the next line goes: how much of `out` is used, and the number of the block.
#[derive(Clone, Copy)]
pub struct Line {
    pub number: u64,
    pub used: usize,
}

// Searches a block by each search in turn, and prints a line for each. Answers how much of `out` is used then.
fn search_all(
    view: &PriceView,
    block: &BlockData,
    half_width: u32,
    levels: &[i32],
    work: &mut [i32],
    room: &mut Room,
    out: &mut [u8; OUT],
    line: Line,
) -> usize
    requires { (length levels.now ≡ length work.old) × (line.used ≤ 65536) }
    ensures { result ≤ 65536 }
{
    let mut used = line.used;
    for search in [
        Search::Greedy,
        Search::Beam,
        Search::Trellis,
        Search::Unfactored,
    ] {
        let answer = run(search, view, block, half_width, levels, work, room);
        used = search_lines::print_line(
            out,
            used,
            line.number,
            name_of(search),
            answer,
            levels,
            work,
        );
    }
    used
}

// Searches the block of a record under the latest book, in rooms of the lengths asked for. Answers how much of `out` is used then.
pub fn search_block(
    bytes: &[u8],
    found: BlockRecord,
    book: BookLengths,
    half_width: u32,
    lists: &mut Lists,
    out: &mut [u8; OUT],
    line: Line,
) -> usize
    requires block_within { BlockInside found (length bytes.now) }
    requires book_held { BookHeld book }
    requires used_bound { line.used ≤ 65536 }
    ensures { result ≤ 65536 }
{
    block_lists::copy_block(bytes, found, lists);
    let head = found.head;
    let rooms = found.rooms;
    let count = found.levels.count;
    let view = PriceView {
        clusters: book.clusters,
        map: &lists.map[..book.map],
        configs: &lists.configs[..book.configs],
        symbols: &lists.symbols[..book.symbols],
        ready: &lists.ready[..book.ready],
    };
    let block = BlockData {
        shape: head.shape,
        settings: head.settings,
        bias: head.bias,
        scale: head.scale,
        scan: &lists.scan[..found.scan.count],
        source: &lists.source[..found.source.count],
        inv_qm: &lists.inv_qm[..found.inverse.count],
    };
    let work = &mut lists.work[..];
    let choices = &mut lists.choices[..];
    let row_a = &mut lists.row_a[..];
    let row_b = &mut lists.row_b[..];
    search_all(
        &view,
        &block,
        half_width,
        &lists.levels[..count],
        &mut work[..count],
        &mut Room {
            choices: &mut choices[..rooms.choices],
            row_a: &mut row_a[..rooms.row_a],
            row_b: &mut row_b[..rooms.row_b],
        },
        out,
        line,
    )
}
