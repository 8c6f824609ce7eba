// A whole group in order: every block of a list searched with the count predicted from the blocks before it.
#![tactic(auto)]

ghost use Rattle.std.specs.Prelude.{◌≡◌, ◌&&◌, [], ◌-◌, ◌≤◌, leb, length};
ghost use Rattle.rooms.specs.Lending.{SameBuffers, lent_in};
ghost use Rattle.group_cells.specs.Grid.{Grid};
ghost use Rattle.group_list.specs.Checks.{list_refusal};
ghost use Rattle.group_block.specs.Lists.{numbers_in, room_in};
ghost use Rattle.group_run.specs.Demand.{Promised};
ghost use Rattle.group_run.specs.Group.{group_of};
ghost use Rattle.price_view.specs.View.{book_in};
ghost use Rattle.prices.specs.Contents.{contents};
ghost use Rattle.group_calls.specs.Ran.{Ran};

use group_block::lists::{Lists, Part};
use group_run::{Answer, Stopped};
use price_view::PriceView;
use prices::book::PriceBook;
use refusals::Refusal;
use rooms::Room;
use searches::Search;

// Check 8: whether the part's n numbers are left of each list, behind the first `at`.
fn enough(lists: &Lists, part: Part, levels: &[i32]) -> bool
    requires { (part.at ≤ length lists.now.scans.now) × ((part.at ≤ length lists.now.sources.now) × ((part.at ≤ length lists.now.inv_qms.now) × (part.at ≤ length levels.now))) }
    ensures { result ≡ (leb part.n (length lists.now.scans.now - part.at) && (leb part.n (length lists.now.sources.now - part.at) && (leb part.n (length lists.now.inv_qms.now - part.at) && leb part.n (length levels.now - part.at)))) }
{
    let Part { at, n, .. } = part;
    n <= lists.scans.len() - at
        && n <= lists.sources.len() - at
        && n <= lists.inv_qms.len() - at
        && n <= levels.len() - at
}

// Settles the blocks of a list that passed its checks until one is refused. `cells` are all 0.
fn run_list(
    search: Search,
    book: &PriceBook,
    lists: &Lists,
    levels: &mut [i32],
    room: &mut Room,
    cells: &mut [u8],
) -> Answer
    requires passed { list_refusal lists.now.words.now lists.now.reals.now ≡ 0 }
    requires grid { Grid [] cells.old }
    ensures same { SameBuffers room.old room.new }
    ensures ran { Ran search (contents book.now) lists.now.words.now lists.now.reals.now
        (numbers_in lists.now levels.old)
        (room_in room.old)
        (group_of result) (lent_in levels.new room.new) }
{
    let blocks = lists.words.len() / 8;
    let mut at = 0;
    for index in 0..blocks {
        let settled = index as u32;
        let n = group_counts::size_at(lists.words, index);
        let part = Part { index, at, n };
        if !enough(lists, part, levels) {
            return Err(Stopped {
                refusal: Refusal::BlockLength,
                settled,
            });
        }
        group_block::settle_part(search, book, lists, part, levels, room, cells).map_err(
            |refusal| Stopped { refusal, settled },
        )?;
        at += n;
    }
    Ok(blocks as u32)
}

// A list that is refused before any search.
fn before_any(refusal: Refusal) -> Stopped
    ensures { result ≡ record { refusal = refusal; settled = 0 } }
{
    Stopped {
        refusal,
        settled: 0,
    }
}

// Searches every block of a group's list, in order. `blocks` has eight words a block: x, y, cx, cy, strategy, channel, quant class (0 is low), half-width; `settings` seven
// floats: channel weight, lambda, penalty, distance, the bias `one` and its numerator, scale. The four lists of numbers lie block after block. The book is checked once. The lists are flat, as C lends them.
pub fn rdoq_group(
    search: Search,
    view: &PriceView,
    blocks: &[u32],
    settings: &[f32],
    scans: &[u32],
    sources: &[f32],
    inv_qms: &[f32],
    levels: &mut [i32],
    room: &mut Room,
) -> Answer
    ensures same { SameBuffers room.old room.new }
    ensures outcome { Promised search (book_in view.now) blocks.now settings.now
        (record { scans = scans.now; sources = sources.now; inverses = inv_qms.now; levels = levels.old })
        (room_in room.old)
        (group_of result) (lent_in levels.new room.new) }
{
    let book = book_checks::checked_book(view).map_err(before_any)?;
    group_checks::check_list(blocks, settings).map_err(before_any)?;
    let lists = Lists {
        words: blocks,
        reals: settings,
        scans,
        sources,
        inv_qms,
    };
    let mut cells = [0u8; 3072];
    run_list(search, &book, &lists, levels, room, &mut cells)
}
