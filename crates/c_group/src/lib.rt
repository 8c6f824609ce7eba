// A whole group in order, for programs in C and in other languages that call C. `include/rdoq.h` declares its call.
#![tactic(auto)]

ghost use Rattle.std.specs.Prelude.{◌≡◌};
ghost use Rattle.block.specs.Outcome.{lent_of};
ghost use Rattle.group_run.specs.Demand.{settled_in};
ghost use Rattle.group_run.specs.Group.{group_of};
ghost use Rattle.prices.specs.Book.{book_of};
ghost use Rattle.c_group.specs.Group.{Promised, code_of, reply_of};

use group_run::Answer;
use rooms::Room;
use searches::Search;

// Writes how many blocks are settled, and returns 0 or the refusal.
#[tactic(auto, unfolding(crate::specs::Group::code_of, group_run::specs::Demand::settled_in))]
fn tell_group(answer: Answer, settled: &mut u32) -> u32
    ensures { (result ≡ code_of (group_of answer)) × (settled.new ≡ settled_in (group_of answer)) }
{
    match answer {
        Ok(number) => {
            *settled = number;
            0
        }
        Err(stopped) => {
            *settled = stopped.settled;
            stopped.refusal.number()
        }
    }
}

// Re-picks the levels of a group's blocks, in the order of the list. The searches are numbered as those of `rdoq_block`.
#[unsafe(no_mangle)]
pub extern "C" fn rdoq_group(
    search: u32,
    clusters: u32,
    map: &[u8],
    configs: &[u8],
    symbols: &[f32],
    ready: &[f32],
    blocks: &[u32],
    settings: &[f32],
    scans: &[u32],
    sources: &[f32],
    inv_qms: &[f32],
    levels: &mut [i32],
    choices: &mut [u8],
    row_a: &mut [f32],
    row_b: &mut [f32],
    settled: &mut u32,
) -> u32
    ensures { Promised search (book_of clusters map.now configs.now symbols.now ready.now) blocks.now settings.now
        (record { scans = scans.now; sources = sources.now; inverses = inv_qms.now; levels = levels.old })
        (record { choices = choices.old; row_a = row_a.old; row_b = row_b.old })
        (reply_of result settled.new (lent_of levels.new choices.new row_a.new row_b.new)) }
{
    // The C interface: a refusal is a number here, so that `?` does not serve.
    let search = match Search::try_from(search) {
        Ok(search) => search,
        Err(refusal) => {
            *settled = 0;
            return refusal.number();
        }
    };
    let view = price_view::new(clusters, map, configs, symbols, ready);
    let mut room = Room {
        choices,
        row_a,
        row_b,
    };
    let answer = group_calls::rdoq_group(
        search, &view, blocks, settings, scans, sources, inv_qms, levels, &mut room,
    );
    tell_group(answer, settled)
}
