// The searches, for programs in C and in other languages that call C. `include/rdoq.h` declares their call.
#![tactic(auto)]

pub mod candidate_list;

ghost use Rattle.block.specs.Block.{block_of};
ghost use Rattle.block.specs.Outcome.{lent_of};
ghost use Rattle.prices.specs.Book.{book_of};
ghost use Rattle.c_answers.specs.Parts.{shape_of, settings_of, bias_of};
ghost use Rattle.c_named.specs.Named.{reply_of};
ghost use Rattle.c_search.specs.Search.{Promised};

use bias::DequantBias;
use block::{BlockData, Shape};
use c_answers::tell_answer;
use rooms::Room;
use searches::Search;
use weights::Settings;

// Re-picks the levels of a block: 0 is greedy, 1 the beam, 2 the trellis, 3 the trellis by the unfactored walk.
#[unsafe(no_mangle)]
pub extern "C" fn rdoq_block(
    search: u32,
    clusters: u32,
    map: &[u8],
    configs: &[u8],
    symbols: &[f32],
    ready: &[f32],
    cx: u32,
    cy: u32,
    strategy: u8,
    channel: u8,
    qf_hi: bool,
    predicted: u8,
    channel_weight: f32,
    lambda: f32,
    penalty: f32,
    distance: f32,
    half_width: u32,
    one: f32,
    numerator: f32,
    scale: f32,
    scan: &[u32],
    source: &[f32],
    inv_qm: &[f32],
    levels: &mut [i32],
    choices: &mut [u8],
    row_a: &mut [f32],
    row_b: &mut [f32],
    cost: &mut f32,
    count: &mut u32,
) -> u32
    ensures { Promised search half_width
        (book_of clusters map.now configs.now symbols.now ready.now)
        (block_of (shape_of cx cy strategy channel qf_hi predicted) (settings_of channel_weight lambda penalty distance) (bias_of one numerator) scale
        scan.now source.now inv_qm.now levels.old)
        (lent_of levels.old choices.old row_a.old row_b.old) cost.old count.old
        (reply_of result cost.new count.new (lent_of levels.new choices.new row_a.new row_b.new)) }
{
    // The C interface: a refusal is a number here, so that `?` does not serve.
    let search = match Search::try_from(search) {
        Ok(search) => search,
        Err(refusal) => return refusal.number(),
    };
    let view = price_view::new(clusters, map, configs, symbols, ready);
    // C hands each number over by itself: a function that put them together would take as many.
    let block = BlockData {
        shape: Shape {
            cx,
            cy,
            strategy,
            channel,
            qf_hi,
            predicted,
        },
        settings: Settings {
            channel_weight,
            lambda,
            penalty,
            distance,
        },
        bias: DequantBias { one, numerator },
        scale,
        scan,
        source,
        inv_qm,
    };
    let mut room = Room {
        choices,
        row_a,
        row_b,
    };
    let answer = searches::rdoq_block(search, &view, &block, half_width, levels, &mut room);
    tell_answer(answer, cost, count)
}
