// The cost of a block's levels as they stand, for programs in C and in other languages that call C. `include/rdoq.h` declares its call.
#![tactic(auto)]

ghost use Rattle.block.specs.Block.{block_of};
ghost use Rattle.prices.specs.Book.{book_of};
ghost use Rattle.c_answers.specs.Parts.{shape_of, settings_of, bias_of};
ghost use Rattle.c_input.specs.Input.{reply_of, Promised};

use bias::DequantBias;
use block::{BlockData, Shape};
use c_answers::tell_answer;
use weights::Settings;

// Writes what the levels cost as they stand, and how many of them are nonzero.
#[unsafe(no_mangle)]
pub extern "C" fn rdoq_input_cost(
    clusters: u32,
    map: &[u8],
    configs: &[u8],
    symbols: &[f32],
    ready: &[f32],
    cx: u32,
    cy: u32,
    strategy: u8,
    channel: u8,
    qf_hi: bool,
    predicted: u8,
    channel_weight: f32,
    lambda: f32,
    penalty: f32,
    distance: f32,
    one: f32,
    numerator: f32,
    scale: f32,
    scan: &[u32],
    source: &[f32],
    inv_qm: &[f32],
    levels: &[i32],
    cost: &mut f32,
    count: &mut u32,
) -> u32
    ensures { Promised
        (book_of clusters map.now configs.now symbols.now ready.now)
        (block_of (shape_of cx cy strategy channel qf_hi predicted) (settings_of channel_weight lambda penalty distance) (bias_of one numerator) scale
        scan.now source.now inv_qm.now levels.now)
        cost.old count.old (reply_of result cost.new count.new) }
{
    let view = price_view::new(clusters, map, configs, symbols, ready);
    // C hands each number over by itself: a function that put them together would take as many.
    let block = BlockData {
        shape: Shape {
            cx,
            cy,
            strategy,
            channel,
            qf_hi,
            predicted,
        },
        settings: Settings {
            channel_weight,
            lambda,
            penalty,
            distance,
        },
        bias: DequantBias { one, numerator },
        scale,
        scan,
        source,
        inv_qm,
    };
    tell_answer(
        input_cost::rdoq_input_cost(&view, &block, levels),
        cost,
        count,
    )
}
