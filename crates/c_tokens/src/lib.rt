// The tokens of a block, out and back, for programs in C and in other languages that call C. `include/rdoq.h` declares the calls.
#![tactic(auto)]

ghost use Rattle.std.specs.Prelude.{◌≡◌};
ghost use Rattle.block_tokens.specs.Outcome.{given_of};
ghost use Rattle.block_tokens.specs.Promise.{Write, Read};
ghost use Rattle.block_tokens.specs.Writing.{outputs};
ghost use Rattle.c_answers.specs.Parts.{shape_of};
ghost use Rattle.c_tokens.specs.Told.{Told};

use block::Shape;

// Writes the tokens of a block, and their number.
#[unsafe(no_mangle)]
pub extern "C" fn rdoq_write_tokens(
    clusters: u32,
    map: &[u8],
    configs: &[u8],
    cx: u32,
    cy: u32,
    strategy: u8,
    channel: u8,
    qf_hi: bool,
    predicted: u8,
    scan: &[u32],
    levels: &[i32],
    contexts: &mut [u32],
    symbols: &mut [u32],
    extra_bits: &mut [u32],
    bits: &mut [u32],
    count: &mut u32,
) -> u32
    ensures { Told (λ reply. Write (given_of clusters map.now configs.now (shape_of cx cy strategy channel qf_hi predicted) scan.now) levels.now
        (outputs contexts.old symbols.old extra_bits.old bits.old) reply
        (outputs contexts.new symbols.new extra_bits.new bits.new))
        count.old result count.new }
{
    let written = coded_calls::coded::write_tokens(
        clusters,
        map,
        configs,
        Shape {
            cx,
            cy,
            strategy,
            channel,
            qf_hi,
            predicted,
        },
        scan,
        levels,
        contexts,
        symbols,
        extra_bits,
        bits,
    );
    c_answers::tell(written, count)
}

// Restores the levels of a block from its tokens, and writes the number of these.
#[unsafe(no_mangle)]
pub extern "C" fn rdoq_read_tokens(
    clusters: u32,
    map: &[u8],
    configs: &[u8],
    cx: u32,
    cy: u32,
    strategy: u8,
    channel: u8,
    qf_hi: bool,
    predicted: u8,
    scan: &[u32],
    symbols: &[u32],
    bits: &[u32],
    levels: &mut [i32],
    count: &mut u32,
) -> u32
    ensures { Told (λ reply. Read (given_of clusters map.now configs.now (shape_of cx cy strategy channel qf_hi predicted) scan.now)
        symbols.now bits.now levels.old reply levels.new)
        count.old result count.new }
{
    let read = coded_calls::coded::read_tokens(
        clusters,
        map,
        configs,
        Shape {
            cx,
            cy,
            strategy,
            channel,
            qf_hi,
            predicted,
        },
        scan,
        symbols,
        bits,
        levels,
    );
    c_answers::tell(read, count)
}
