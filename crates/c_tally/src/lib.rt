// The tally, for programs in C and in other languages that call C. `include/rdoq.h` declares its calls.
#![tactic(auto)]

ghost use Rattle.std.specs.Prelude.{◌≡◌};
ghost use Rattle.coding.specs.Coding.{coding_of};
ghost use Rattle.tallying.specs.Uses.{tokens_of};
ghost use Rattle.tallying.specs.Tally.{tally_of, outcome_of, added, removed};

// Adds tokens to a tally.
#[unsafe(no_mangle)]
pub extern "C" fn rdoq_tally_add(
    clusters: u32,
    map: &[u8],
    configs: &[u8],
    contexts: &[u32],
    values: &[u32],
    counts: &mut [u32],
    extra: &mut u64,
) -> u32
    ensures { outcome_of result (tally_of counts.new extra.new)
        ≡ added (coding_of clusters map.now configs.now) (tokens_of contexts.now values.now) (tally_of counts.old extra.old) }
{
    let done = tally_calls::tally_add(clusters, map, configs, contexts, values, counts, extra);
    refusals::code(done)
}

// Takes tokens out of a tally.
#[unsafe(no_mangle)]
pub extern "C" fn rdoq_tally_remove(
    clusters: u32,
    map: &[u8],
    configs: &[u8],
    contexts: &[u32],
    values: &[u32],
    counts: &mut [u32],
    extra: &mut u64,
) -> u32
    ensures { outcome_of result (tally_of counts.new extra.new)
        ≡ removed (coding_of clusters map.now configs.now) (tokens_of contexts.now values.now) (tally_of counts.old extra.old) }
{
    let done = tally_calls::tally_remove(clusters, map, configs, contexts, values, counts, extra);
    refusals::code(done)
}
