// A tally of what a batch uses: how often each symbol of each cluster, and how many extra bits in all. The caller keeps both, all 0 to begin with, and lends them to
// each call; any tally is taken as it is. Tokens come as two lists, the context and the value of each, with the code that they are written by: the number of
// clusters, the cluster of each context, and three bytes of configuration a cluster. A symbol above 127 is counted as 127.
//
// A call refuses by checks 1 to 4 of the code (128 counts a cluster belong to 2), by 17 where the lists differ in length, a context is above 14,849 or a value
// above 131,071, then by 27 or 28. A refused call leaves the tally as it was.
#![tactic(auto)]

ghost use Rattle.std.specs.Prelude.{◌≡◌, length};
ghost use Rattle.refusals.specs.Numbers.{code_of};
ghost use Rattle.coding.specs.Checked.{coding_in};
ghost use Rattle.coding.specs.Coding.{coding_of};
ghost use Rattle.laws.specs.Refusals.{first_refused};
ghost use Rattle.tallying.specs.Checked.{tokens_in};
ghost use Rattle.tallying.specs.Uses.{tokens_of};
ghost use Rattle.tallying.specs.Tally.{tally_of, outcome_of, shared_checks, added, removed};
ghost use Rattle.tallying.specs.Changes.{outcome};

use coding::code::Code;
use refusals::Refusal;
use tallying::Change;
use tallying::tokens::Tokens;

// Adds tokens, or takes them out: all of them or none.
fn change_tally(
    change: Change,
    code: &Code,
    tokens: &Tokens,
    counts: &mut [u32],
    extra: &mut u64,
) -> Result<(), Refusal>
    requires { first_refused (shared_checks (coding_in code.now) (tokens_in tokens.now) (length counts.old)) 0 ≡ 0 }
    ensures { outcome_of (code_of result) (tally_of counts.new extra.new)
        ≡ outcome change (coding_in code.now) (tokens_in tokens.now) (tally_of counts.old extra.old) }
{
    let mut total = *extra;
    if let Err(done) = tallying::count_tokens(change, code, tokens, counts, &mut total) {
        // Those that were counted are counted back. Each has room for that.
        let counted = Tokens {
            contexts: &tokens.contexts[..done],
            values: &tokens.values[..done],
        };
        let _ = tallying::count_tokens(change.opposite(), code, &counted, counts, &mut total);
        return Err(match change {
            Change::Add => Refusal::TallyFull,
            Change::Remove => Refusal::TallyEmpty,
        });
    }
    *extra = total;
    Ok(())
}

// Adds tokens. 27: a count would pass 2^32 - 1, or the total 2^64 - 1.
pub fn tally_add(
    clusters: u32,
    map: &[u8],
    configs: &[u8],
    contexts: &[u32],
    values: &[u32],
    counts: &mut [u32],
    extra: &mut u64,
) -> Result<(), Refusal>
    ensures { outcome_of (code_of result) (tally_of counts.new extra.new)
        ≡ added (coding_of clusters map.now configs.now) (tokens_of contexts.now values.now) (tally_of counts.old extra.old) }
{
    let (code, tokens) = tallying::check_tokens(
        clusters,
        map,
        configs,
        contexts,
        values,
        counts.len(),
    )?;
    change_tally(Change::Add, &code, &tokens, counts, extra)
}

// Takes tokens out. 28: a count or the total would fall below 0. It does not matter which call added them.
pub fn tally_remove(
    clusters: u32,
    map: &[u8],
    configs: &[u8],
    contexts: &[u32],
    values: &[u32],
    counts: &mut [u32],
    extra: &mut u64,
) -> Result<(), Refusal>
    ensures { outcome_of (code_of result) (tally_of counts.new extra.new)
        ≡ removed (coding_of clusters map.now configs.now) (tokens_of contexts.now values.now) (tally_of counts.old extra.old) }
{
    let (code, tokens) = tallying::check_tokens(
        clusters,
        map,
        configs,
        contexts,
        values,
        counts.len(),
    )?;
    change_tally(Change::Remove, &code, &tokens, counts, extra)
}
