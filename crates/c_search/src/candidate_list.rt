// The candidates of a coefficient, for C. They stand beside the searches, not among the leaves: with two callers in one object the list of candidates stays a function of
// its own there, and what a position offers is small enough to be inlined into each search (docs/PERFORMANCE.md).
ghost use Rattle.std.specs.Prelude.{◌≡◌};
ghost use Rattle.c_answers.specs.Told.{listed_code, levels_after, listed_count_after};
ghost use Rattle.level_calls.specs.Levels.{candidates_reply};

use refusals::Refusal;

// Writes the levels that may be picked for a coefficient, and how many there are. Past the count stands 0, or where the level may be restored the current level.
// Asks for room for five levels.
#[tactic(auto, unfolding(c_answers::specs::Told::listed_code, c_answers::specs::Told::levels_after, c_answers::specs::Told::listed_count_after))]
#[unsafe(no_mangle)]
pub extern "C" fn rdoq_candidates(
    ideal: f32,
    current: i32,
    restore: bool,
    levels: &mut [i32],
    count: &mut u32,
) -> u32
    ensures value { result ≡ listed_code (candidates_reply ideal current restore) levels.old }
    ensures levels_after { levels.new ≡ levels_after (candidates_reply ideal current restore) levels.old }
    ensures count_after { count.new ≡ listed_count_after (candidates_reply ideal current restore) levels.old count.old }
{
    if levels.len() != 5 {
        return Refusal::Domain.number();
    }
    match level_calls::levels::rdoq_candidates(ideal, current, restore) {
        Ok(found) => {
            levels.copy_from_slice(&found.levels);
            *count = found.count as u32;
            0
        }
        Err(refusal) => refusal.number(),
    }
}
