// The levels that a search may pick for one coefficient.
ghost use Rattle.std.specs.Prelude.{◌≡◌};
ghost use Rattle.level_calls.specs.Levels.{candidates_reply};

use candidates::Candidates;
use refusals::Refusal;

// The candidates, the current level first. Takes a level and an ideal within ±32,767.
#[tactic(auto, unfolding(crate::specs::Levels::candidates_reply))]
pub fn rdoq_candidates(ideal: f32, current: i32, restore: bool) -> Result<Candidates, Refusal>
    ensures { result ≡ candidates_reply ideal current restore }
{
    if !candidates::is_ideal(ideal) || !candidates::is_current(current) {
        return Err(Refusal::Domain);
    }
    Ok(candidates::rdoq_candidates(ideal, current, restore))
}
