// A search by its number, as callers in C give it.
ghost use Rattle.std.specs.Prelude.{◌≡◌};
ghost use Rattle.searches.specs.Named.{IsNamed, search_named};

use crate::Search;
use refusals::Refusal;

// The search that a number from 0 to 3 names.
#[tactic(auto, unfolding(crate::specs::Named::search_named))]
pub fn named(number: u32) -> Search
    ensures { result ≡ search_named number }
{
    match number {
        0 => Search::Greedy,
        1 => Search::Beam,
        2 => Search::Trellis,
        _ => Search::Unfactored,
    }
}

impl TryFrom<u32> for Search {
    type Error = Refusal;

    ghost try_from_gives = { IsNamed };

    fn try_from(number: u32) -> Result<Search, Refusal> {
        if number > 3 {
            return Err(Refusal::Domain);
        }
        Ok(named(number))
    }
}
