// Checks 1 to 4 of a call that codes tokens and prices none.
#![tactic(auto)]

pub mod code;

ghost use Rattle.std.specs.Prelude.{◌≡◌};
ghost use Rattle.refusals.specs.Numbers.{code_of};
ghost use Rattle.laws.specs.Refusals.{first_refused};
ghost use Rattle.coding.specs.Coding.{coding_of, coding_checks};
ghost use Rattle.coding.specs.Checked.{IsChecked};

use code::Code;
use refusals::Refusal;

// Checks 1 to 4. `others`: whether the other lists that the caller was lent for each cluster have their lengths, which is part of 2, between 1 and 3.
#[tactic(auto, unfolding(crate::specs::Coding::coding_checks, laws::specs::Refusals::first_refused))]
pub fn check_coding(clusters: u32, map: &[u8], configs: &[u8], others: bool) -> Result<(), Refusal>
    ensures { code_of result ≡ first_refused (coding_checks (coding_of clusters map.now configs.now) others) 0 }
{
    if map.len() != 14850 || clusters == 0 || clusters > 256 {
        return Err(Refusal::MapLength);
    }
    let n = clusters as usize;
    if configs.len() != 3 * n || !others {
        return Err(Refusal::BookLength);
    }
    if !book_checks::map_below(map, clusters) {
        return Err(Refusal::MapEntry);
    }
    if !book_checks::configs_valid(configs, n) {
        return Err(Refusal::Configuration);
    }
    Ok(())
}

// The code, once it has passed its checks.
pub fn checked_code<'a>(
    clusters: u32,
    map: &'a [u8],
    configs: &'a [u8],
    others: bool,
) -> Result<Code<'a>, Refusal>
    ensures { IsChecked (coding_of clusters map.now configs.now) others result }
{
    check_coding(clusters, map, configs, others)?;
    Ok(Code {
        clusters,
        map,
        configs,
    })
}
