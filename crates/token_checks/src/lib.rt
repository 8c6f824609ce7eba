// What both calls on a block's tokens check first.
#![tactic(auto)]

ghost use Rattle.std.specs.Prelude.{◌≡◌};
ghost use Rattle.laws.specs.Refusals.{first_refused};
ghost use Rattle.block_tokens.specs.Outcome.{given_of, shape_checks};
ghost use Rattle.refusals.specs.Numbers.{code_of};
ghost use Rattle.token_checks.specs.Checked.{IsChecked};

use block::Shape;
use coding::code::Code;
use refusals::Refusal;

// Checks 7, 8, 9 and 18. (No plainer as one function with `block_checks`: 8 stands between the others, and is of other lists.)
#[tactic(auto, unfolding(block_tokens::specs::Outcome::shape_checks, block_tokens::specs::Tokens::covered_by, laws::specs::Refusals::first_refused))]
fn check_shape(shape: Shape, levels: usize, scan: usize) -> Result<(), Refusal>
    ensures { code_of result ≡ first_refused (shape_checks shape levels scan) 0 }
{
    if !block_checks::is_side(shape.cx) || !block_checks::is_side(shape.cy) {
        return Err(Refusal::BlockSide);
    }
    let covered = block_checks::covered_blocks(shape.cx, shape.cy);
    if levels != 64 * covered || scan != 64 * covered {
        return Err(Refusal::BlockLength);
    }
    if !block_checks::is_coded(shape.strategy, shape.channel) {
        return Err(Refusal::Strategy);
    }
    if !block_checks::fits(shape.strategy, covered) {
        return Err(Refusal::Sides);
    }
    Ok(())
}

// Checks 1 to 4, 7, 8, 9, 18 and 11: the code, once all that is lent has passed.
pub fn check_lent<'a>(
    clusters: u32,
    map: &'a [u8],
    configs: &'a [u8],
    shape: Shape,
    scan: &[u32],
    levels: &[i32],
) -> Result<Code<'a>, Refusal>
    ensures { IsChecked (given_of clusters map.now configs.now shape scan.now) levels.now result }
{
    let code = coding::checked_code(clusters, map, configs, true)?;
    check_shape(shape, levels.len(), scan.len())?;
    if !scan::each_once(scan) {
        return Err(Refusal::Scan);
    }
    Ok(code)
}
