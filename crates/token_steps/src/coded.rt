// The levels of a block that have tokens.
ghost use Rattle.std.specs.Prelude.{◌≡◌, ◌-◌, length};
ghost use Rattle.block.specs.Block.{nonzeros_among};
ghost use Rattle.block_tokens.specs.Passed.{Scanned};

use crate::layout::Layout;

// A block's levels in their scan order, and how many of them are nonzero from scan position c on.
#[derive(Clone, Copy)]
pub struct Coded<'a> {
    pub layout: Layout,
    pub scan: &'a [u32],
    pub levels: &'a [i32],
    pub count: usize,
    ghost scanned: { Scanned layout.shape scan.now levels.now },
    ghost counted: { count ≡ nonzeros_among scan.now levels.now layout.covered (length scan.now - layout.covered) },
}
