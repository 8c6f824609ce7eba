// What a block's shape gives.
ghost use Rattle.std.specs.Prelude.{◌≡◌};
ghost use Rattle.token_steps.specs.Layout.{LaidOut};

use block::Shape;

// The covered blocks of a shape and their logarithm, its first coefficient context, and its count's context.
#[derive(Clone, Copy)]
pub struct Layout {
    pub shape: Shape,
    pub covered: usize,
    pub log2: u32,
    pub offset: usize,
    pub count_context: usize,
    ghost laid: { LaidOut shape covered log2 offset count_context },
}

// A layout's four numbers by themselves, of whatever shape.
#[derive(Clone, Copy)]
pub struct LayoutNumbers {
    pub covered: usize,
    pub log2: u32,
    pub offset: usize,
    pub count_context: usize,
}

impl Layout {
    pub fn numbers(self) -> LayoutNumbers
        ensures { result ≡ record { covered = self.covered; log2 = self.log2; offset = self.offset; count_context = self.count_context } }
    {
        LayoutNumbers {
            covered: self.covered,
            log2: self.log2,
            offset: self.offset,
            count_context: self.count_context,
        }
    }
}
