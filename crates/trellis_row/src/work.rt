// What a row of the trellis is worked out from.
ghost use Rattle.std.specs.Prelude.{◌≡◌, false, ◌≤◌};
ghost use Rattle.std.specs.Float.{inf};
ghost use Rattle.prices.specs.Contents.{contents};
ghost use Rattle.trellis_row.specs.Row.{tail_at, nonzero_tail, Workable};

use crate::row::Span;
use prices::book::PriceBook;
use steps::Place;
use steps::reading::CandidateList;

// What prices a level at the position, the candidates there, the costs of the next row and which of them may be read, the byte at which the row's
// choices begin, and its first and last count.
#[derive(Clone, Copy)]
pub struct Row<'a, 'p, 'c, 'n> {
    pub book: &'a PriceBook<'p>,
    pub place: Place,
    pub candidates: CandidateList<'c>,
    pub next: &'n [f32],
    pub span: Span,
    pub at: usize,
    pub least: usize,
    pub most: usize,
    ghost workable: { Workable (contents book.now) place candidates.levels.now next.now span most },
    ghost some: { least ≤ most },
}

impl Row<'_, '_, '_, '_> {
    // What follows where `r` nonzero levels come after the position.
    #[tactic(auto, unfolding(crate::specs::Row::tail_at))]
    pub fn tail_at(&self, r: usize, prev: usize) -> f32
        requires { prev ≤ 1 }
        ensures { result ≡ tail_at self.now.next.now self.now.span r prev }
    {
        let span = self.span;
        if r < span.from || span.upto < r {
            return costs::infinity();
        }
        self.next[2 * (r - span.base) + prev]
    }

    // What follows a nonzero level where `r` remain.
    #[tactic(auto, unfolding(crate::specs::Row::nonzero_tail))]
    pub fn nonzero_tail(&self, r: usize) -> f32
        ensures { result ≡ nonzero_tail self.now.next.now self.now.span r }
    {
        if r < 1 {
            return costs::infinity();
        }
        self.tail_at(r - 1, 1)
    }

    // What follows 0, whose index among the candidates is `zero`, 255 where it is not listed.
    pub(crate) fn zero_tail(&self, r: usize, zero: u8) -> f32
        ensures { (zero ≡ 255 → result ≡ inf false) × ((zero ≡ 255 → ⊥) → result ≡ tail_at self.now.next.now self.now.span r 0) }
    {
        if zero == 255 {
            return costs::infinity();
        }
        self.tail_at(r, 0)
    }
}
