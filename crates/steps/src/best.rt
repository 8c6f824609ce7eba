// The first least of some costs.
ghost use Rattle.std.specs.Prelude.{◌≡◌};
ghost use Rattle.steps.specs.Best.{considered};

// A cost, and the choice that has it.
#[derive(Clone, Copy)]
pub struct Best<T> {
    pub cost: f32,
    pub choice: T,
}

impl<T: Copy> Best<T> {
    // Of equal costs the first met stays.
    #[tactic(auto, unfolding(crate::specs::Best::considered))]
    pub fn consider(self, cost: f32, choice: T) -> Best<T>
        ensures { result ≡ considered self cost choice }
    {
        if cost < self.cost {
            return Best { cost, choice };
        }
        self
    }
}
