// The beam's paths: at most three, with the choices that they came by.
#![tactic(auto)]

pub mod counts;
pub mod entry;
pub mod kept;

// At most three paths, in fixed memory, since there is no heap. The cost for `prev` p of path j stands at 2 j + p.
#[derive(Clone, Copy)]
pub struct Paths {
    pub count: usize,
    pub remaining: [usize; 3],
    pub costs: [f32; 6],
}

// The paths from a position on, and at 2 j + p the way that path j came by for `prev` p: the path behind the position, times 16, and the index of the candidate.
#[derive(Clone, Copy)]
pub struct Step {
    pub paths: Paths,
    pub choices: [u8; 6],
}
