// What a list of a group answers.
#![tactic(auto)]

use refusals::Refusal;

// The refusal at which a list stopped, and how many blocks were settled before.
#[derive(Clone, Copy, Debug, PartialEq, Eq)]
pub struct Stopped {
    pub refusal: Refusal,
    pub settled: u32,
}

// The number of blocks settled, all of them; or where the list stopped.
pub type Answer = Result<u32, Stopped>;
