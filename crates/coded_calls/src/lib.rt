// The public calls on the tokens of a block.
#![tactic(auto)]

pub mod coded;
