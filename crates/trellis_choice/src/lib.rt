// One position of the trellis: the local costs of its candidates in one context, and the level of one state.
#![tactic(auto)]

pub mod chosen;
pub mod locals;
