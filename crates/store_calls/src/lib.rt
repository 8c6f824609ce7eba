// The public calls on a store of token runs.
#![tactic(auto)]

pub mod store;
