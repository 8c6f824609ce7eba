// What a candidate costs the greedy search at a position, and the first of the cheapest.
#![tactic(auto)]

pub mod cost;
pub mod run;
