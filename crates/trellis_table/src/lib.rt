// The table of the trellis: the rows of all positions from the last to the first, and the least cost over the counts.
#![tactic(auto)]

pub mod count;
pub mod exchange;
pub mod position;
