// The context sheet: what is printed for a line.
#![tactic(auto)]

mod column;
pub mod line;
