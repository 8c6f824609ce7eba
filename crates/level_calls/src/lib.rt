// The calls on levels: what a decoder restores from one, what its error weighs, and which may be picked. `rdoq` passes them on.
#![tactic(auto)]

pub mod dequant;
pub mod levels;
pub mod weighing;
