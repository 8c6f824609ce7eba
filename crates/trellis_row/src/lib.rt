// One position of the trellis: the costs of its states from those of the position after it.
#![tactic(auto)]

pub mod row;
pub mod work;
