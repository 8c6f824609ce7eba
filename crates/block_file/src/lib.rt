// The block file: price books and blocks as bytes, and the lines that are printed for a block.
#![tactic(auto)]

pub mod fields;
pub mod line;
pub mod load;
pub mod record;
