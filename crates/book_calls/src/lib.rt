// The calls on a price book, lent in its parts or as a view. `rdoq` passes them on.
#![tactic(auto)]

pub mod book;
pub mod view;
