// The calls on tokens: a level as a number, a number as a symbol with extra bits, and the contexts. `rdoq` passes them on.
#![tactic(auto)]

pub mod contexts;
pub mod tokens;
