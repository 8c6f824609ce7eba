// The table of ANS prices, ready in code.
#![tactic(auto)]

pub mod table;
