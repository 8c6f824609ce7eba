// The use of symbols in a batch: counts by cluster and symbol and the total of extra bits, which the caller keeps. Each call's contract stands over its code.
pub use tally_calls::{tally_add, tally_remove};
