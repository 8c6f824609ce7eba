// The level search for JPEG XL blocks: the public calls. Each takes anything, and answers a value or a refusal. A call's contract and code stand in a crate below:
// tokens and contexts in `token_calls`, bias, weights and candidates in `level_calls`, the price book in `book_calls`, a block's tokens out and back
// in `coded_calls`, the tally in `tally_calls`, the store of token runs in `store_calls`, a whole group in `group_calls`, the searches where `search` says.
pub mod group;
pub mod search;
pub mod tally;

pub use book_calls::{book, view};
pub use coded_calls::coded;
pub use level_calls::{dequant, levels, weighing};
pub use refusals::Refusal;
pub use store_calls::store;
pub use token_calls::{contexts, tokens};
