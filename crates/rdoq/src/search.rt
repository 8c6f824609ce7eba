// The searches for a block's levels. The caller lends a view of the price book (see `view`), the block's data, the levels, which a search replaces, and the working
// room. No length and no content is asked for: what can't be used is refused, and a refused block keeps every level. Each call's contract stands over its code, in
// the crate named here.
pub use beam::rdoq_block_beam;
pub use bias::DequantBias;
pub use block::{Answer, BlockData, Picked, Shape};
pub use greedy::rdoq_block_greedy;
pub use input_cost::rdoq_input_cost;
pub use rooms::Room;
pub use searches::{Search, rdoq_block};
pub use trellis::{Walk, rdoq_block_banded};
pub use weights::Settings;
