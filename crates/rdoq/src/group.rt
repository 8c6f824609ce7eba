// A whole group in order.
pub use group_calls::rdoq_group;
pub use group_run::{Answer, Stopped};
