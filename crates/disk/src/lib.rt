#![tactic(auto)]

mod block;
mod call;
mod disk;
mod key;
pub mod laws;
mod refusal;

pub use block::Block;
pub use call::{Call, Reply, cut_power, perform, perform_both};
pub use disk::Disk;
pub use key::Key;
pub use refusal::{Count, Refusal};
