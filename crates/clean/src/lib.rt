#![tactic(auto)]

pub mod chain;
pub mod evaluate;
pub mod files;
pub mod laws;
pub mod status;

pub use chain::Chain;
pub use faults::{Cause, Failed, Fault};
pub use files::Files;
