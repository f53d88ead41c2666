#![tactic(auto)]

mod cause;
pub mod fault;
mod frame;
mod script_fault;
pub mod trail;

pub use cause::Cause;
pub use fault::{Failed, Fault};
pub use frame::Frame;
pub use script_fault::ScriptFault;
pub use trail::Trail;
