//! Drafts, commits and stamps.
#![tactic(auto)]

mod draft;
pub mod laws;
mod shown;
pub mod stamp;
mod stamped;

pub use draft::{Draft, commit};
pub use stamp::draw;
pub use stamped::{ReadError, Stamped};
