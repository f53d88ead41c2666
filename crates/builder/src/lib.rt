//! The builder's calls on a disk.
#![tactic(auto)]

mod edits;
mod pages;
mod shelf;

pub use edits::{lay, take};
pub use pages::show;
pub use shelf::Shelf;
