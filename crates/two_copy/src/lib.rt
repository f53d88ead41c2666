#![tactic(auto)]

mod place;
mod two_copy;

pub use two_copy::TwoCopy;
