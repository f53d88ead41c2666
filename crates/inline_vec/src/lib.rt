//! Vectors of a fixed capacity that lie in the value itself, and are copied as it is.
#![tactic(auto)]

mod inline_vec;

pub use inline_vec::{Full, InlineVec};
