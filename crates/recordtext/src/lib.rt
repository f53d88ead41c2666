#![tactic(auto)]

mod answer;
pub mod hex;
mod parse;
pub mod words;

pub use answer::{answer_to, record_told, told_of};
