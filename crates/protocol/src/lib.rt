//! Lines in, commands out; answers in, lines out: what the programs share.
#![tactic(auto)]

mod answer;
mod command;
pub mod decimal;
pub mod line_buffer;
pub mod substitute;

pub use answer::Answer;
pub use command::Command;
pub use line_buffer::LineBuffer;
pub use substitute::{BAR, NEWLINE, replace};
