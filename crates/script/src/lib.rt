#![tactic(auto)]

mod candidates;
mod entry;
pub mod laws;
mod lines;
mod page;
mod run;
mod template;
mod word;

pub use candidates::{Candidate, Candidates};
pub use entry::{Entries, Kind};
pub use page::{Page, PageFull};
pub use run::{Question, Run};
pub use word::{Mode, Rest, Spelled, Word};
