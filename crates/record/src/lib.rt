#![tactic(auto)]

mod buffer;
mod decode;
mod entries;
mod entry;
mod finished;
mod form;
pub mod limits;
mod view;
mod writer;

pub use entries::Entries;
pub use entry::{Entry, Kind, NoKind};
pub use finished::Record;
pub use inline_vec::Full;
pub use view::RecordView;
pub use writer::RecordWriter;
