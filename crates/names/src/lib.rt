#![tactic(auto)]

mod judge;
pub mod laws;
pub mod limits;
mod name;

pub use judge::is_name;
pub use name::Name;
