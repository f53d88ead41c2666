#![tactic(auto)]

mod cache;
mod hold;
mod quota;

pub use cache::ReadCache;
pub use quota::Quota;
