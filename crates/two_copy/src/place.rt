use disk::{Block, Key};

/// What is kept of one key: its content at the last settle or restart, its present one, and whether it is firm.
#[derive(Clone, Copy)]
pub struct Place {
    pub key: Key,
    pub settled: Option<Block>,
    pub present: Option<Block>,
    // Says nothing of whether a content is there: each of the four ways of the two is a state of its own.
    pub firm: bool,
}
