use disk::{Block, Key};

/// A key that was read, with its bytes; or an empty hold.
#[derive(Clone, Copy)]
pub struct Hold {
    // At `None` the block means nothing. No `Option` of both: a hold is a struct of the table that is refilled and emptied
    // in place, with the block as it was.
    pub key: Option<Key>,
    pub block: Block,
}
