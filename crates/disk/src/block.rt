ghost use Rattle.std.specs.Prelude.{◌≡◌, ◌<◌, ◌≤◌, [], ◌++◌, length, drop, MatchOption};
ghost use Rattle.names.specs.Limits.{block_max};

use names::limits::BLOCK_MAX;

/// The bytes that one key shows. The first `len` of them count.
// No `InlineVec`, whose length takes a whole word: a place of the sheet disk holds two blocks, and has to fit 2,100 bytes.
#[derive(Clone, Copy)]
pub struct Block {
    bytes: [u8; BLOCK_MAX],
    len: u16,
    ghost short: { len ≤ block_max },
}

impl Block {
    ghost use Rattle.disk.specs.Blocks.{bytes_of};

    /// A block of no bytes.
    pub fn empty() -> Block
        ensures { bytes_of result ≡ [] }
    {
        Block {
            bytes: [0; BLOCK_MAX],
            len: 0,
        }
    }

    /// The block of the bytes, if they fit.
    pub fn new(bytes: &[u8]) -> Option<Block>
        ensures { MatchOption result (block_max < length bytes.now) (λ b. bytes_of b ≡ bytes.now) }
    {
        let len = bytes.len();
        if len > BLOCK_MAX {
            return None;
        }
        let mut front = [0; BLOCK_MAX];
        front[0..len].copy_from_slice(bytes);
        Some(Block {
            bytes: front,
            len: len as u16,
        })
    }

    /// Copies the bytes to the front of the buffer, and says how many they are.
    pub fn copy_into(&self, into: &mut [u8; BLOCK_MAX]) -> usize
        ensures many { result ≡ length (bytes_of self.now) }
        ensures after { into.new ≡ bytes_of self.now ++ drop result into.old }
    {
        let len = self.len as usize;
        into[0..len].copy_from_slice(&self.bytes[0..len]);
        len
    }
}
