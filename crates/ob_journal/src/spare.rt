//! Memory that is kept for the next move.
ghost use Rattle.std.specs.Prelude.{◌≡◌, []};

use std::alloc::Global;
use std::cell::Cell;

// How many bytes of it are kept at most.
const MOST_KEPT: usize = 16_777_216;

/// Memory for the next move. The system gives new memory page by page, which takes longer than to write into some that is there.
/// Nothing that it holds is read.
#[derive(Drop)]
pub struct Spare {
    bytes: Cell<Vec<u8>>,
}

impl Spare {
    /// None yet.
    pub fn new(alloc: Global) -> Self {
        Spare {
            bytes: Cell::new(Vec::new(alloc)),
        }
    }

    /// Takes what is kept, without a byte in it.
    pub fn take(&self, alloc: Global) -> Vec<u8>
        ensures { result.items ≡ [] }
    {
        let mut bytes = self.bytes.replace(Vec::new(alloc));
        bytes.clear();
        bytes
    }

    /// Keeps memory that isn't used any more, 16 MiB of it at most.
    pub fn keep(&self, bytes: Vec<u8>) {
        let mut bytes = bytes;
        bytes.clear();
        bytes.shrink_to(MOST_KEPT);
        self.bytes.set(bytes);
    }
}
