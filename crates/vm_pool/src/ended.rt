//! What is left of a pool that was closed.

ghost use Rattle.std.specs.Prelude.{◌≡◌, map};

use vm_block::Block;
use vm_owner::Owner;
use vm_rule::words::Knew;

/// A pool that was closed: the blocks in the order of their pages, the least page number that was not claimed, and what is known of the end.
pub struct Closed<U: Owner, B> {
    pub blocks: Vec<B>,
    pub next: u32,
    pub ended: Ended<U>,
}

/// That a pool was closed, with what the blocks had counted then, together. For proofs it has the view of the pass that closed the pool.
/// Nothing but the end of a pool makes one.
#[derive(Drop)]
pub struct Ended<U: Owner> {
    pub(crate) knew: Knew<U::Said>,
    pub(crate) reads: u64,
    pub(crate) writes: u64,
    pub(crate) faults: u64,
}

impl<U: Owner> Ended<U> {
    ghost use Rattle.vm_pool.specs.Closing.{AreSums};

    /// How many reads the blocks answered, up to the greatest `u64`.
    pub fn reads(&self) -> u64
        ensures { result ≡ self.now.reads }
    {
        self.reads
    }

    /// How many writes the blocks answered, up to the greatest `u64`.
    pub fn writes(&self) -> u64
        ensures { result ≡ self.now.writes }
    {
        self.writes
    }

    /// How many calls of the blocks failed, up to the greatest `u64`.
    pub fn faults(&self) -> u64
        ensures { result ≡ self.now.faults }
    {
        self.faults
    }

    /// The end of a pool with these blocks.
    pub(crate) fn of<B: Block>(knew: Knew<U::Said>, blocks: &[B]) -> Ended<U>
        ensures knew { result.knew ≡ knew }
        ensures sums { AreSums (map B.stored blocks.now) result }
    {
        let mut reads: u64 = 0;
        let mut writes: u64 = 0;
        let mut faults: u64 = 0;
        for block in blocks {
            reads = reads.saturating_add(block.reads());
            writes = writes.saturating_add(block.writes());
            faults = faults.saturating_add(block.faults());
        }
        Ended {
            knew,
            reads,
            writes,
            faults,
        }
    }
}
