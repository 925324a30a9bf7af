//! The calls of a page of a real file: the edge whose words no contract tells, kept to a few lines.

ghost use Rattle.std.specs.Prelude.{◌≡◌, ◌*◌, ◌-◌, vec_len};
ghost use Rattle.vm_page.specs.Counts.{count_more};
ghost use Rattle.vm_page.specs.Sizes.{IsSize};
ghost use Rattle.vm_device.specs.Edge.{CountsNothing};

use crate::file_block::FileBlock;
use crate::sync::SyncBlock;
use std::fs::File;
use std::os::unix::fs::FileExt;
use vm_block::{Block, PageBlock};
use vm_page::{Failed, PageBuf};

impl<const N: usize> FileBlock<N> {
    /// The page whose bytes begin at this offset of the file, and room for its bytes, with nothing counted.
    pub fn new(file: File, at: u64, bytes: Vec<u8>) -> FileBlock<N>
        requires sized { IsSize N }
        requires room { vec_len bytes ≡ 8 * N }
        ensures { CountsNothing result }
    {
        FileBlock {
            file,
            at,
            bytes,
            reads: 0,
            writes: 0,
            syncs: 0,
            faults: 0,
        }
    }

    // Counts a call that failed.
    #[tactic(auto, unfolding(vm_page::specs::Counts::count_more))]
    fn fail(&mut self) -> Failed
        ensures { self.new ≡ record self.old { faults = count_more self.old.faults } }
    {
        self.faults = self.faults.saturating_add(1);
        Failed
    }
}

impl<const N: usize> Block for FileBlock<N> {
    ghost use Rattle.std.specs.Prelude.{false};
    ghost use Rattle.std.proofs.Common.{arith};
    ghost use Rattle.vm_device.specs.Edge.{file_stored};

    ghost tells = { false };

    ghost stored = { file_stored };

    fn reads(&self) -> u64 {
        self.reads
    }

    fn writes(&self) -> u64 {
        self.writes
    }

    fn faults(&self) -> u64 {
        self.faults
    }

    ghost bounded = { λ block. Prim.omega arith };

    ghost capped = { λ block. Prim.omega arith };
}

#[tactic(auto, unfolding(vm_page::specs::Counts::count_more))]
impl<const N: usize> PageBlock<N> for FileBlock<N> {
    ghost use Rattle.std.proofs.Common.{arith};

    fn read(&mut self, into: &mut PageBuf<N>) -> Result<(), Failed> {
        let bytes = self.bytes.as_mut_slice();
        match self.file.read_exact_at(bytes, self.at) {
            Ok(()) => {
                into.copy_from(&PageBuf::of_slice(bytes));
                self.reads = self.reads.saturating_add(1);
                Ok(())
            }
            Err(_) => Err(self.fail()),
        }
    }

    fn write(&mut self, words: &PageBuf<N>) -> Result<(), Failed> {
        let bytes = self.bytes.as_mut_slice();
        words.put_bytes(bytes);
        match self.file.write_all_at(bytes, self.at) {
            Ok(()) => {
                self.writes = self.writes.saturating_add(1);
                Ok(())
            }
            Err(_) => Err(self.fail()),
        }
    }

    ghost whole = { λ block e. cc };
}

#[tactic(auto, unfolding(vm_page::specs::Counts::count_more))]
impl<const N: usize> SyncBlock<N> for FileBlock<N> {
    ghost asked = { λ block. block.syncs };

    fn sync(&mut self) -> Result<(), Failed> {
        self.syncs = self.syncs.saturating_add(1);
        match self.file.sync_data() {
            Ok(()) => Ok(()),
            Err(_) => Err(self.fail()),
        }
    }
}
