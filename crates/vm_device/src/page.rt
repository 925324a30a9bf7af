//! A page's block in memory, some of whose syncs fail.

ghost use Rattle.std.specs.Prelude.{◌≡◌, IfOk, is_ok, not, true};
ghost use Rattle.vm_page.specs.Counts.{count_more};
ghost use Rattle.vm_page.specs.Sizes.{IsSize};
ghost use Rattle.vm_device.specs.Devices.{Syncs};
ghost use Rattle.vm_device.specs.Memory.{IsNewPage, fails_sync, page_stored};

use crate::sync::SyncBlock;
use std::alloc::{AllocError, Global};
use vm_block::{Block, MemBlock, PageBlock};
use vm_page::{Failed, PageBuf};

/// A block in memory. Beside the reads and writes of the block's plan, the syncs fail whose numbers are in a plan of their own, from 1.
#[derive(Drop)]
pub struct MemPage<const N: usize> {
    block: MemBlock<N>,
    plan: Vec<u64>,
    syncs: u64,
    failed: u64,
}

impl<const N: usize> MemPage<N> {
    /// A block with these words, with nothing counted: `calls` has the numbers of the reads and writes that fail, numbered together, and `syncs` those
    /// of the syncs.
    pub fn new(
        alloc: Global,
        words: PageBuf<N>,
        calls: &[u64],
        syncs: &[u64],
    ) -> Result<MemPage<N>, AllocError>
        requires { IsSize N }
        ensures { IfOk result (λ page. IsNewPage page words.entry calls.now syncs.now) }
    {
        Ok(MemPage {
            block: MemBlock::new(alloc, words, calls)?,
            plan: Vec::from_slice(alloc, syncs)?,
            syncs: 0,
            failed: 0,
        })
    }

    /// The words held.
    pub fn words(&self) -> &PageBuf<N>
        ensures { result.now ≡ (page_stored self.now).words }
    {
        self.block.words()
    }
}

impl<const N: usize> Block for MemPage<N> {
    ghost use Rattle.std.specs.Prelude.{true};
    ghost use Rattle.std.proofs.Common.{arith};
    ghost use Rattle.vm_device.specs.Memory.{page_stored};

    ghost tells = { true };

    ghost stored = { page_stored };

    fn reads(&self) -> u64 {
        self.block.reads()
    }

    fn writes(&self) -> u64 {
        self.block.writes()
    }

    fn faults(&self) -> u64 {
        self.block.faults().saturating_add(self.failed)
    }

    ghost bounded = { λ page. Prim.omega arith };

    ghost capped = { λ page. Prim.omega arith };
}

#[tactic(auto, unfolding(vm_page::specs::Counts::count_more))]
impl<const N: usize> PageBlock<N> for MemPage<N> {
    fn read(&mut self, into: &mut PageBuf<N>) -> Result<(), Failed> {
        self.block.read(into)
    }

    fn write(&mut self, words: &PageBuf<N>) -> Result<(), Failed> {
        self.block.write(words)
    }

    ghost whole = { λ page _. page.block.whole };
}

#[tactic(auto, unfolding(vm_page::specs::Counts::count_more))]
impl<const N: usize> SyncBlock<N> for MemPage<N> {
    ghost asked = { λ page. page.syncs };

    fn sync(&mut self) -> Result<(), Failed>
        ensures stored { Syncs true (page_stored self.old) (page_stored self.new) result }
        ensures asked { self.new.syncs ≡ count_more self.old.syncs }
        ensures exact { is_ok result ≡ not (fails_sync self.old) }
    {
        self.syncs = self.syncs.saturating_add(1);
        if self.plan.contains(&self.syncs) {
            self.failed = self.failed.saturating_add(1);
            return Err(Failed);
        }
        Ok(())
    }
}
