//! The calls of a block in memory.

ghost use Rattle.std.specs.Prelude.{◌≡◌, ◌-◌, length, true, IfOk, is_ok, not};
ghost use Rattle.vm_page.specs.Sizes.{IsSize};
ghost use Rattle.vm_block.specs.Blocks.{Reads, Writes};
ghost use Rattle.vm_block.specs.Memory.{stored_of, words_of, fails_next, IsBlockFrom, IsNewBlock, IsNextCall};

use crate::block::{Block, PageBlock};
use crate::memory::MemBlock;
use crate::plan::Plan;
use std::alloc::{AllocError, Global};
use vm_page::{Failed, PageBuf};

impl<const N: usize> MemBlock<N> {
    /// A block that holds the words and fails exactly the calls whose numbers are in the plan. Reads and writes are numbered together,
    /// from 1; a call past number 2^64 - 1 has no number, and does not fail.
    #[tactic(auto, using(crate::proofs::Counting::counted_from_none))]
    pub fn new(alloc: Global, words: PageBuf<N>, plan: &[u64]) -> Result<MemBlock<N>, AllocError>
        requires size { IsSize N }
        ensures { IfOk result (λ block. IsNewBlock block words.entry plan.now) }
    {
        MemBlock::with_count(alloc, words, plan, 0)
    }

    /// The same, with a count of faults that starts at `count`. It stands still at 2^64 - 1.
    #[tactic(auto, using(vm_page::proofs::Sizes::size_some))]
    pub fn with_count(
        alloc: Global,
        words: PageBuf<N>,
        plan: &[u64],
        count: u64,
    ) -> Result<MemBlock<N>, AllocError>
        requires size { IsSize N }
        ensures { IfOk result (λ block. IsBlockFrom block words.entry plan.now count) }
    {
        // A page has its words.
        let _ = words.get(0);
        Ok(MemBlock {
            words: Box::new(alloc, words)?,
            plan: Plan::new(alloc, plan, count)?,
            reads: 0,
            writes: 0,
        })
    }

    /// The words held.
    pub fn words(&self) -> &PageBuf<N>
        ensures words { result.now ≡ words_of self.now }
        ensures length { length result.now ≡ N }
    {
        &self.words
    }
}

impl<const N: usize> Block for MemBlock<N> {
    ghost use Rattle.std.specs.Prelude.{true};
    ghost use Rattle.std.proofs.Common.{arith};
    ghost use Rattle.vm_block.specs.Memory.{stored_of};

    ghost tells = { true };

    ghost stored = { stored_of };

    fn reads(&self) -> u64 {
        self.reads
    }

    fn writes(&self) -> u64 {
        self.writes
    }

    fn faults(&self) -> u64 {
        self.plan.faults
    }

    ghost bounded = { λ block. block.plan.within };

    ghost capped = { λ block. Prim.omega arith };
}

#[tactic(auto, unfolding(vm_page::specs::Counts::count_more))]
impl<const N: usize> PageBlock<N> for MemBlock<N> {
    fn read(&mut self, into: &mut PageBuf<N>) -> Result<(), Failed>
        ensures stored { Reads N true (stored_of self.old) (stored_of self.new) into.new result }
        ensures exact { is_ok result ≡ not (fails_next self.old) }
        ensures next { IsNextCall self.old self.new }
    {
        if self.plan.fails() {
            return Err(Failed);
        }
        into.copy_from(&self.words);
        self.reads = self.reads.saturating_add(1);
        Ok(())
    }

    fn write(&mut self, words: &PageBuf<N>) -> Result<(), Failed>
        ensures stored { Writes true (stored_of self.old) (stored_of self.new) words.now result }
        ensures exact { is_ok result ≡ not (fails_next self.old) }
        ensures next { IsNextCall self.old self.new }
    {
        // The words are taken over only once the plan lets the call through.
        if self.plan.fails() {
            return Err(Failed);
        }
        self.words.copy_from(words);
        self.writes = self.writes.saturating_add(1);
        Ok(())
    }

    ghost whole = { λ block _. block.whole };
}
