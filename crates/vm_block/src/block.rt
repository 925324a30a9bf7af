//! The traits of blocks: each is the storage of one page, which is read and written whole.

ghost use Rattle.std.specs.Prelude.{◌≡◌, ◌-◌, ◌^◌, ◌≤◌, length, true};
ghost use Rattle.vm_block.specs.Blocks.{Reads, Writes};

use vm_page::{Failed, PageBuf};

/// The storage of one page: what it holds and has counted, whatever the number of words of its page.
pub trait Block {
    ghost use Rattle.std.specs.Prelude.{Bool};
    ghost use Rattle.vm_block.specs.declared.stored.Stored.{Stored};

    /// Whether this kind of block tells its words.
    ghost tells: { Bool };

    /// What the block holds and has counted.
    ghost stored: { Self → Stored };

    /// How many reads answered, up to the greatest `u64`.
    fn reads(&self) -> u64
        ensures { result ≡ (stored self.now).reads };

    /// How many writes answered, up to the greatest `u64`.
    fn writes(&self) -> u64
        ensures { result ≡ (stored self.now).writes };

    /// How many calls failed, up to the greatest `u64`.
    fn faults(&self) -> u64
        ensures { result ≡ (stored self.now).count };

    /// No more calls fail than the bound says.
    ghost bounded: { (b : Self) → (stored b).count ≤ (stored b).bound };

    /// The bound is a number that the count can reach.
    ghost capped: { (b : Self) → (stored b).bound ≤ 2 ^ 64 - 1 };
}

/// The storage of a page of `N` words, which is read and written whole.
pub trait PageBlock<const N: usize>: Block {
    /// Reads the page. After a failure the buffer may hold anything.
    fn read(&mut self, into: &mut PageBuf<N>) -> Result<(), Failed>
        ensures { Reads N Self.tells (Self.stored self.old) (Self.stored self.new) into.new result };

    /// Writes the page. A failure leaves the words that were held.
    fn write(&mut self, words: &PageBuf<N>) -> Result<(), Failed>
        ensures { Writes Self.tells (Self.stored self.old) (Self.stored self.new) words.now result };

    /// The words held are a page's.
    ghost whole: { (b : Self) → Self.tells ≡ true → length (Self.stored b).words ≡ N };
}
