//! Tables whose pages all stand in frames: they begin evicted, and each is brought into a frame.
ghost use Rattle.std.specs.Prelude.{[], ◌<◌, ◌≡◌, ◌≤◌, false, IfOk, length, None, ℕ};
ghost use Rattle.vm_event.specs.Prelude.{MAX_VERSION};
ghost use Rattle.vm_page.specs.Sizes.{IsSize};
ghost use Rattle.vm_rule.specs.Prelude.{seat_of};
ghost use Rattle.vm_step.specs.Prelude.{IsReadyOn, view};

use std::alloc::Global;
use std::test::Fail;
use vm_block::{Block, MemBlock, PageBlock};
use vm_exmap::{Alloc, Interface};
use vm_fault::{Fetch, fault_in};
use vm_owner::Bare;
use vm_page::{PageBuf, WORDS};
use vm_rule::words::{Pass, Words};

/// So many blocks of zeros, which answer every call.
fn zeros<const N: usize>(alloc: Global, n: u32) -> Result<Vec<MemBlock<N>>, Fail>
    requires { IsSize N }
    ensures { IfOk result (λ blocks. length blocks.items ≡ n) }
{
    if n == 0 {
        return Ok(Vec::new(alloc));
    }
    let mut blocks = zeros(alloc, n - 1)?;
    blocks.push(MemBlock::new(alloc, PageBuf::zero(), &[])?)?;
    Ok(blocks)
}

/// Brings page `p`, which is evicted, into the lowest free frame.
fn bring<B: PageBlock<N>, const N: usize>(
    words: &Words<Bare, B>,
    pass: &mut Pass<Bare>,
    p: u32,
) -> Result<(), Fail>
    requires sized { IsSize N }
    requires size { N ≡ words.now.table.shared.key.size }
    requires ready { IsReadyOn words.now B.tells pass.old }
    requires page { p < words.now.table.shared.key.pages }
    requires out { (view pass.old).out ≡ None }
    ensures ready { IfOk result (λ _. IsReadyOn words.now B.tells pass.new) }
    ensures start { IfOk result (λ _. (view pass.new).start ≡ (view pass.old).start) }
    ensures out { IfOk result (λ _. (view pass.new).out ≡ None) }
    ensures owed { IfOk result (λ _. (view pass.new).owed ≡ (view pass.old).owed) }
    ensures writing { IfOk result (λ _. (q : ℕ) → (seat_of (view pass.new) q).writing ≡ (seat_of (view pass.old) q).writing) }
{
    let mut iface = Interface::new(0, 1);
    let Alloc::Batch(batch) = iface.alloc(words, pass, 1) else {
        return Err(Fail::from("no frame is free"));
    };
    let Fetch::Brought = fault_in::<Bare, B, N>(words, pass, p, batch.as_slice()[0]) else {
        return Err(Fail::from("the page cannot be read"));
    };
    Ok(())
}

/// A table with a page for each of these blocks (1 to 65536), and its first pass. Page `p` stands in frame `p`, clean and unlocked at this
/// version, which is at least 1: it began evicted at the version before, and was brought in.
pub fn resident<B: PageBlock<N> + Drop, const N: usize>(
    alloc: Global,
    blocks: Vec<B>,
    version: u64,
) -> Result<(Words<Bare, B>, Pass<Bare>), Fail>
    requires sized { IsSize N }
    requires count { (1 ≤ length blocks.items) × (length blocks.items ≤ 65536) }
    requires version { (1 ≤ version) × (version ≤ MAX_VERSION) }
    ensures size { IfOk result (λ made. made.0.table.shared.key.size ≡ N) }
    ensures pages { IfOk result (λ made. made.0.table.shared.key.pages ≡ length blocks.items) }
    ensures frames { IfOk result (λ made. made.0.table.shared.key.frames ≡ length blocks.items) }
    ensures ready { IfOk result (λ made. IsReadyOn made.0 B.tells made.1) }
    ensures next { IfOk result (λ made. (view made.1).start.next ≡ length blocks.items) }
    ensures out { IfOk result (λ made. (view made.1).out ≡ None) }
    ensures owed { IfOk result (λ made. (view made.1).owed ≡ []) }
    ensures writing { IfOk result (λ made. (q : ℕ) → (seat_of (view made.1) q).writing ≡ false) }
{
    let count = blocks.len() as u32;
    let (words, mut pass) = Words::started(alloc, N, count, count, version - 1, blocks, &[], &[])?;
    for p in 0..count {
        bring::<B, N>(&words, &mut pass, p)?;
    }
    Ok((words, pass))
}

/// Such a table of `n` pages of zeros (1 to 65536).
pub fn zero_pages(
    alloc: Global,
    n: u32,
    version: u64,
) -> Result<(Words<Bare, MemBlock<WORDS>>, Pass<Bare>), Fail>
    requires count { (1 ≤ n) × (n ≤ 65536) }
    requires version { (1 ≤ version) × (version ≤ MAX_VERSION) }
    ensures size { IfOk result (λ made. made.0.table.shared.key.size ≡ WORDS) }
    ensures pages { IfOk result (λ made. made.0.table.shared.key.pages ≡ n) }
    ensures ready { IfOk result (λ made. IsReadyOn made.0 ⟦<MemBlock<WORDS> as Block>⟧.tells made.1) }
    ensures next { IfOk result (λ made. (view made.1).start.next ≡ n) }
    ensures out { IfOk result (λ made. (view made.1).out ≡ None) }
    ensures owed { IfOk result (λ made. (view made.1).owed ≡ []) }
    ensures writing { IfOk result (λ made. (q : ℕ) → (seat_of (view made.1) q).writing ≡ false) }
{
    resident::<MemBlock<WORDS>, WORDS>(alloc, zeros(alloc, n)?, version)
}
