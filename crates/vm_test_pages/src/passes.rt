//! Blocks of pages of zeros, a pool of a few evicted pages with two passes, and frames for the pages that they claim.
ghost use Rattle.std.specs.Prelude.{◌≡◌, ◌≤◌, IfOk, length, List, map, None, ℕ};
ghost use Rattle.vm_page.specs.Sizes.{IsSize};
ghost use Rattle.vm_rule.specs.Prelude.{AreClaimed, block_words, MayBegin, stored_of};
ghost use Rattle.vm_step.specs.Prelude.{AreHeld, IsReadyOn, view};

use std::alloc::Global;
use std::test::Fail;
use vm_block::{Block, MemBlock};
use vm_event::FRAMES;
use vm_exmap::{Alloc, Interface};
use vm_owner::{Bare, Owner};
use vm_page::PageBuf;
use vm_pool::{Pool, Shape};
use vm_rule::words::{Pass, Words};
use vm_step::Batch;

/// Blocks of so many pages (0 to 65536) of zeros, which answer every call.
pub fn zeros<const N: usize>(alloc: Global, pages: u32) -> Result<Vec<MemBlock<N>>, Fail>
    requires sized { IsSize N }
    requires pages { pages ≤ 65536 }
    ensures count { IfOk result (λ blocks. length blocks.items ≡ pages) }
    ensures begins { IfOk result (λ blocks. (next : ℕ) (free : List ℕ) → MayBegin ⟦<Bare as Owner>⟧.keeps next free (block_words (map stored_of blocks.items))) }
{
    if pages == 0 {
        return Ok(Vec::new(alloc));
    }
    let mut blocks = zeros(alloc, pages - 1)?;
    blocks.push(MemBlock::new(alloc, PageBuf::zero(), &[])?)?;
    Ok(blocks)
}

/// A pool of these blocks, whose pages are evicted at version 7, with so many frames (1 to 65536), whose next page is `next` and whose free
/// numbers are these, and two passes.
pub fn two_passes<const N: usize>(
    alloc: Global,
    frames: u32,
    next: u32,
    blocks: Vec<MemBlock<N>>,
    free: &[u32],
) -> Result<(Pool<Bare, MemBlock<N>, N>, Pass<Bare>, Pass<Bare>), Fail>
    requires sized { IsSize N }
    requires pages { (1 ≤ length blocks.items) × (length blocks.items ≤ 65536) }
    requires frames { (1 ≤ frames) × (frames ≤ 65536) }
    requires next { next ≤ length blocks.items }
    requires claimed { AreClaimed next free.now }
    requires begins { MayBegin ⟦<Bare as Owner>⟧.keeps next free.now (block_words (map stored_of blocks.items)) }
    ensures pages { IfOk result (λ made. (made.0.words.table.shared.key.pages ≡ length blocks.entry.items) × (made.0.words.table.shared.key.next ≡ next)) }
    ensures first { IfOk result (λ made. IsReadyOn made.0.words ⟦<MemBlock<N> as Block>⟧.tells made.1) }
    ensures second { IfOk result (λ made. IsReadyOn made.0.words ⟦<MemBlock<N> as Block>⟧.tells made.2) }
    ensures home { IfOk result (λ made. ((view made.1).out ≡ None) × ((view made.2).out ≡ None)) }
{
    let pages = blocks.len() as u32;
    let shape = Shape {
        pages,
        frames,
        next,
        first_version: 7,
    };
    let (pool, mut pass) = Pool::start(alloc, shape, blocks, free, &[])?;
    let other = pool.split_one(&mut pass);
    Ok((pool, pass, other))
}

/// So many free frames (1 to 64), the lowest of the first bundle.
pub fn free_frames<B: Block>(
    words: &Words<Bare, B>,
    pass: &mut Pass<Bare>,
    n: u32,
) -> Result<Batch, Fail>
    requires ready { IsReadyOn words.now B.tells pass.old }
    requires home { (view pass.old).out ≡ None }
    requires count { (1 ≤ n) × (n ≤ FRAMES) }
    ensures ready { IfOk result (λ _. IsReadyOn words.now B.tells pass.new) }
    ensures home { IfOk result (λ _. (view pass.new).out ≡ None) }
    ensures own { IfOk result (λ batch. AreHeld batch (view pass.new)) }
{
    let mut iface = Interface::new(0, 1);
    match iface.alloc(words, pass, n) {
        Alloc::Batch(batch) => Ok(batch),
        Alloc::Dry => Err(Fail::from("no frame is free")),
        Alloc::Again(_) => Err(Fail::from("others took frames")),
    }
}
