//! Pools over such blocks, and calls on them that are to succeed.
ghost use Rattle.std.specs.Prelude.{◌<◌, ◌≡◌, ◌≤◌, false, IfOk, length, map, None, ℕ};
ghost use Rattle.vm_page.specs.{Pages.page_at, Sizes.IsSize};
ghost use Rattle.vm_rule.specs.Prelude.{block_words, HoldsNoPage, last_of, seat_of, stored_of};
ghost use Rattle.vm_step.specs.Prelude.{AreHeld, IsAlone, IsReadyOn, view};

use std::alloc::Global;
use std::test::Fail;
use vm_block::{Block, MemBlock, PageBlock};
use vm_exmap::Interface;
use vm_guard::ExclusiveGuard;
use vm_owner::Bare;
use vm_pool::{Bring, Pool, Shape};
use vm_rule::words::Pass;

/// A pool of these blocks and so many frames (1 to 65536), whose pages are all claimed, at version 0, and its first pass.
pub fn pool_of<const N: usize>(
    alloc: Global,
    frames: u32,
    blocks: Vec<MemBlock<N>>,
) -> Result<(Pool<Bare, MemBlock<N>, N>, Pass<Bare>), Fail>
    requires sized { IsSize N }
    requires pages { (1 ≤ length blocks.items) × (length blocks.items ≤ 65536) }
    requires frames { (1 ≤ frames) × (frames ≤ 65536) }
    ensures pages { IfOk result (λ made. (made.0.words.table.shared.key.pages ≡ length blocks.entry.items)
        × (made.0.words.table.shared.key.next ≡ length blocks.entry.items)) }
    ensures ready { IfOk result (λ made. IsReadyOn made.0.words ⟦<MemBlock<N> as Block>⟧.tells made.1) }
    ensures home { IfOk result (λ made. (view made.1).out ≡ None) }
    ensures idle { IfOk result (λ made. (p : ℕ) → (seat_of (view made.1) p).writing ≡ false) }
    ensures alone { IfOk result (λ made. IsAlone (view made.1)) }
    ensures holds { IfOk result (λ made. HoldsNoPage (view made.1)) }
    ensures words { IfOk result (λ made. (p : ℕ) → p < length blocks.entry.items
        → (last_of (view made.1) p).words ≡ page_at (block_words (map stored_of blocks.entry.items)) p) }
    ensures claimed { IfOk result (λ made. (view made.1).start.next ≡ length blocks.entry.items) }
{
    let pages = blocks.len() as u32;
    let shape = Shape {
        pages,
        frames,
        next: pages,
        first_version: 0,
    };
    Ok(Pool::start(alloc, shape, blocks, &[], &[])?)
}

/// Brings page `p`, which is evicted.
pub fn brought<B: PageBlock<N>, const N: usize>(
    pool: &Pool<Bare, B, N>,
    pass: &mut Pass<Bare>,
    iface: &mut Interface,
    p: u32,
) -> Result<(), Fail>
    requires ready { IsReadyOn pool.now.words B.tells pass.old }
    requires home { (view pass.old).out ≡ None }
    requires held { AreHeld iface.old.frames (view pass.old) }
    requires page { p < pool.now.words.table.shared.key.pages }
    ensures ready { IfOk result (λ _. IsReadyOn pool.now.words B.tells pass.new) }
    ensures home { IfOk result (λ _. (view pass.new).out ≡ None) }
    ensures held { IfOk result (λ _. AreHeld iface.new.frames (view pass.new)) }
    ensures idle { IfOk result (λ _. (q : ℕ) → (seat_of (view pass.new) q).writing ≡ (seat_of (view pass.old) q).writing) }
{
    match pool.bring(pass, iface, p) {
        Bring::Brought => Ok(()),
        answer => Err(Fail::from(answer)),
    }
}

/// Sets word `i` of page `p`, which is in use, resident, and not locked by anyone.
pub fn put<B: PageBlock<N>, const N: usize>(
    pool: &Pool<Bare, B, N>,
    pass: &mut Pass<Bare>,
    p: u32,
    i: usize,
    w: u64,
) -> Result<(), Fail>
    requires ready { IsReadyOn pool.now.words B.tells pass.old }
    requires home { (view pass.old).out ≡ None }
    requires place { i < N }
    requires page { (p < pool.now.words.table.shared.key.pages) × (p < pool.now.words.table.shared.key.next) }
    ensures ready { IfOk result (λ _. IsReadyOn pool.now.words B.tells pass.new) }
    ensures home { IfOk result (λ _. (view pass.new).out ≡ None) }
    ensures frames { IfOk result (λ _. ((view pass.new).start ≡ (view pass.old).start) × ((view pass.new).frames ≡ (view pass.old).frames)) }
{
    let Ok(mut guard) = ExclusiveGuard::take(&pool.words, pass, p) else {
        return Err(Fail::from("the page cannot be locked"));
    };
    if guard.read(&pool.words, pass, 1) == 0 {
        guard.release(&pool.words, pass, None);
        return Err(Fail::from("the page is not in use"));
    }
    guard.set(&pool.words, pass, i, w);
    guard.release(&pool.words, pass, None);
    Ok(())
}
