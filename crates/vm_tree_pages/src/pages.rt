//! A tree of three leaves, and what stands in the pages of a small tree, by a pass whose block is at home: it is at home again after each look.
ghost use Rattle.std.specs.Prelude.{◌≡◌, ◌≤◌, None};
ghost use Rattle.vm_step.specs.Prelude.{AreHeld, IsReadyOn, view};

use std::alloc::Global;
use std::test::Fail;
use vm_block::{Block, MemBlock};
use vm_exmap::Interface;
use vm_page::{PageBuf, WORDS};
use vm_rule::words::Pass;
use vm_step::pbload;
use vm_tree_callers::calls::{MAGIC, put_page, state_word};
use vm_tree_callers::guard::{ExclusiveGuard, OptGuard};
use vm_tree_callers::kind::{OfSize, TreeOf, WordKeys};
use vm_tree_callers::pool::Pool;
use vm_tree_callers::tree_rule::Tree;

/// Five pages of a tree of height 1: the root on page 1, leaves on pages 2 (below key 100), 3 (below 200) and 4.
pub fn three_leaves(alloc: Global) -> Result<Vec<u8>, Fail> {
    let mut bytes = Vec::new(alloc);
    put_page(&mut bytes, WORDS, &[MAGIC, 1, 1])?;
    put_page(
        &mut bytes,
        WORDS,
        &[3, 3, 0, 0, 1, 1, 0, 0, 0, 2, 100, 3, 200, 4],
    )?;
    put_page(&mut bytes, WORDS, &[2, 1, 0, 100, 0, 0, 0, 0, 5, 50])?;
    put_page(&mut bytes, WORDS, &[2, 1, 100, 200, 0, 0, 0, 0, 150, 15])?;
    put_page(&mut bytes, WORDS, &[2, 1, 200, 0, 1, 0, 0, 0, 250, 25])?;
    Ok(bytes)
}

/// The page's words, as a validated read tells them; none where there is no such page, or it cannot be read now.
fn page_words<S: OfSize<N>, const N: usize>(
    pool: &Pool<TreeOf<WordKeys<S, N>>, MemBlock<N>, N>,
    pass: &mut Pass<TreeOf<WordKeys<S, N>>>,
    iface: &Interface,
    pid: u32,
) -> Option<PageBuf<N>>
    requires ready { IsReadyOn pool.now.words ⟦<MemBlock<N> as Block>⟧.tells pass.old }
    requires home { (view pass.old).out ≡ None }
    requires held { AreHeld iface.now.frames (view pass.old) }
    ensures ready { IsReadyOn pool.now.words ⟦<MemBlock<N> as Block>⟧.tells pass.new }
    ensures home { (view pass.new).out ≡ None }
    ensures held { AreHeld iface.now.frames (view pass.new) }
{
    let _ = iface;
    let words = pool.words();
    if words.pages <= pid as usize {
        return None;
    }
    let Ok(guard) = OptGuard::start(words, pass, pid) else {
        return None;
    };
    let mut page = PageBuf::zero();
    guard.read_all(words, pass, &mut page);
    match guard.validate_silently(words, pass) {
        Ok(()) => Some(page),
        Err(_) => None,
    }
}

/// The page has these words from word 0 on, and zeros behind them.
fn has_words<const N: usize>(page: &PageBuf<N>, words: &[u64]) -> Result<(), Fail> {
    for i in 0..N {
        let there = page.get(i);
        let word: u64 = if i < words.len() { words[i] } else { 0 };
        if there != word {
            return Err(Fail::from(("word", i, there)));
        }
    }
    Ok(())
}

/// The page can be read, and has these words from word 0 on, and zeros behind them.
pub fn is_page<S: OfSize<N>, const N: usize>(
    pool: &Pool<TreeOf<WordKeys<S, N>>, MemBlock<N>, N>,
    pass: &mut Pass<TreeOf<WordKeys<S, N>>>,
    iface: &Interface,
    pid: u32,
    words: &[u64],
) -> Result<(), Fail>
    requires ready { IsReadyOn pool.now.words ⟦<MemBlock<N> as Block>⟧.tells pass.old }
    requires home { (view pass.old).out ≡ None }
    requires held { AreHeld iface.now.frames (view pass.old) }
    ensures ready { IsReadyOn pool.now.words ⟦<MemBlock<N> as Block>⟧.tells pass.new }
    ensures home { (view pass.new).out ≡ None }
    ensures held { AreHeld iface.now.frames (view pass.new) }
{
    let Some(page) = page_words(pool, pass, iface, pid) else {
        return Err(Fail::from(("no page", pid)));
    };
    has_words(&page, words)
}

/// The first free-number word: bit `p` is set where page `p` was freed, and is there to be used again.
pub fn free_numbers<S: OfSize<N>, const N: usize>(
    pool: &Pool<TreeOf<WordKeys<S, N>>, MemBlock<N>, N>,
    pass: &mut Pass<TreeOf<WordKeys<S, N>>>,
    iface: &Interface,
) -> u64
    requires pages { 1 ≤ pool.now.words.table.shared.key.pages }
    requires ready { IsReadyOn pool.now.words ⟦<MemBlock<N> as Block>⟧.tells pass.old }
    requires home { (view pass.old).out ≡ None }
    requires held { AreHeld iface.now.frames (view pass.old) }
    ensures ready { IsReadyOn pool.now.words ⟦<MemBlock<N> as Block>⟧.tells pass.new }
    ensures home { (view pass.new).out ≡ None }
    ensures held { AreHeld iface.now.frames (view pass.new) }
{
    let _ = iface;
    pbload(pool.words(), pass, 0)
}

/// Locks the page and releases it with the words that it had, at its next version. Whether it could be locked.
pub fn touch(
    pool: &Pool<Tree, MemBlock<WORDS>, WORDS>,
    pass: &mut Pass<Tree>,
    iface: &Interface,
    pid: u32,
) -> bool
    requires ready { IsReadyOn pool.now.words ⟦<MemBlock<WORDS> as Block>⟧.tells pass.old }
    requires home { (view pass.old).out ≡ None }
    requires held { AreHeld iface.now.frames (view pass.old) }
    ensures ready { IsReadyOn pool.now.words ⟦<MemBlock<WORDS> as Block>⟧.tells pass.new }
    ensures home { (view pass.new).out ≡ None }
    ensures held { AreHeld iface.now.frames (view pass.new) }
{
    let _ = iface;
    let words = pool.words();
    if words.pages <= pid as usize {
        return false;
    }
    let Ok(guard) = ExclusiveGuard::take(words, pass, pid) else {
        return false;
    };
    guard.release(words, pass, None);
    true
}

/// Each of the four pages of a tree of two leaves is unlocked, at this version.
pub fn are_unlocked(
    pool: &Pool<Tree, MemBlock<WORDS>, WORDS>,
    pass: &mut Pass<Tree>,
    iface: &Interface,
    versions: [u64; 4],
) -> Result<(), Fail>
    requires ready { IsReadyOn pool.now.words ⟦<MemBlock<WORDS> as Block>⟧.tells pass.old }
    requires home { (view pass.old).out ≡ None }
    requires held { AreHeld iface.now.frames (view pass.old) }
    ensures ready { IsReadyOn pool.now.words ⟦<MemBlock<WORDS> as Block>⟧.tells pass.new }
    ensures home { (view pass.new).out ≡ None }
    ensures held { AreHeld iface.now.frames (view pass.new) }
{
    let page_0 = state_word(pool, pass, iface, 0);
    let root = state_word(pool, pass, iface, 1);
    let left = state_word(pool, pass, iface, 2);
    let right = state_word(pool, pass, iface, 3);
    let words = (page_0, root, left, right);
    if words
        != (
            Some(versions[0]),
            Some(versions[1]),
            Some(versions[2]),
            Some(versions[3]),
        )
    {
        return Err(Fail::from(words));
    }
    Ok(())
}
