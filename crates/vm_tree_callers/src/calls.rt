//! A pool over a small tree, and the tree's reads by a pass whose block is at home: it is at home again after each of them.
ghost use Rattle.std.specs.Prelude.{◌<◌, ◌≡◌, ◌≤◌, false, IfOk, length, None};
ghost use Rattle.vm_event.specs.Prelude.{MAX_VERSION};
ghost use Rattle.vm_rule.specs.Prelude.{draft_of, has, last_of};
ghost use Rattle.vm_step.specs.Prelude.{AreHeld, IsReadyOn, view};
ghost use Rattle.vm_guard.specs.Guards.{IsHolding};

use crate::started::{Started, get_from_start};
use std::alloc::Global;
use std::sync::Wait;
use std::test::Fail;
use vm_block::{Block, MemBlock};
use vm_check::check;
use vm_exmap::Interface;
use vm_guard::ExclusiveGuard;
use vm_image::{PlannedFault, blocks_of, read_image};
use vm_kind::{OfSize, Sizes, TreeOf, WordKeys, Words64};
use vm_map::call::Reply;
use vm_map::window::Bound;
use vm_page::WORDS;
use vm_pool_callers::pool::{Bring, Pool, Shape};
use vm_rule::words::Pass;
use vm_step::look_silently;
use vm_tree_retry::tree_read::{TryRead, get, try_get, try_window, window};
use vm_tree_retry::tree_rule::{Tree, TreeFault};

/// The first word of a page file with pages of 64 words.
pub const MAGIC: u64 = 0x564D_4341_4348_4531;

/// The first word of a page file with pages of 512 words.
pub const LARGE_MAGIC: u64 = 0x564D_4341_4348_4532;

/// A page of so many words, with these from word 0 on, behind the bytes of others.
pub fn put_page(bytes: &mut Vec<u8>, size: usize, words: &[u64]) -> Result<(), Fail> {
    for i in 0..size {
        let word: u64 = if i < words.len() { words[i] } else { 0 };
        bytes.extend_from_slice(&word.to_be_bytes())?;
    }
    Ok(())
}

/// So many pages (2 or more) of an empty tree: page 0 names page 1, a leaf of all keys.
pub fn empty(alloc: Global, pages: usize) -> Result<Vec<u8>, Fail> {
    empty_sized(alloc, WORDS, MAGIC, pages)
}

/// The same of pages of so many words, where page 0 begins with this word.
pub fn empty_sized(alloc: Global, size: usize, magic: u64, pages: usize) -> Result<Vec<u8>, Fail> {
    let mut bytes = Vec::new(alloc);
    put_page(&mut bytes, size, &[magic, 1, 0])?;
    put_page(&mut bytes, size, &[2, 0, 0, 0, 1, 0])?;
    for _ in 2..pages {
        put_page(&mut bytes, size, &[])?;
    }
    Ok(bytes)
}

/// Three pages of a tree of one node: page 1 is a leaf of all keys with two pairs, page 2 is free.
pub fn one_leaf(alloc: Global) -> Result<Vec<u8>, Fail> {
    let mut bytes = Vec::new(alloc);
    put_page(&mut bytes, WORDS, &[MAGIC, 1, 0])?;
    put_page(&mut bytes, WORDS, &[2, 2, 0, 0, 1, 0, 0, 0, 5, 50, 7, 70])?;
    put_page(&mut bytes, WORDS, &[])?;
    Ok(bytes)
}

/// Four pages of a tree of height 1: the root on page 1, leaves on pages 2 (below key 100) and 3.
pub fn two_leaves(alloc: Global) -> Result<Vec<u8>, Fail> {
    let mut bytes = Vec::new(alloc);
    put_page(&mut bytes, WORDS, &[MAGIC, 1, 1])?;
    put_page(&mut bytes, WORDS, &[3, 2, 0, 0, 1, 1, 0, 0, 0, 2, 100, 3])?;
    put_page(&mut bytes, WORDS, &[2, 2, 0, 100, 0, 0, 0, 0, 5, 50, 7, 70])?;
    put_page(&mut bytes, WORDS, &[2, 1, 100, 0, 1, 0, 0, 0, 150, 15])?;
    Ok(bytes)
}

/// A pool over the tree of these bytes, with 64 frames, and its first pass.
pub fn open(
    alloc: Global,
    bytes: &[u8],
) -> Result<(Pool<Tree, MemBlock<WORDS>, WORDS>, Pass<Tree>), Fail>
    ensures pages { IfOk result (λ made. 2 ≤ made.0.words.table.shared.key.pages) }
    ensures ready { IfOk result (λ made. IsReadyOn made.0.words ⟦<MemBlock<WORDS> as Block>⟧.tells made.1) }
    ensures home { IfOk result (λ made. (view made.1).out ≡ None) }
    ensures fresh { IfOk result (λ made. 0 < length (view made.1).fresh) }
{
    open_with(alloc, bytes, &[], 0)
}

/// The same; the calls of this plan fail, and every page begins at this version.
pub fn open_with(
    alloc: Global,
    bytes: &[u8],
    plan: &[PlannedFault],
    first_version: u64,
) -> Result<(Pool<Tree, MemBlock<WORDS>, WORDS>, Pass<Tree>), Fail>
    requires version { first_version ≤ MAX_VERSION }
    ensures pages { IfOk result (λ made. 2 ≤ made.0.words.table.shared.key.pages) }
    ensures ready { IfOk result (λ made. IsReadyOn made.0.words ⟦<MemBlock<WORDS> as Block>⟧.tells made.1) }
    ensures home { IfOk result (λ made. (view made.1).out ≡ None) }
    ensures fresh { IfOk result (λ made. 0 < length (view made.1).fresh) }
{
    open_sized::<Sizes, WORDS>(alloc, bytes, plan, first_version)
}

/// The same over pages of any size.
pub fn open_sized<S: OfSize<N>, const N: usize>(
    alloc: Global,
    bytes: &[u8],
    plan: &[PlannedFault],
    first_version: u64,
) -> Result<
    (
        Pool<TreeOf<WordKeys<S, N>>, MemBlock<N>, N>,
        Pass<TreeOf<WordKeys<S, N>>>,
    ),
    Fail,
>
    requires version { first_version ≤ MAX_VERSION }
    ensures pages { IfOk result (λ made. 2 ≤ made.0.words.table.shared.key.pages) }
    ensures ready { IfOk result (λ made. IsReadyOn made.0.words ⟦<MemBlock<N> as Block>⟧.tells made.1) }
    ensures home { IfOk result (λ made. (view made.1).out ≡ None) }
    ensures fresh { IfOk result (λ made. 0 < length (view made.1).fresh) }
{
    let image = read_image(alloc, bytes)?;
    check(alloc, &image)?;
    let blocks = blocks_of(alloc, &image, plan)?;
    let shape = Shape {
        pages: image.pages(),
        frames: 64,
        next: image.next(),
        first_version,
    };
    Ok(Pool::start(alloc, shape, blocks, &[], &[])?)
}

/// `get_from_start` over the tree of these bytes, which has one node: what `bring` answers for page 0 and page 1, and what the get is answered then.
pub fn get_first(
    alloc: Global,
    bytes: &[u8],
    plan: &[PlannedFault],
    key: u64,
) -> Result<(Bring, Bring, TryRead), Fail> {
    let image = read_image(alloc, bytes)?;
    check(alloc, &image)?;
    let blocks = blocks_of(alloc, &image, plan)?;
    let shape = Shape {
        pages: image.pages(),
        frames: 64,
        next: image.next(),
        first_version: 0,
    };
    if shape.next != 2 {
        return Err(Fail::from("not one node"));
    }
    let Started {
        pool: _,
        pass: _,
        iface: _,
        meta,
        root,
        reply,
    } = get_from_start::<Words64, _, WORDS>(alloc, shape, blocks, &key)?;
    Ok((meta, root, reply))
}

/// `get`.
pub fn got<S: OfSize<N>, R: Wait, const N: usize>(
    rt: &R,
    pool: &Pool<TreeOf<WordKeys<S, N>>, MemBlock<N>, N>,
    pass: &mut Pass<TreeOf<WordKeys<S, N>>>,
    iface: &mut Interface,
    key: u64,
) -> Result<Reply, TreeFault>
    requires pages { 1 ≤ pool.now.words.table.shared.key.pages }
    requires ready { IsReadyOn pool.now.words ⟦<MemBlock<N> as Block>⟧.tells pass.old }
    requires home { (view pass.old).out ≡ None }
    requires held { AreHeld iface.old.frames (view pass.old) }
    ensures ready { IsReadyOn pool.now.words ⟦<MemBlock<N> as Block>⟧.tells pass.new }
    ensures home { (view pass.new).out ≡ None }
    ensures held { AreHeld iface.new.frames (view pass.new) }
{
    get(rt, pool, pass, iface, &key)
}

/// What a reply shows that is a window: where it ends, and how many pairs it has.
fn shown(reply: &Reply) -> Option<(Bound, usize)> {
    match reply {
        Reply::Win(win) => Some((win.bound, win.pairs.len())),
        _ => None,
    }
}

/// What `window` shows, of at most so many pairs.
pub fn window_from<S: OfSize<N>, R: Wait, const N: usize>(
    rt: &R,
    pool: &Pool<TreeOf<WordKeys<S, N>>, MemBlock<N>, N>,
    pass: &mut Pass<TreeOf<WordKeys<S, N>>>,
    iface: &mut Interface,
    start: u64,
    most: u32,
) -> Option<(Bound, usize)>
    requires pages { 1 ≤ pool.now.words.table.shared.key.pages }
    requires most { 1 ≤ most }
    requires ready { IsReadyOn pool.now.words ⟦<MemBlock<N> as Block>⟧.tells pass.old }
    requires home { (view pass.old).out ≡ None }
    requires held { AreHeld iface.old.frames (view pass.old) }
    ensures ready { IsReadyOn pool.now.words ⟦<MemBlock<N> as Block>⟧.tells pass.new }
    ensures home { (view pass.new).out ≡ None }
    ensures held { AreHeld iface.new.frames (view pass.new) }
{
    match &window(rt, pool, pass, iface, &start, most) {
        Ok(reply) => shown(reply),
        Err(_) => None,
    }
}

/// `try_get`, by a pass that keeps its frames.
pub fn get_once(
    pool: &Pool<Tree, MemBlock<WORDS>, WORDS>,
    pass: &mut Pass<Tree>,
    iface: &Interface,
    key: u64,
) -> TryRead
    requires pages { 1 ≤ pool.now.words.table.shared.key.pages }
    requires ready { IsReadyOn pool.now.words ⟦<MemBlock<WORDS> as Block>⟧.tells pass.old }
    requires home { (view pass.old).out ≡ None }
    requires held { AreHeld iface.now.frames (view pass.old) }
    ensures ready { IsReadyOn pool.now.words ⟦<MemBlock<WORDS> as Block>⟧.tells pass.new }
    ensures home { (view pass.new).out ≡ None }
    ensures held { AreHeld iface.now.frames (view pass.new) }
{
    let _ = iface;
    try_get(pool.words(), pass, &key)
}

/// What `try_window` shows, by a pass that keeps its frames.
pub fn window_once(
    pool: &Pool<Tree, MemBlock<WORDS>, WORDS>,
    pass: &mut Pass<Tree>,
    iface: &Interface,
    start: u64,
    most: u32,
) -> Option<(Bound, usize)>
    requires pages { 1 ≤ pool.now.words.table.shared.key.pages }
    requires most { 1 ≤ most }
    requires ready { IsReadyOn pool.now.words ⟦<MemBlock<WORDS> as Block>⟧.tells pass.old }
    requires home { (view pass.old).out ≡ None }
    requires held { AreHeld iface.now.frames (view pass.old) }
    ensures ready { IsReadyOn pool.now.words ⟦<MemBlock<WORDS> as Block>⟧.tells pass.new }
    ensures home { (view pass.new).out ≡ None }
    ensures held { AreHeld iface.now.frames (view pass.new) }
{
    let _ = iface;
    match &try_window(pool.words(), pass, &start, most) {
        TryRead::Done(reply) => shown(reply),
        _ => None,
    }
}

/// `try_get`, by a pass that holds a page that it has not written: it holds it still, as it was.
pub fn get_beside(
    pool: &Pool<Tree, MemBlock<WORDS>, WORDS>,
    pass: &mut Pass<Tree>,
    guard: &ExclusiveGuard,
    key: u64,
) -> TryRead
    requires pages { 1 ≤ pool.now.words.table.shared.key.pages }
    requires ready { IsReadyOn pool.now.words ⟦<MemBlock<WORDS> as Block>⟧.tells pass.old }
    requires home { (view pass.old).out ≡ None }
    requires held { IsHolding guard.now.pid guard.now.frame guard.now.version guard.now.dirty (view pass.old) }
    requires same { draft_of (view pass.old) guard.now.pid ≡ (last_of (view pass.old) guard.now.pid).words }
    requires unpaid { has guard.now.pid (view pass.old).owed ≡ false }
    ensures ready { IsReadyOn pool.now.words ⟦<MemBlock<WORDS> as Block>⟧.tells pass.new }
    ensures home { (view pass.new).out ≡ None }
    ensures held { IsHolding guard.now.pid guard.now.frame guard.now.version guard.now.dirty (view pass.new) }
    ensures same { draft_of (view pass.new) guard.now.pid ≡ (last_of (view pass.new) guard.now.pid).words }
    ensures unpaid { has guard.now.pid (view pass.new).owed ≡ false }
{
    let _ = guard;
    try_get(pool.words(), pass, &key)
}

/// The page's state word, where there is such a page, as a pass sees it that keeps its frames.
pub fn state_word(
    pool: &Pool<Tree, MemBlock<WORDS>, WORDS>,
    pass: &mut Pass<Tree>,
    iface: &Interface,
    pid: u32,
) -> Option<u64>
    requires ready { IsReadyOn pool.now.words ⟦<MemBlock<WORDS> as Block>⟧.tells pass.old }
    requires home { (view pass.old).out ≡ None }
    requires held { AreHeld iface.now.frames (view pass.old) }
    ensures ready { IsReadyOn pool.now.words ⟦<MemBlock<WORDS> as Block>⟧.tells pass.new }
    ensures home { (view pass.new).out ≡ None }
    ensures held { AreHeld iface.now.frames (view pass.new) }
{
    let _ = iface;
    let words = pool.words();
    if words.pages <= pid as usize {
        return None;
    }
    Some(look_silently(words, pass, pid))
}
