//! The tree's writes by a pass whose block is at home: it is at home again after each of them.
ghost use Rattle.std.specs.Prelude.{◌≡◌, ◌≤◌, None};
ghost use Rattle.vm_step.specs.Prelude.{AreHeld, IsReadyOn, view};

use std::sync::Wait;
use vm_block::{Block, MemBlock};
use vm_exmap::Interface;
use vm_kind::{OfSize, TreeOf, WordKeys};
use vm_map::call::Reply;
use vm_page::WORDS;
use vm_pool_callers::pool::Pool;
use vm_rule::words::Pass;
use vm_tree_retry::tree_rule::{Tree, TreeFault};
use vm_tree_retry::tree_write::{TrySplit, TryWrite, try_del, try_put, try_split, try_swap};
use vm_tree_retry::{del, put, swap};

/// `put`.
pub fn put_at<S: OfSize<N>, R: Wait, const N: usize>(
    rt: &R,
    pool: &Pool<TreeOf<WordKeys<S, N>>, MemBlock<N>, N>,
    pass: &mut Pass<TreeOf<WordKeys<S, N>>>,
    iface: &mut Interface,
    key: u64,
    value: u64,
) -> Result<Reply, TreeFault>
    requires pages { 1 ≤ pool.now.words.table.shared.key.pages }
    requires ready { IsReadyOn pool.now.words ⟦<MemBlock<N> as Block>⟧.tells pass.old }
    requires home { (view pass.old).out ≡ None }
    requires held { AreHeld iface.old.frames (view pass.old) }
    ensures ready { IsReadyOn pool.now.words ⟦<MemBlock<N> as Block>⟧.tells pass.new }
    ensures home { (view pass.new).out ≡ None }
    ensures held { AreHeld iface.new.frames (view pass.new) }
{
    put(rt, pool, pass, iface, &key, value)
}

/// `del`.
pub fn del_at<S: OfSize<N>, R: Wait, const N: usize>(
    rt: &R,
    pool: &Pool<TreeOf<WordKeys<S, N>>, MemBlock<N>, N>,
    pass: &mut Pass<TreeOf<WordKeys<S, N>>>,
    iface: &mut Interface,
    key: u64,
) -> Result<Reply, TreeFault>
    requires pages { 1 ≤ pool.now.words.table.shared.key.pages }
    requires ready { IsReadyOn pool.now.words ⟦<MemBlock<N> as Block>⟧.tells pass.old }
    requires home { (view pass.old).out ≡ None }
    requires held { AreHeld iface.old.frames (view pass.old) }
    ensures ready { IsReadyOn pool.now.words ⟦<MemBlock<N> as Block>⟧.tells pass.new }
    ensures home { (view pass.new).out ≡ None }
    ensures held { AreHeld iface.new.frames (view pass.new) }
{
    del(rt, pool, pass, iface, &key)
}

/// `swap`.
pub fn swap_at<S: OfSize<N>, R: Wait, const N: usize>(
    rt: &R,
    pool: &Pool<TreeOf<WordKeys<S, N>>, MemBlock<N>, N>,
    pass: &mut Pass<TreeOf<WordKeys<S, N>>>,
    iface: &mut Interface,
    key: u64,
    want: u64,
    value: u64,
) -> Result<Reply, TreeFault>
    requires pages { 1 ≤ pool.now.words.table.shared.key.pages }
    requires ready { IsReadyOn pool.now.words ⟦<MemBlock<N> as Block>⟧.tells pass.old }
    requires home { (view pass.old).out ≡ None }
    requires held { AreHeld iface.old.frames (view pass.old) }
    ensures ready { IsReadyOn pool.now.words ⟦<MemBlock<N> as Block>⟧.tells pass.new }
    ensures home { (view pass.new).out ≡ None }
    ensures held { AreHeld iface.new.frames (view pass.new) }
{
    swap(rt, pool, pass, iface, &key, want, value)
}

/// `try_put`, by a pass that keeps its frames.
pub fn put_once<S: OfSize<N>, const N: usize>(
    pool: &Pool<TreeOf<WordKeys<S, N>>, MemBlock<N>, N>,
    pass: &mut Pass<TreeOf<WordKeys<S, N>>>,
    iface: &Interface,
    key: u64,
    value: u64,
) -> TryWrite
    requires pages { 1 ≤ pool.now.words.table.shared.key.pages }
    requires ready { IsReadyOn pool.now.words ⟦<MemBlock<N> as Block>⟧.tells pass.old }
    requires home { (view pass.old).out ≡ None }
    requires held { AreHeld iface.now.frames (view pass.old) }
    ensures ready { IsReadyOn pool.now.words ⟦<MemBlock<N> as Block>⟧.tells pass.new }
    ensures home { (view pass.new).out ≡ None }
    ensures held { AreHeld iface.now.frames (view pass.new) }
{
    let _ = iface;
    try_put(pool.words(), pass, &key, value)
}

/// `try_del`, by a pass that keeps its frames.
pub fn del_once(
    pool: &Pool<Tree, MemBlock<WORDS>, WORDS>,
    pass: &mut Pass<Tree>,
    iface: &Interface,
    key: u64,
) -> TryWrite
    requires pages { 1 ≤ pool.now.words.table.shared.key.pages }
    requires ready { IsReadyOn pool.now.words ⟦<MemBlock<WORDS> as Block>⟧.tells pass.old }
    requires home { (view pass.old).out ≡ None }
    requires held { AreHeld iface.now.frames (view pass.old) }
    ensures ready { IsReadyOn pool.now.words ⟦<MemBlock<WORDS> as Block>⟧.tells pass.new }
    ensures home { (view pass.new).out ≡ None }
    ensures held { AreHeld iface.now.frames (view pass.new) }
{
    let _ = iface;
    try_del(pool.words(), pass, &key)
}

/// `try_swap`, by a pass that keeps its frames.
pub fn swap_once(
    pool: &Pool<Tree, MemBlock<WORDS>, WORDS>,
    pass: &mut Pass<Tree>,
    iface: &Interface,
    key: u64,
    want: u64,
    value: u64,
) -> TryWrite
    requires pages { 1 ≤ pool.now.words.table.shared.key.pages }
    requires ready { IsReadyOn pool.now.words ⟦<MemBlock<WORDS> as Block>⟧.tells pass.old }
    requires home { (view pass.old).out ≡ None }
    requires held { AreHeld iface.now.frames (view pass.old) }
    ensures ready { IsReadyOn pool.now.words ⟦<MemBlock<WORDS> as Block>⟧.tells pass.new }
    ensures home { (view pass.new).out ≡ None }
    ensures held { AreHeld iface.now.frames (view pass.new) }
{
    let _ = iface;
    try_swap(pool.words(), pass, &key, want, value)
}

/// `try_split`.
pub fn split_once(
    pool: &Pool<Tree, MemBlock<WORDS>, WORDS>,
    pass: &mut Pass<Tree>,
    iface: &mut Interface,
    key: u64,
) -> TrySplit
    requires pages { 1 ≤ pool.now.words.table.shared.key.pages }
    requires ready { IsReadyOn pool.now.words ⟦<MemBlock<WORDS> as Block>⟧.tells pass.old }
    requires home { (view pass.old).out ≡ None }
    requires held { AreHeld iface.old.frames (view pass.old) }
    ensures ready { IsReadyOn pool.now.words ⟦<MemBlock<WORDS> as Block>⟧.tells pass.new }
    ensures home { (view pass.new).out ≡ None }
    ensures held { AreHeld iface.new.frames (view pass.new) }
{
    try_split(pool.words(), pass, iface, &key)
}
