//! The tree's ranges by a pass whose block is at home: it is at home again after each of them.
ghost use Rattle.std.specs.Prelude.{[], ◌+◌, ◌<◌, ◌≡◌, ◌≤◌, IfOk, length, None};
ghost use Rattle.vm_step.specs.Prelude.{AreHeld, IsReadyOn, view};

use std::alloc::Global;
use std::sync::Wait;
use std::test::Fail;
use vm_block::{Block, MemBlock};
use vm_event::StateWord;
use vm_exmap::Interface;
use vm_guard::OptGuard;
use vm_kind::{OfSize, TreeOf, WordKeys};
use vm_map::call::{Pair, Reply};
use vm_map::span::Span;
use vm_map::window::Bound;
use vm_page::WORDS;
use vm_rule::words::Pass;
use vm_step::look_silently;
use vm_tree_range::pool::Pool;
use vm_tree_range::{TryRange, range, try_range};
use vm_tree_rule::{Tree, TreeFault};

/// No pair, and room for those of sixteen leaves of either size.
pub fn span(alloc: Global) -> Result<Span, Fail>
    ensures empty { IfOk result (λ out. out.0 ≡ []) }
    ensures room { IfOk result (λ out. 4032 ≤ out.1) }
{
    Ok(Span::with_room(alloc, 4032)?)
}

/// The reply with these pairs.
pub fn many(alloc: Global, pairs: &[Pair]) -> Result<Reply, Fail> {
    Ok(Reply::Many(Span::of(Vec::from_slice(alloc, pairs)?)))
}

/// `range`.
pub fn ranged<S: OfSize<N>, R: Wait, const N: usize>(
    rt: &R,
    pool: &Pool<TreeOf<WordKeys<S, N>>, MemBlock<N>, N>,
    pass: &mut Pass<TreeOf<WordKeys<S, N>>>,
    iface: &mut Interface,
    low: u64,
    bound: Bound,
    out: Span,
) -> Result<Reply, TreeFault>
    requires pages { 1 ≤ pool.now.words.table.shared.key.pages }
    requires ready { IsReadyOn pool.now.words ⟦<MemBlock<N> as Block>⟧.tells pass.old }
    requires home { (view pass.old).out ≡ None }
    requires held { AreHeld iface.old.frames (view pass.old) }
    requires empty { out.0 ≡ [] }
    requires room { 4032 ≤ out.1 }
    ensures ready { IsReadyOn pool.now.words ⟦<MemBlock<N> as Block>⟧.tells pass.new }
    ensures home { (view pass.new).out ≡ None }
    ensures held { AreHeld iface.new.frames (view pass.new) }
{
    range(rt, pool, pass, iface, &low, bound, out)
}

/// `try_range`, by a pass that keeps its frames. It takes none of the span's room.
pub fn range_once(
    pool: &Pool<Tree, MemBlock<WORDS>, WORDS>,
    pass: &mut Pass<Tree>,
    iface: &Interface,
    low: u64,
    bound: Bound,
    out: &mut Span,
) -> TryRange
    requires pages { 1 ≤ pool.now.words.table.shared.key.pages }
    requires ready { IsReadyOn pool.now.words ⟦<MemBlock<WORDS> as Block>⟧.tells pass.old }
    requires home { (view pass.old).out ≡ None }
    requires held { AreHeld iface.now.frames (view pass.old) }
    requires empty { out.old.0 ≡ [] }
    requires room { 4032 ≤ out.old.1 }
    ensures ready { IsReadyOn pool.now.words ⟦<MemBlock<WORDS> as Block>⟧.tells pass.new }
    ensures home { (view pass.new).out ≡ None }
    ensures held { AreHeld iface.now.frames (view pass.new) }
    ensures room { 4032 ≤ out.new.1 + length out.new.0 }
{
    let _ = iface;
    try_range(pool.words(), pass, &low, bound, out)
}

/// `try_range`, by a pass that has a share of the page, and word `i` of the page behind it. None where there is no share to be had.
pub fn range_under(
    pool: &Pool<Tree, MemBlock<WORDS>, WORDS>,
    pass: &mut Pass<Tree>,
    pid: u32,
    i: usize,
    bound: Bound,
    out: &mut Span,
) -> Option<(TryRange, u64)>
    requires page { pid < pool.now.words.table.shared.key.pages }
    requires word { i < 64 }
    requires ready { IsReadyOn pool.now.words ⟦<MemBlock<WORDS> as Block>⟧.tells pass.old }
    requires home { (view pass.old).out ≡ None }
    requires empty { out.old.0 ≡ [] }
    requires room { 4032 ≤ out.old.1 }
    ensures ready { IsReadyOn pool.now.words ⟦<MemBlock<WORDS> as Block>⟧.tells pass.new }
{
    let words = pool.words();
    let guard = match OptGuard::start(words, pass, pid) {
        Ok(guard) => guard,
        Err(_) => return None,
    };
    let shared = match guard.share_silently(words, pass) {
        Ok(shared) => shared,
        Err(_) => return None,
    };
    let tried = try_range(words, pass, &0, bound, out);
    let word = shared.read(words, pass, i);
    shared.drop_with(words, pass);
    Some((tried, word))
}

/// How the page is locked, where there is such a page, as a pass sees it that keeps its frames: 0 where it is not.
pub fn lock_of(
    pool: &Pool<Tree, MemBlock<WORDS>, WORDS>,
    pass: &mut Pass<Tree>,
    iface: &Interface,
    pid: u32,
) -> Option<u8>
    requires ready { IsReadyOn pool.now.words ⟦<MemBlock<WORDS> as Block>⟧.tells pass.old }
    requires home { (view pass.old).out ≡ None }
    requires held { AreHeld iface.now.frames (view pass.old) }
    ensures ready { IsReadyOn pool.now.words ⟦<MemBlock<WORDS> as Block>⟧.tells pass.new }
    ensures home { (view pass.new).out ≡ None }
    ensures held { AreHeld iface.now.frames (view pass.new) }
{
    let _ = iface;
    let words = pool.words();
    if words.pages <= pid as usize {
        return None;
    }
    Some(StateWord::state(look_silently(words, pass, pid)))
}
