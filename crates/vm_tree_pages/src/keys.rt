//! Keys of a small tree, put, taken out and read one after another, with what each call is to answer.
ghost use Rattle.std.specs.Prelude.{◌≡◌, ◌≤◌, IfOk, None};
ghost use Rattle.vm_step.specs.Prelude.{AreHeld, IsReadyOn, view};

use std::sync::Wait;
use std::test::Fail;
use vm_block::{Block, MemBlock};
use vm_exmap::Interface;
use vm_map::call::Reply;
use vm_rule::words::Pass;
use vm_tree_callers::calls::got;
use vm_tree_callers::kind::{OfSize, TreeOf, WordKeys};
use vm_tree_callers::pool::Pool;
use vm_tree_callers::write_calls::{del_at, put_at};

/// The keys from `from` on and below `to`, none of which was there, get the value 1.
pub fn put_range<S: OfSize<N>, R: Wait, const N: usize>(
    rt: &R,
    pool: &Pool<TreeOf<WordKeys<S, N>>, MemBlock<N>, N>,
    pass: &mut Pass<TreeOf<WordKeys<S, N>>>,
    iface: &mut Interface,
    from: u64,
    to: u64,
) -> Result<(), Fail>
    requires pages { 1 ≤ pool.now.words.table.shared.key.pages }
    requires ready { IsReadyOn pool.now.words ⟦<MemBlock<N> as Block>⟧.tells pass.old }
    requires home { (view pass.old).out ≡ None }
    requires held { AreHeld iface.old.frames (view pass.old) }
    ensures ready { IfOk result (λ _. IsReadyOn pool.now.words ⟦<MemBlock<N> as Block>⟧.tells pass.new) }
    ensures home { IfOk result (λ _. (view pass.new).out ≡ None) }
    ensures held { IfOk result (λ _. AreHeld iface.new.frames (view pass.new)) }
{
    for key in from..to {
        let reply = put_at(rt, pool, pass, iface, key, 1);
        if !matches!(reply, Ok(Reply::Was(None))) {
            return Err(Fail::from(("put", key, reply)));
        }
    }
    Ok(())
}

/// The keys from `from` on and below `to`, each of which has the value 1, are taken out.
pub fn del_range<S: OfSize<N>, R: Wait, const N: usize>(
    rt: &R,
    pool: &Pool<TreeOf<WordKeys<S, N>>, MemBlock<N>, N>,
    pass: &mut Pass<TreeOf<WordKeys<S, N>>>,
    iface: &mut Interface,
    from: u64,
    to: u64,
) -> Result<(), Fail>
    requires pages { 1 ≤ pool.now.words.table.shared.key.pages }
    requires ready { IsReadyOn pool.now.words ⟦<MemBlock<N> as Block>⟧.tells pass.old }
    requires home { (view pass.old).out ≡ None }
    requires held { AreHeld iface.old.frames (view pass.old) }
    ensures ready { IfOk result (λ _. IsReadyOn pool.now.words ⟦<MemBlock<N> as Block>⟧.tells pass.new) }
    ensures home { IfOk result (λ _. (view pass.new).out ≡ None) }
    ensures held { IfOk result (λ _. AreHeld iface.new.frames (view pass.new)) }
{
    for key in from..to {
        let reply = del_at(rt, pool, pass, iface, key);
        if !matches!(reply, Ok(Reply::Gone(Some(1)))) {
            return Err(Fail::from(("del", key, reply)));
        }
    }
    Ok(())
}

/// Each of these keys has this value, or is not there.
pub fn get_range<S: OfSize<N>, R: Wait, const N: usize>(
    rt: &R,
    pool: &Pool<TreeOf<WordKeys<S, N>>, MemBlock<N>, N>,
    pass: &mut Pass<TreeOf<WordKeys<S, N>>>,
    iface: &mut Interface,
    from: u64,
    to: u64,
    value: Option<u64>,
) -> Result<(), Fail>
    requires pages { 1 ≤ pool.now.words.table.shared.key.pages }
    requires ready { IsReadyOn pool.now.words ⟦<MemBlock<N> as Block>⟧.tells pass.old }
    requires home { (view pass.old).out ≡ None }
    requires held { AreHeld iface.old.frames (view pass.old) }
    ensures ready { IfOk result (λ _. IsReadyOn pool.now.words ⟦<MemBlock<N> as Block>⟧.tells pass.new) }
    ensures home { IfOk result (λ _. (view pass.new).out ≡ None) }
    ensures held { IfOk result (λ _. AreHeld iface.new.frames (view pass.new)) }
{
    for key in from..to {
        let reply = got(rt, pool, pass, iface, key);
        if reply != Ok(Reply::Got(value)) {
            return Err(Fail::from(("get", key, reply)));
        }
    }
    Ok(())
}
