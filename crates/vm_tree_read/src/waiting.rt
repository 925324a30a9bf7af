// The reads that wait: one round after another (see `round`) until one is answered, and a rest where others came before.
ghost use Rattle.std.specs.Prelude.{◌≡◌, ◌≤◌, IfErr, IfOk, None};
ghost use Rattle.vm_map.specs.declared.call.Call.TheVariants.{Get, Window as ForWindow};
ghost use Rattle.vm_tree_rule.specs.from_vm_step.Prelude.{AreHeld, GoesOn, IsReadyOn, view};
ghost use Rattle.vm_map.specs.declared.window.Window.{Window};
ghost use Rattle.vm_tree_read.specs.Reads.{IsOfKind, says_window};
ghost use Rattle.vm_tree_read.specs.Waiting.{IsFaulted, IsReplied, LosesNone};

use crate::round::{Round, get_round, window_round};
use crossbeam_utils::Backoff;
use std::sync::Wait;
use vm_block::PageBlock;
use vm_map::call::Reply;
use vm_pool::Pool;
use vm_pool::exmap::Interface;
use vm_pool::rule::Pass;
use vm_tree_rule::TreeFault;
use vm_tree_rule::kind::{Kind, Ranges, TreeOf, Windows};

/// The value at the key.
pub fn get<K: Kind, R: Wait, B: PageBlock<N>, const N: usize>(
    rt: &R,
    pool: &Pool<TreeOf<K>, B, N>,
    pass: &mut Pass<TreeOf<K>>,
    iface: &mut Interface,
    key: &K::Key,
) -> Result<Reply, TreeFault>
    requires ready { IsReadyOn pool.now.words B.tells pass.old }
    requires pages { 1 ≤ pool.now.words.table.shared.key.pages }
    requires home { (view pass.old).out ≡ None }
    requires frames { AreHeld iface.old.frames (view pass.old) }
    ensures goes { GoesOn pool.now.words B.tells pass.old pass.new }
    ensures held { AreHeld iface.new.frames (view pass.new) }
    ensures iface { (iface.new.home ≡ iface.old.home) × (iface.new.cap ≡ iface.old.cap) }
    ensures lost { LosesNone iface.old.frames (view pass.old) iface.new.frames (view pass.new) }
    ensures ok { IfOk result (λ reply. IsReplied K.plain K.layout (record { call = Get (K.rank key.now); reply = reply }) (view pass.old) (view pass.new)) }
    ensures kind { IfOk result (λ reply. IsOfKind (Get (K.rank key.now)) reply) }
    ensures err { IfErr result (λ fault. IsFaulted K.layout (K.rank key.now) fault (view pass.old) (view pass.new)) }
{
    let backoff = Backoff::new();
    for _ in rt.forever() {
        match get_round(pool, pass, iface, key) {
            Round::Done(value) => return Ok(Reply::Got(value)),
            Round::Soon => {}
            Round::Later => backoff.snooze(),
            Round::Failed(fault) => return Err(fault),
        }
    }
    unreachable!()
}

/// A window with its reply: the first pairs from the key `start` on, at most `most` (1 or more) of them and at most those of one leaf.
pub fn window_said<K: Windows, R: Wait, B: PageBlock<N>, const N: usize>(
    rt: &R,
    pool: &Pool<TreeOf<K>, B, N>,
    pass: &mut Pass<TreeOf<K>>,
    iface: &mut Interface,
    start: &K::Key,
    most: u32,
) -> Result<K::Said, TreeFault>
    requires ready { IsReadyOn pool.now.words B.tells pass.old }
    requires pages { 1 ≤ pool.now.words.table.shared.key.pages }
    requires most { 1 ≤ most }
    requires home { (view pass.old).out ≡ None }
    requires frames { AreHeld iface.old.frames (view pass.old) }
    ensures goes { GoesOn pool.now.words B.tells pass.old pass.new }
    ensures held { AreHeld iface.new.frames (view pass.new) }
    ensures iface { (iface.new.home ≡ iface.old.home) × (iface.new.cap ≡ iface.old.cap) }
    ensures lost { LosesNone iface.old.frames (view pass.old) iface.new.frames (view pass.new) }
    ensures ok { IfOk result (λ said. (shown : Window) × (K.plain said ≡ says_window (K.rank start.now) most shown)
        × IsReplied K.plain K.layout (says_window (K.rank start.now) most shown) (view pass.old) (view pass.new)) }
    ensures err { IfErr result (λ fault. IsFaulted K.layout (K.rank start.now) fault (view pass.old) (view pass.new)) }
{
    let backoff = Backoff::new();
    for _ in rt.forever() {
        match window_round(pool, pass, iface, start, most) {
            Round::Done(said) => return Ok(said),
            Round::Soon => {}
            Round::Later => backoff.snooze(),
            Round::Failed(fault) => return Err(fault),
        }
    }
    unreachable!()
}

/// The first pairs from the key `start` on, at most `most` (1 or more) of them and at most those of one leaf.
pub fn window<K: Ranges, R: Wait, B: PageBlock<N>, const N: usize>(
    rt: &R,
    pool: &Pool<TreeOf<K>, B, N>,
    pass: &mut Pass<TreeOf<K>>,
    iface: &mut Interface,
    start: &K::Key,
    most: u32,
) -> Result<Reply, TreeFault>
    requires ready { IsReadyOn pool.now.words B.tells pass.old }
    requires pages { 1 ≤ pool.now.words.table.shared.key.pages }
    requires most { 1 ≤ most }
    requires home { (view pass.old).out ≡ None }
    requires frames { AreHeld iface.old.frames (view pass.old) }
    ensures goes { GoesOn pool.now.words B.tells pass.old pass.new }
    ensures held { AreHeld iface.new.frames (view pass.new) }
    ensures iface { (iface.new.home ≡ iface.old.home) × (iface.new.cap ≡ iface.old.cap) }
    ensures lost { LosesNone iface.old.frames (view pass.old) iface.new.frames (view pass.new) }
    ensures ok { IfOk result (λ reply. IsReplied K.plain K.layout (record { call = ForWindow (K.rank start.now) most; reply = reply }) (view pass.old) (view pass.new)) }
    ensures kind { IfOk result (λ reply. IsOfKind (ForWindow (K.rank start.now) most) reply) }
    ensures err { IfErr result (λ fault. IsFaulted K.layout (K.rank start.now) fault (view pass.old) (view pass.new)) }
{
    match window_said(rt, pool, pass, iface, start, most) {
        Ok(said) => Ok(K::reply_of(said)),
        Err(fault) => Err(fault),
    }
}
