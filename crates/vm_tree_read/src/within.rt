// The reads that never wait, in so many rounds (see `round`) at most: where all of them were in vain there is no reply.
ghost use Rattle.std.specs.Prelude.{◌<◌, ◌≡◌, ◌≤◌, IfErr, IfOk, IfSome, None};
ghost use Rattle.vm_map.specs.declared.call.Call.TheVariants.{Get, Window as ForWindow};
ghost use Rattle.vm_tree_rule.specs.from_vm_step.Prelude.{AreHeld, GoesOn, IsReadyOn, NoneExpected, view};
ghost use Rattle.vm_map.specs.declared.window.Window.{Window};
ghost use Rattle.vm_tree_read.specs.Reads.{IsOfKind, says_window};
ghost use Rattle.vm_tree_read.specs.Waiting.{HasRounds, IsFaulted, IsReplied, IsRound, LosesNone, rounds_in, Waits};

use crate::round::{Round, get_round, window_round};
use vm_block::PageBlock;
use vm_map::call::Reply;
use vm_pool::Pool;
use vm_pool::exmap::Interface;
use vm_pool::rule::Pass;
use vm_tree_rule::TreeFault;
use vm_tree_rule::kind::{Kind, Ranges, TreeOf, Windows};

/// As `get`, in at most `turns` rounds.
pub fn get_within<K: Kind, B: PageBlock<N>, const N: usize>(
    pool: &Pool<TreeOf<K>, B, N>,
    pass: &mut Pass<TreeOf<K>>,
    iface: &mut Interface,
    key: &K::Key,
    turns: u32,
) -> Result<Option<Reply>, TreeFault>
    requires ready { IsReadyOn pool.now.words B.tells pass.old }
    requires pages { 1 ≤ pool.now.words.table.shared.key.pages }
    requires home { (view pass.old).out ≡ None }
    requires frames { AreHeld iface.old.frames (view pass.old) }
    ensures goes { GoesOn pool.now.words B.tells pass.old pass.new }
    ensures held { AreHeld iface.new.frames (view pass.new) }
    ensures iface { (iface.new.home ≡ iface.old.home) × (iface.new.cap ≡ iface.old.cap) }
    ensures lost { LosesNone iface.old.frames (view pass.old) iface.new.frames (view pass.new) }
    ensures some { IfOk result (λ answer. IfSome answer (λ reply.
        (r : IsReplied K.plain K.layout (record { call = Get (K.rank key.now); reply = reply }) (view pass.old) (view pass.new)) × (rounds_in r.rounds < turns))) }
    ensures kind { IfOk result (λ answer. IfSome answer (λ reply. IsOfKind (Get (K.rank key.now)) reply)) }
    ensures none { IfOk result (λ answer. answer ≡ None → Waits (view pass.old) (view pass.new)
        × HasRounds (IsRound K.layout NoneExpected (K.rank key.now)) turns (view pass.old) (view pass.new)) }
    ensures err { IfErr result (λ fault. (r : IsFaulted K.layout (K.rank key.now) fault (view pass.old) (view pass.new)) × (rounds_in r.rounds < turns)) }
{
    'rounds: for _made in 0..turns {
        match get_round(pool, pass, iface, key) {
            Round::Done(value) => return Ok(Some(Reply::Got(value))),
            Round::Soon => continue,
            Round::Later => continue,
            Round::Failed(fault) => return Err(fault),
        }
    }
    Ok(None)
}

/// As `window_said`, in at most `turns` rounds.
pub fn window_said_within<K: Windows, B: PageBlock<N>, const N: usize>(
    pool: &Pool<TreeOf<K>, B, N>,
    pass: &mut Pass<TreeOf<K>>,
    iface: &mut Interface,
    start: &K::Key,
    most: u32,
    turns: u32,
) -> Result<Option<K::Said>, TreeFault>
    requires ready { IsReadyOn pool.now.words B.tells pass.old }
    requires pages { 1 ≤ pool.now.words.table.shared.key.pages }
    requires most { 1 ≤ most }
    requires home { (view pass.old).out ≡ None }
    requires frames { AreHeld iface.old.frames (view pass.old) }
    ensures goes { GoesOn pool.now.words B.tells pass.old pass.new }
    ensures held { AreHeld iface.new.frames (view pass.new) }
    ensures iface { (iface.new.home ≡ iface.old.home) × (iface.new.cap ≡ iface.old.cap) }
    ensures lost { LosesNone iface.old.frames (view pass.old) iface.new.frames (view pass.new) }
    ensures some { IfOk result (λ answer. IfSome answer (λ said. (shown : Window) × (K.plain said ≡ says_window (K.rank start.now) most shown)
        × (r : IsReplied K.plain K.layout (says_window (K.rank start.now) most shown) (view pass.old) (view pass.new)) × (rounds_in r.rounds < turns))) }
    ensures none { IfOk result (λ answer. answer ≡ None → Waits (view pass.old) (view pass.new)
        × HasRounds (IsRound K.layout NoneExpected (K.rank start.now)) turns (view pass.old) (view pass.new)) }
    ensures err { IfErr result (λ fault. (r : IsFaulted K.layout (K.rank start.now) fault (view pass.old) (view pass.new)) × (rounds_in r.rounds < turns)) }
{
    'rounds: for _made in 0..turns {
        match window_round(pool, pass, iface, start, most) {
            Round::Done(said) => return Ok(Some(said)),
            Round::Soon => continue,
            Round::Later => continue,
            Round::Failed(fault) => return Err(fault),
        }
    }
    Ok(None)
}

/// As `window`, in at most `turns` rounds.
pub fn window_within<K: Ranges, B: PageBlock<N>, const N: usize>(
    pool: &Pool<TreeOf<K>, B, N>,
    pass: &mut Pass<TreeOf<K>>,
    iface: &mut Interface,
    start: &K::Key,
    most: u32,
    turns: u32,
) -> Result<Option<Reply>, TreeFault>
    requires ready { IsReadyOn pool.now.words B.tells pass.old }
    requires pages { 1 ≤ pool.now.words.table.shared.key.pages }
    requires most { 1 ≤ most }
    requires home { (view pass.old).out ≡ None }
    requires frames { AreHeld iface.old.frames (view pass.old) }
    ensures goes { GoesOn pool.now.words B.tells pass.old pass.new }
    ensures held { AreHeld iface.new.frames (view pass.new) }
    ensures iface { (iface.new.home ≡ iface.old.home) × (iface.new.cap ≡ iface.old.cap) }
    ensures lost { LosesNone iface.old.frames (view pass.old) iface.new.frames (view pass.new) }
    ensures some { IfOk result (λ answer. IfSome answer (λ reply.
        (r : IsReplied K.plain K.layout (record { call = ForWindow (K.rank start.now) most; reply = reply }) (view pass.old) (view pass.new)) × (rounds_in r.rounds < turns))) }
    ensures kind { IfOk result (λ answer. IfSome answer (λ reply. IsOfKind (ForWindow (K.rank start.now) most) reply)) }
    ensures none { IfOk result (λ answer. answer ≡ None → Waits (view pass.old) (view pass.new)
        × HasRounds (IsRound K.layout NoneExpected (K.rank start.now)) turns (view pass.old) (view pass.new)) }
    ensures err { IfErr result (λ fault. (r : IsFaulted K.layout (K.rank start.now) fault (view pass.old) (view pass.new)) × (rounds_in r.rounds < turns)) }
{
    match window_said_within(pool, pass, iface, start, most, turns) {
        Ok(Some(said)) => Ok(Some(K::reply_of(said))),
        Ok(None) => Ok(None),
        Err(fault) => Err(fault),
    }
}
