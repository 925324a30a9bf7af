// The writes that wait: one round after another (see `round`) until one is answered, and a rest where others came before.
ghost use Rattle.std.specs.Prelude.{◌≡◌, ◌≤◌, IfErr, IfOk, None};
ghost use Rattle.vm_map.specs.declared.call.Call.TheVariants.{Del, Put, Swap as ForSwap};
ghost use Rattle.vm_tree_round.specs.from_vm_step.Prelude.{AreHeld, GoesOn, IsReadyOn, view};
ghost use Rattle.vm_tree_round.specs.from_vm_tree_read.Reads.{IsOfKind};
ghost use Rattle.vm_tree_round.specs.from_vm_tree_read.Waiting.{LosesNone, Waits};
ghost use Rattle.vm_tree_round.specs.from_vm_tree_rule.Turns.{IsDamaged, IsNeeded};
ghost use Rattle.vm_tree_round.specs.from_vm_tree_split.Splits.{KeepsLocksOnly};
ghost use Rattle.vm_tree_round.specs.from_vm_tree_write.Writes.{HasKeyIn, HasValueIn};
ghost use Rattle.vm_tree_round.specs.Rounds.{IsDamagedForDel, IsDelRound, IsNeededByDel, IsPutRound, IsWriteRound};
ghost use Rattle.vm_tree_retry.specs.Waiting.{IsDelReplied, IsPutFaulted, IsWriteFaulted, IsWriteReplied};

use crossbeam_utils::Backoff;
use std::sync::Wait;
use vm_block::PageBlock;
use vm_map::call::{Reply, Swap};
use vm_tree_round::exmap::Interface;
use vm_tree_round::kind::{Edits, Merges, TreeOf};
use vm_tree_round::pool::Pool;
use vm_tree_round::rule::Pass;
use vm_tree_round::tree_read::Round;
use vm_tree_round::tree_rule::TreeFault;
use vm_tree_round::{del_round, put_round, swap_round};

/// Takes the pair of the key out.
pub fn del<K: Merges, R: Wait, B: PageBlock<N>, const N: usize>(
    rt: &R,
    pool: &Pool<TreeOf<K>, B, N>,
    pass: &mut Pass<TreeOf<K>>,
    iface: &mut Interface,
    key: &K::Key,
) -> Result<Reply, TreeFault>
    requires ready { IsReadyOn pool.now.words B.tells pass.old }
    requires pages { 1 ≤ pool.now.words.table.shared.key.pages }
    requires home { (view pass.old).out ≡ None }
    requires frames { AreHeld iface.old.frames (view pass.old) }
    ensures goes { GoesOn pool.now.words B.tells pass.old pass.new }
    ensures held { AreHeld iface.new.frames (view pass.new) }
    ensures iface { (iface.new.home ≡ iface.old.home) × (iface.new.cap ≡ iface.old.cap) }
    ensures lost { LosesNone iface.old.frames (view pass.old) iface.new.frames (view pass.new) }
    ensures ok { IfOk result (λ reply. IsDelReplied K.plain K.layout (K.rank key.now) reply (view pass.old) (view pass.new)) }
    ensures kind { IfOk result (λ reply. IsOfKind (Del (K.rank key.now)) reply) }
    ensures err { IfErr result (λ fault. IsWriteFaulted K.layout KeepsLocksOnly (IsDelRound K.layout) (IsNeededByDel K.layout)
        (IsDamagedForDel K.layout) (HasKeyIn K.layout) (K.rank key.now) fault (view pass.old) (view pass.new)) }
{
    let backoff = Backoff::new();
    for _ in rt.forever() {
        match del_round(pool, pass, iface, key) {
            Round::Done(was) => return Ok(Reply::Gone(was)),
            Round::Soon => {}
            Round::Later => backoff.snooze(),
            Round::Failed(fault) => return Err(fault),
        }
    }
    unreachable!()
}

/// Puts a value at the key where its value is the one that is wanted.
pub fn swap<K: Edits, R: Wait, B: PageBlock<N>, const N: usize>(
    rt: &R,
    pool: &Pool<TreeOf<K>, B, N>,
    pass: &mut Pass<TreeOf<K>>,
    iface: &mut Interface,
    key: &K::Key,
    want: u64,
    value: u64,
) -> Result<Reply, TreeFault>
    requires ready { IsReadyOn pool.now.words B.tells pass.old }
    requires pages { 1 ≤ pool.now.words.table.shared.key.pages }
    requires home { (view pass.old).out ≡ None }
    requires frames { AreHeld iface.old.frames (view pass.old) }
    ensures goes { GoesOn pool.now.words B.tells pass.old pass.new }
    ensures held { AreHeld iface.new.frames (view pass.new) }
    ensures iface { (iface.new.home ≡ iface.old.home) × (iface.new.cap ≡ iface.old.cap) }
    ensures lost { LosesNone iface.old.frames (view pass.old) iface.new.frames (view pass.new) }
    ensures ok { IfOk result (λ reply. IsWriteReplied K.plain K.layout Waits (IsWriteRound K.layout)
        (record { call = ForSwap (K.rank key.now) want value; reply = reply }) (view pass.old) (view pass.new)) }
    ensures kind { IfOk result (λ reply. IsOfKind (ForSwap (K.rank key.now) want value) reply) }
    ensures err { IfErr result (λ fault. IsWriteFaulted K.layout Waits (IsWriteRound K.layout) (IsNeeded K.layout) (IsDamaged K.layout) (λ words key. HasValueIn K.layout words key want)
        (K.rank key.now) fault (view pass.old) (view pass.new)) }
{
    let backoff = Backoff::new();
    for _ in rt.forever() {
        match swap_round(pool, pass, iface, key, want, value) {
            Round::Done(was) => return Ok(Reply::Swapped(Swap::outcome(was, want))),
            Round::Soon => {}
            Round::Later => backoff.snooze(),
            Round::Failed(fault) => return Err(fault),
        }
    }
    unreachable!()
}

/// Puts a value at the key.
pub fn put<K: Edits, R: Wait, B: PageBlock<N>, const N: usize>(
    rt: &R,
    pool: &Pool<TreeOf<K>, B, N>,
    pass: &mut Pass<TreeOf<K>>,
    iface: &mut Interface,
    key: &K::Key,
    value: u64,
) -> Result<Reply, TreeFault>
    requires ready { IsReadyOn pool.now.words B.tells pass.old }
    requires pages { 1 ≤ pool.now.words.table.shared.key.pages }
    requires home { (view pass.old).out ≡ None }
    requires frames { AreHeld iface.old.frames (view pass.old) }
    ensures goes { GoesOn pool.now.words B.tells pass.old pass.new }
    ensures held { AreHeld iface.new.frames (view pass.new) }
    ensures iface { (iface.new.home ≡ iface.old.home) × (iface.new.cap ≡ iface.old.cap) }
    ensures lost { LosesNone iface.old.frames (view pass.old) iface.new.frames (view pass.new) }
    ensures ok { IfOk result (λ reply. IsWriteReplied K.plain K.layout KeepsLocksOnly (IsPutRound K.plain K.layout K.spare) (record { call = Put (K.rank key.now) value; reply = reply })
        (view pass.old) (view pass.new)) }
    ensures kind { IfOk result (λ reply. IsOfKind (Put (K.rank key.now) value) reply) }
    ensures err { IfErr result (λ fault. IsPutFaulted K.plain K.layout K.spare (K.rank key.now) fault (view pass.old) (view pass.new)) }
{
    let backoff = Backoff::new();
    for _ in rt.forever() {
        match put_round(pool, pass, iface, key, value) {
            Round::Done(was) => return Ok(Reply::Was(was)),
            Round::Soon => {}
            Round::Later => backoff.snooze(),
            Round::Failed(fault) => return Err(fault),
        }
    }
    unreachable!()
}
