// The del that waits: one round after another (see `round`) until one is answered, and a rest where others came before.
ghost use Rattle.std.specs.Prelude.{◌≡◌, ◌≤◌, IfErr, IfOk, None};
ghost use Rattle.vm_map.specs.declared.call.Call.TheVariants.{Del};
ghost use Rattle.vm_tree_write.specs.from_vm_step.Prelude.{AreHeld, GoesOn, IsReadyOn, view};
ghost use Rattle.vm_tree_write.specs.from_vm_tree_read.Reads.{IsOfKind};
ghost use Rattle.vm_tree_write.specs.from_vm_tree_read.Waiting.{LosesNone, Waits};
ghost use Rattle.vm_tree_write.specs.from_vm_tree_rule.Turns.{IsDamaged, IsNeeded};
ghost use Rattle.vm_tree_write.specs.Writes.{HasKeyIn};
ghost use Rattle.vm_tree_retry.specs.from_vm_tree_round.Rounds.{IsWriteRound};
ghost use Rattle.vm_tree_retry.specs.Waiting.{IsWriteFaulted, IsWriteReplied};

use crate::round::del_round;
use crossbeam_utils::Backoff;
use std::sync::Wait;
use vm_block::PageBlock;
use vm_map::call::Reply;
use vm_tree_write::exmap::Interface;
use vm_tree_write::kind::{Edits, TreeOf};
use vm_tree_write::pool::Pool;
use vm_tree_write::rule::Pass;
use vm_tree_write::tree_read::Round;
use vm_tree_write::tree_rule::TreeFault;

/// Takes the pair of the key out of its leaf.
pub fn del<K: Edits, R: Wait, B: PageBlock<N>, const N: usize>(
    rt: &R,
    pool: &Pool<TreeOf<K>, B, N>,
    pass: &mut Pass<TreeOf<K>>,
    iface: &mut Interface,
    key: &K::Key,
) -> Result<Reply, TreeFault>
    requires ready { IsReadyOn pool.now.words B.tells pass.old }
    requires pages { 1 ≤ pool.now.words.table.shared.key.pages }
    requires home { (view pass.old).out ≡ None }
    requires frames { AreHeld iface.old.frames (view pass.old) }
    ensures goes { GoesOn pool.now.words B.tells pass.old pass.new }
    ensures held { AreHeld iface.new.frames (view pass.new) }
    ensures iface { (iface.new.home ≡ iface.old.home) × (iface.new.cap ≡ iface.old.cap) }
    ensures lost { LosesNone iface.old.frames (view pass.old) iface.new.frames (view pass.new) }
    ensures ok { IfOk result (λ reply. IsWriteReplied K.plain K.layout Waits (IsWriteRound K.layout)
        (record { call = Del (K.rank key.now); reply = reply }) (view pass.old) (view pass.new)) }
    ensures kind { IfOk result (λ reply. IsOfKind (Del (K.rank key.now)) reply) }
    ensures err { IfErr result (λ fault. IsWriteFaulted K.layout Waits (IsWriteRound K.layout) (IsNeeded K.layout) (IsDamaged K.layout) (HasKeyIn K.layout)
        (K.rank key.now) fault (view pass.old) (view pass.new)) }
{
    let backoff = Backoff::new();
    for _ in rt.forever() {
        match del_round(pool, pass, iface, key) {
            Round::Done(was) => return Ok(Reply::Gone(was)),
            Round::Soon => {}
            Round::Later => backoff.snooze(),
            Round::Failed(fault) => return Err(fault),
        }
    }
    unreachable!()
}
