// A round of a del that is tried until it is answered: one try, and the page brought that it needs. A round never waits.
ghost use Rattle.std.specs.Prelude.{◌≡◌};
ghost use Rattle.vm_map.specs.declared.call.Reply.TheVariants.{Gone};
ghost use Rattle.vm_tree_write.specs.from_vm_step.Prelude.{AreHeld, GoesOn, view};
ghost use Rattle.vm_tree_write.specs.from_vm_tree_read.Waiting.{LosesNone, RoundTells, Waits};
ghost use Rattle.vm_tree_write.specs.from_vm_tree_rule.Turns.{IsDamaged, IsNeeded};
ghost use Rattle.vm_tree_write.specs.declared.write.TryWrite.TheVariants.{Done as Answered};
ghost use Rattle.vm_tree_write.specs.Writes.{HasKeyIn};
ghost use Rattle.vm_tree_retry.specs.from_vm_tree_round.Rounds.{IsWriteFault, IsWriteRound, MayTry};
ghost use Rattle.vm_tree_del.specs.Dels.{IsPlainDel};

use crate::once::del_once;
use vm_block::PageBlock;
use vm_tree_write::exmap::Interface;
use vm_tree_write::kind::{Edits, TreeOf};
use vm_tree_write::pool::Pool;
use vm_tree_write::rule::Pass;
use vm_tree_write::tree_read::{Round, fetch};
use vm_tree_write::tree_rule::TreeFault;
use vm_tree_write::write::Tried;

/// A round of a del in the leaf alone.
pub fn del_round<K: Edits, B: PageBlock<N>, const N: usize>(
    pool: &Pool<TreeOf<K>, B, N>,
    pass: &mut Pass<TreeOf<K>>,
    iface: &mut Interface,
    key: &K::Key,
) -> Round<Option<u64>>
    requires { MayTry pool.now.words B.tells pass.old iface.old.frames }
    ensures goes { GoesOn pool.now.words B.tells pass.old pass.new }
    ensures held { AreHeld iface.new.frames (view pass.new) }
    ensures iface { (iface.new.home ≡ iface.old.home) × (iface.new.cap ≡ iface.old.cap) }
    ensures lost { LosesNone iface.old.frames (view pass.old) iface.new.frames (view pass.new) }
    ensures told { RoundTells
        (λ was. IsPlainDel K.plain K.layout (K.rank key.now) (Answered (Gone was)) (view pass.old) (view pass.new))
        (Waits (view pass.old) (view pass.new) × IsWriteRound K.layout (K.rank key.now) (view pass.old) (view pass.new))
        (λ fault. Waits (view pass.old) (view pass.new)
        × IsWriteFault K.layout (IsNeeded K.layout) (IsDamaged K.layout) (HasKeyIn K.layout) (K.rank key.now) fault (view pass.old) (view pass.new)) result }
{
    match del_once(&pool.words, pass, key) {
        Tried::Done(was) => Round::Done(was),
        Tried::Again(_) => Round::Later,
        Tried::Need(pid) => fetch(pool, pass, iface, pid),
        Tried::Worn(pid) => Round::Failed(TreeFault::Worn { pid }),
        Tried::Damaged(pid) => Round::Failed(TreeFault::Damaged { pid }),
        Tried::Tight(_) => unreachable!(),
    }
}
