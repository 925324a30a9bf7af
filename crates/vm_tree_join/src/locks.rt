// Three or four pages that are locked together, at the versions read, or none of them.
ghost use Rattle.std.specs.Prelude.{[], ◌∷◌, ◌≡◌, IfErr, IfOk, None};
ghost use Rattle.vm_rule.specs.Prelude.{AreApart};
ghost use Rattle.vm_tree_split.specs.from_vm_step.Prelude.{GoesOn, IsReadyOn, view};
ghost use Rattle.vm_tree_split.specs.from_vm_guard.{Denied.AgainOrWorn, Guards.IsReading};
ghost use Rattle.vm_tree_split.specs.Prepares.{IsLockDenied, SaysWorn};
ghost use Rattle.vm_tree_join.specs.Locks.{AreAllLocked, KnowsFree};

use vm_block::Block;
use vm_rule::words::{Pass, Words};
use vm_tree_split::guard::{Deny, ExclusiveGuard, OptGuard};
use vm_tree_split::kind::{Kind, TreeOf};
use vm_tree_split::prepare::{LockedPair, lock_two};

/// Three pages that are locked: one, and two more.
pub struct LocksOfThree {
    pub first: ExclusiveGuard,
    pub others: LockedPair,
}

/// Four.
pub struct LocksOfFour {
    pub first: ExclusiveGuard,
    pub others: LocksOfThree,
}

/// Locks three pages at the versions read, or none of them.
pub fn lock_three<K: Kind, B: Block>(
    words: &Words<TreeOf<K>, B>,
    pass: &mut Pass<TreeOf<K>>,
    first: OptGuard,
    second: OptGuard,
    third: OptGuard,
) -> Result<LocksOfThree, Deny>
    requires ready { IsReadyOn words.now B.tells pass.old }
    requires home { (view pass.old).out ≡ None }
    requires apart { AreApart (first.pid ∷ second.pid ∷ third.pid ∷ []) }
    requires first { IsReading first.pid first.word first.frame (view pass.old) }
    requires second { IsReading second.pid second.word second.frame (view pass.old) }
    requires third { IsReading third.pid third.word third.frame (view pass.old) }
    ensures goes { GoesOn words.now B.tells pass.old pass.new }
    ensures ok { IfOk result (λ l. AreAllLocked K.layout (first ∷ second ∷ third ∷ []) (l.first ∷ l.others.up ∷ l.others.low ∷ []) (view pass.old) (view pass.new)) }
    ensures err { IfErr result (λ deny. AgainOrWorn deny × IsLockDenied K.layout (first ∷ second ∷ third ∷ []) deny (view pass.old) (view pass.new)) }
    ensures sure { KnowsFree (first ∷ second ∷ third ∷ []) (view pass.old) → IfErr result SaysWorn }
{
    let held = match first.upgrade(words, pass) {
        Ok(held) => held,
        Err(deny) => return Err(deny),
    };
    match lock_two(words, pass, second, third) {
        Ok(others) => Ok(LocksOfThree {
            first: held,
            others,
        }),
        Err(deny) => {
            held.release(words, pass, None::<K::Said>.as_ref());
            Err(deny)
        }
    }
}

/// The same of four pages.
pub fn lock_four<K: Kind, B: Block>(
    words: &Words<TreeOf<K>, B>,
    pass: &mut Pass<TreeOf<K>>,
    first: OptGuard,
    second: OptGuard,
    third: OptGuard,
    fourth: OptGuard,
) -> Result<LocksOfFour, Deny>
    requires ready { IsReadyOn words.now B.tells pass.old }
    requires home { (view pass.old).out ≡ None }
    requires apart { AreApart (first.pid ∷ second.pid ∷ third.pid ∷ fourth.pid ∷ []) }
    requires first { IsReading first.pid first.word first.frame (view pass.old) }
    requires second { IsReading second.pid second.word second.frame (view pass.old) }
    requires third { IsReading third.pid third.word third.frame (view pass.old) }
    requires fourth { IsReading fourth.pid fourth.word fourth.frame (view pass.old) }
    ensures goes { GoesOn words.now B.tells pass.old pass.new }
    ensures ok { IfOk result (λ l. AreAllLocked K.layout (first ∷ second ∷ third ∷ fourth ∷ [])
        (l.first ∷ l.others.first ∷ l.others.others.up ∷ l.others.others.low ∷ []) (view pass.old) (view pass.new)) }
    ensures err { IfErr result (λ deny. AgainOrWorn deny
        × IsLockDenied K.layout (first ∷ second ∷ third ∷ fourth ∷ []) deny (view pass.old) (view pass.new)) }
    ensures sure { KnowsFree (first ∷ second ∷ third ∷ fourth ∷ []) (view pass.old) → IfErr result SaysWorn }
{
    let held = match first.upgrade(words, pass) {
        Ok(held) => held,
        Err(deny) => return Err(deny),
    };
    match lock_three(words, pass, second, third, fourth) {
        Ok(others) => Ok(LocksOfFour {
            first: held,
            others,
        }),
        Err(deny) => {
            held.release(words, pass, None::<K::Said>.as_ref());
            Err(deny)
        }
    }
}
