// Two leaves that were read are locked with the pages above them, made one, and the numbers of the freed pages given; or nothing is done.
ghost use Rattle.std.specs.Prelude.{[], ◌++◌, ◌∷◌, ◌≡◌, IfErr, IfOk, length, List, None, replicate, slice_index, slice_set, true, ℕ};
ghost use Rattle.vm_tree_model.specs.Page.{IsInner, IsLeaf};
ghost use Rattle.vm_rule.specs.Prelude.{AreApart, loads_at};
ghost use Rattle.vm_tree_split.specs.from_vm_step.Prelude.{GoesOn, IsReadyOn, view};
ghost use Rattle.vm_tree_split.specs.from_vm_guard.{Denied.AgainOrWorn, Guards.IsReading};
ghost use Rattle.vm_tree_laws.specs.May.{MayCollapse, MayMerge};
ghost use Rattle.vm_tree_split.specs.from_vm_tree_rule.Resident.{KnowsResident};
ghost use Rattle.vm_tree_split.specs.Prepares.{IsLockDenied, SaysWorn};
ghost use Rattle.vm_tree_join.specs.{Locks.IsReadAs, Locks.KnowsFree, Made.IsMergeMade, Merging.page_change};

use crate::locks::{LocksOfFour, LocksOfThree, lock_four, lock_three};
use crate::merge::{give_number, write_collapse, write_merge};
use vm_block::Block;
use vm_rule::words::{Pass, Words};
use vm_tree_split::guard::{Deny, OptGuard};
use vm_tree_split::kind::{Edits, TreeOf};
use vm_tree_split::prepare::LockedPair;

/// Locks the parent and both leaves, at the versions read, and makes the merge: the left leaf gets the words of `joined`, and the right leaf's page is freed.
pub fn join_below<K: Edits, B: Block>(
    words: &Words<TreeOf<K>, B>,
    pass: &mut Pass<TreeOf<K>>,
    up: OptGuard,
    left: OptGuard,
    right: OptGuard,
    over: &K::Page,
    edit: K::Edit,
    first: &K::Page,
    joined: &K::Page,
    second: &K::Page,
    said: &K::Said,
) -> Result<(), Deny>
    requires ready { IsReadyOn words.now B.tells pass.old }
    requires home { (view pass.old).out ≡ None }
    requires apart { AreApart (up.pid ∷ left.pid ∷ right.pid ∷ []) }
    requires sizes { (length (K.words_of over.now) ≡ K.layout.words) × (length (K.words_of first.now) ≡ K.layout.words) × (length (K.words_of second.now) ≡ K.layout.words) }
    requires above { IsReadAs K.layout up (K.words_of over.now) 3 (view pass.old) }
    requires left { IsReadAs K.layout left (K.words_of first.now) 2 (view pass.old) }
    requires right { IsReadAs K.layout right (K.words_of second.now) 2 (view pass.old) }
    requires merge { (view pass.old).start.tells ≡ true → IsInner K.layout (K.words_of over.now) → IsLeaf K.layout (K.words_of first.now) → IsLeaf K.layout (K.words_of second.now)
        → MayMerge K.layout (page_change up.pid (K.words_of over.now) (K.edited (K.words_of over.now) edit))
        (page_change left.pid (K.words_of first.now) (K.words_of joined.now)) (page_change right.pid (K.words_of second.now) (replicate K.layout.words 0)) (K.plain said.now) }
    ensures goes { GoesOn words.now B.tells pass.old pass.new }
    ensures ok { IfOk result (λ _. IsMergeMade K.plain K.layout (up ∷ left ∷ right ∷ []) (right.pid ∷ []) said.now (view pass.old) (view pass.new)) }
    ensures err { IfErr result (λ deny. AgainOrWorn deny × IsLockDenied K.layout (up ∷ left ∷ right ∷ []) deny (view pass.old) (view pass.new)) }
    ensures sure { KnowsFree (up ∷ left ∷ right ∷ []) (view pass.old) → IfErr result SaysWorn }
    ensures known { KnowsResident (view pass.old) → IfOk result (λ _. KnowsResident (view pass.new)) }
{
    let locks = match lock_three(words, pass, up, left, right) {
        Ok(locks) => locks,
        Err(deny) => return Err(deny),
    };
    let LocksOfThree {
        first: above,
        others,
    } = locks;
    let LockedPair { up: one, low: two } = others;
    let freed = two.pid;
    write_merge(
        words, pass, above, one, two, over, edit, first, joined, second, said,
    );
    give_number::<K, _>(words, pass, freed);
    Ok(())
}

/// The same of the root's last two leaves: page 0 is locked too, and the old root's page is freed as well.
pub fn join_last<K: Edits, B: Block>(
    words: &Words<TreeOf<K>, B>,
    pass: &mut Pass<TreeOf<K>>,
    meta: OptGuard,
    root: OptGuard,
    left: OptGuard,
    right: OptGuard,
    over: &K::Page,
    first: &K::Page,
    joined: &K::Page,
    second: &K::Page,
    said: &K::Said,
) -> Result<(), Deny>
    requires ready { IsReadyOn words.now B.tells pass.old }
    requires home { (view pass.old).out ≡ None }
    requires apart { AreApart (meta.pid ∷ root.pid ∷ left.pid ∷ right.pid ∷ []) }
    requires sizes { (length (K.words_of over.now) ≡ K.layout.words) × (length (K.words_of first.now) ≡ K.layout.words) × (length (K.words_of second.now) ≡ K.layout.words) }
    requires zero { meta.pid ≡ 0 }
    requires meta { IsReading meta.pid meta.word meta.frame (view pass.old) × ((before : List (ℕ × ℕ)) × (loads_at (view pass.old) meta.pid ≡ before ++ (1, root.pid) ∷ (2, 1) ∷ [])) }
    requires above { IsReadAs K.layout root (K.words_of over.now) 3 (view pass.old) }
    requires left { IsReadAs K.layout left (K.words_of first.now) 2 (view pass.old) }
    requires right { IsReadAs K.layout right (K.words_of second.now) 2 (view pass.old) }
    requires merge { (view pass.old).start.tells ≡ true → (page : List ℕ) → slice_index page 1 ≡ root.pid → IsInner K.layout (K.words_of over.now)
        → IsLeaf K.layout (K.words_of first.now) → IsLeaf K.layout (K.words_of second.now)
        → MayCollapse K.layout (page_change meta.pid page (slice_set (slice_set page 1 left.pid) 2 0)) (page_change root.pid (K.words_of over.now) (replicate K.layout.words 0))
        (page_change left.pid (K.words_of first.now) (K.words_of joined.now)) (page_change right.pid (K.words_of second.now) (replicate K.layout.words 0)) (K.plain said.now) }
    ensures goes { GoesOn words.now B.tells pass.old pass.new }
    ensures ok { IfOk result (λ _. IsMergeMade K.plain K.layout (meta ∷ root ∷ left ∷ right ∷ []) (root.pid ∷ right.pid ∷ []) said.now (view pass.old) (view pass.new)) }
    ensures err { IfErr result (λ deny. AgainOrWorn deny × IsLockDenied K.layout (meta ∷ root ∷ left ∷ right ∷ []) deny (view pass.old) (view pass.new)) }
    ensures sure { KnowsFree (meta ∷ root ∷ left ∷ right ∷ []) (view pass.old) → IfErr result SaysWorn }
    ensures known { KnowsResident (view pass.old) → IfOk result (λ _. KnowsResident (view pass.new)) }
{
    let locks = match lock_four(words, pass, meta, root, left, right) {
        Ok(locks) => locks,
        Err(deny) => return Err(deny),
    };
    let LocksOfFour {
        first: zero,
        others: rest,
    } = locks;
    let LocksOfThree {
        first: above,
        others,
    } = rest;
    let LockedPair { up: one, low: two } = others;
    let (old_root, freed) = (above.pid, two.pid);
    write_collapse(
        words, pass, zero, above, one, two, over, first, joined, second, said,
    );
    give_number::<K, _>(words, pass, old_root);
    give_number::<K, _>(words, pass, freed);
    Ok(())
}
