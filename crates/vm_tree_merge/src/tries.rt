// The try of a merge: a del that leaves few pairs in its leaf makes it one with its neighbour, where the conditions for that hold.
ghost use Rattle.std.specs.Prelude.{◌≡◌, length, List, None, Some, true, ℕ};
ghost use Rattle.vm_tree_model.specs.Page.{IsLeaf};
ghost use Rattle.vm_tree_laws.specs.May.{IsEdit};
ghost use Rattle.vm_tree_join.specs.from_vm_step.Prelude.{GoesOn, IsReadyOn, view};
ghost use Rattle.vm_tree_join.specs.from_vm_tree_rule.{Above.IsAbove, Above.IsParentOf, Above.KnowsAbove, Resident.IsKnownNow, Seeks.IsMetaRead};
ghost use Rattle.vm_tree_merge.specs.Tried.{IsDelRead, IsFinalMerge, IsKnownAfter, IsLeafRead, IsMergeTried};

use crate::beside::{is_last, neighbour_to_join};
use crate::pair::{merge_below, merge_last};
use vm_block::Block;
use vm_tree_join::guard::OptGuard;
use vm_tree_join::kind::{Merges, TreeOf};
use vm_tree_join::rule::{Pass, Words};
use vm_tree_join::step::Saw;
use vm_tree_join::tree_rule::{Above, Reached, Turn};

/// What a try of a merge comes to.
#[derive(Drop)]
pub enum Merge {
    /// The del and the merge were made, as one.
    Made,
    /// Nothing was done: a condition is not met, or the leaf, of this guard, is at the last version.
    Alone(OptGuard),
    /// Nothing was done: the neighbour, or the parent, could not be read.
    Turned(Turn),
    /// Others came before as pages were to be locked; those locked before were released again as they were.
    Lost(Saw),
}

/// The try of a leaf whose parent is not the root.
fn try_below<K: Merges, B: Block>(
    words: &Words<TreeOf<K>, B>,
    pass: &mut Pass<TreeOf<K>>,
    up: OptGuard,
    leaf: OptGuard,
    key: &K::Key,
    page: &K::Page,
    rest: &K::Page,
    said: &K::Said,
) -> Merge
    requires ready { IsReadyOn words.now B.tells pass.old }
    requires home { (view pass.old).out ≡ None }
    requires size { length (K.words_of page.now) ≡ K.layout.words }
    requires read { (v : _) × IsParentOf K.layout v (K.rank key.now) up leaf.pid (view pass.old)
        × IsLeafRead K.layout v (K.rank key.now) leaf (K.words_of page.now) (K.words_of rest.now) (K.plain said.now) (view pass.old) }
    ensures goes { GoesOn words.now B.tells pass.old pass.new }
    ensures tried { (v : _) → IsParentOf K.layout v (K.rank key.now) up leaf.pid (view pass.old)
        → IsLeafRead K.layout v (K.rank key.now) leaf (K.words_of page.now) (K.words_of rest.now) (K.plain said.now) (view pass.old)
        → IsMergeTried K.plain K.layout v (K.rank key.now) (Above.Node up) leaf (K.words_of page.now) (K.words_of rest.now) (K.plain said.now) result (view pass.old) (view pass.new) }
    ensures sure { B.tells ≡ true → IsKnownNow up.pid up.word (view pass.old) → IsKnownNow leaf.pid leaf.word (view pass.old) → IsFinalMerge result }
    ensures known { B.tells ≡ true → IsKnownNow up.pid up.word (view pass.old) → IsKnownNow leaf.pid leaf.word (view pass.old) → IsKnownAfter result (view pass.new) }
{
    let mut over = K::zero();
    let mut other = K::zero();
    let found = match neighbour_to_join(words, pass, &up, &leaf, key, rest, &mut over, &mut other) {
        Ok(found) => found,
        Err(turn) => return Merge::Turned(turn),
    };
    match found {
        None => Merge::Alone(leaf),
        Some(beside) => match merge_below(
            words, pass, up, leaf, beside, page, rest, &over, &other, said,
        ) {
            Ok(()) => Merge::Made,
            Err(saw) => Merge::Lost(saw),
        },
    }
}

/// The try of a leaf whose parent is the root: where these are the root's last two leaves, the root goes too.
fn try_last<K: Merges, B: Block>(
    words: &Words<TreeOf<K>, B>,
    pass: &mut Pass<TreeOf<K>>,
    meta: OptGuard,
    root: OptGuard,
    leaf: OptGuard,
    key: &K::Key,
    page: &K::Page,
    rest: &K::Page,
    said: &K::Said,
) -> Merge
    requires ready { IsReadyOn words.now B.tells pass.old }
    requires home { (view pass.old).out ≡ None }
    requires size { length (K.words_of page.now) ≡ K.layout.words }
    requires read { (v : _) × IsParentOf K.layout v (K.rank key.now) root leaf.pid (view pass.old)
        × IsLeafRead K.layout v (K.rank key.now) leaf (K.words_of page.now) (K.words_of rest.now) (K.plain said.now) (view pass.old)
        × IsMetaRead meta.pid meta.word meta.frame root.pid 1 v (view pass.old) }
    ensures goes { GoesOn words.now B.tells pass.old pass.new }
    ensures tried { (v : _) → IsParentOf K.layout v (K.rank key.now) root leaf.pid (view pass.old)
        → IsLeafRead K.layout v (K.rank key.now) leaf (K.words_of page.now) (K.words_of rest.now) (K.plain said.now) (view pass.old)
        → IsMetaRead meta.pid meta.word meta.frame root.pid 1 v (view pass.old)
        → IsMergeTried K.plain K.layout v (K.rank key.now) (Above.Root meta root) leaf (K.words_of page.now) (K.words_of rest.now) (K.plain said.now) result (view pass.old) (view pass.new) }
    ensures sure { B.tells ≡ true → IsKnownNow meta.pid meta.word (view pass.old) → IsKnownNow root.pid root.word (view pass.old)
        → IsKnownNow leaf.pid leaf.word (view pass.old) → IsFinalMerge result }
    ensures known { B.tells ≡ true → IsKnownNow root.pid root.word (view pass.old) → IsKnownNow leaf.pid leaf.word (view pass.old) → IsKnownAfter result (view pass.new) }
{
    let mut over = K::zero();
    let mut other = K::zero();
    let found = match neighbour_to_join(
        words, pass, &root, &leaf, key, rest, &mut over, &mut other,
    ) {
        Ok(found) => found,
        Err(turn) => return Merge::Turned(turn),
    };
    match found {
        None => Merge::Alone(leaf),
        Some(beside) => {
            if K::has_two(&over) {
                if is_last(&meta) {
                    return Merge::Alone(leaf);
                }
                match merge_last(
                    words, pass, meta, root, leaf, beside, page, rest, &over, &other, said,
                ) {
                    Ok(()) => return Merge::Made,
                    Err(saw) => return Merge::Lost(saw),
                }
            }
            match merge_below(
                words, pass, root, leaf, beside, page, rest, &over, &other, said,
            ) {
                Ok(()) => Merge::Made,
                Err(saw) => Merge::Lost(saw),
            }
        }
    }
}

/// Takes the key, which the leaf has, as the words read of it say, out of the leaf, and makes the leaf one with its neighbour, where the conditions for that hold; else it
/// does nothing.
pub fn try_merge<K: Merges, B: Block>(
    words: &Words<TreeOf<K>, B>,
    pass: &mut Pass<TreeOf<K>>,
    reached: Reached<K::Key>,
    key: &K::Key,
    page: &K::Page,
    said: &K::Said,
) -> Merge
    requires ready { IsReadyOn words.now B.tells pass.old }
    requires home { (view pass.old).out ≡ None }
    requires size { length (K.words_of page.now) ≡ K.layout.words }
    requires read { (v : _) × IsAbove K.layout v (K.rank key.now) reached.above reached.leaf.pid (view pass.old)
        × IsDelRead K.layout v (K.rank key.now) reached.leaf (K.words_of page.now) (K.plain said.now) (view pass.old) }
    ensures goes { GoesOn words.now B.tells pass.old pass.new }
    ensures tried { (v : _) → IsAbove K.layout v (K.rank key.now) reached.above reached.leaf.pid (view pass.old)
        → IsDelRead K.layout v (K.rank key.now) reached.leaf (K.words_of page.now) (K.plain said.now) (view pass.old)
        → (rest : List ℕ) × (IsLeaf K.layout (K.words_of page.now) → IsEdit K.layout (K.words_of page.now) rest (K.plain said.now).call (K.plain said.now).reply)
        × IsMergeTried K.plain K.layout v (K.rank key.now) reached.above reached.leaf (K.words_of page.now) rest (K.plain said.now) result (view pass.old) (view pass.new) }
    ensures sure { B.tells ≡ true → IsKnownNow reached.leaf.pid reached.leaf.word (view pass.old) → KnowsAbove reached.above (view pass.old) → IsFinalMerge result }
    ensures known { B.tells ≡ true → IsKnownNow reached.leaf.pid reached.leaf.word (view pass.old) → KnowsAbove reached.above (view pass.old) → IsKnownAfter result (view pass.new) }
{
    let Reached { leaf, above, .. } = reached;
    let mut rest = K::zero();
    K::copy(&mut rest, page);
    K::del(&mut rest, key);
    match above {
        Above::Nothing => Merge::Alone(leaf),
        Above::Root { meta, root } => try_last(
            words, pass, meta, root, leaf, key, page, &rest, said,
        ),
        Above::Node(up) => try_below(words, pass, up, leaf, key, page, &rest, said),
    }
}
