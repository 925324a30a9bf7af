// A leaf and its neighbour, which were read, become one in their order.
ghost use Rattle.std.specs.Prelude.{[], ◌∷◌, ◌≡◌, ◌≢◌, ◌≤◌, ◌⊎◌, false, IfErr, IfOk, IsOk, length, None, true, ℕ};
ghost use Rattle.vm_map.specs.Map.{Rises};
ghost use Rattle.vm_tree_model.specs.{Edits.TakesPair, Layout.size, Merges.IsJoined, Page.pairs_of};
ghost use Rattle.vm_event.specs.Prelude.{MAX_VERSION, version_of};
ghost use Rattle.vm_tree_join.specs.from_vm_step.Prelude.{GoesOn, IsReadyOn, view};
ghost use Rattle.vm_tree_join.specs.from_vm_guard.declared_opt_OptGuard.{OptGuard as Guard};
ghost use Rattle.vm_tree_join.specs.from_vm_tree_rule.{Resident.IsKnownNow, Resident.KnowsResident, Seeks.IsMetaRead};
ghost use Rattle.vm_tree_join.specs.from_vm_tree_split.Prepares.{IsLockDenied};
ghost use Rattle.vm_tree_join.specs.Made.{IsMergeMade};
ghost use Rattle.vm_tree_merge.specs.Beside.{AreInOrder, as_one};
ghost use Rattle.vm_tree_merge.specs.Tried.{IsLeafRead, IsToMerge};

use crate::beside::Neighbour;
use vm_block::Block;
use vm_tree_join::guard::{Deny, OptGuard};
use vm_tree_join::kind::{Merges, TreeOf};
use vm_tree_join::rule::{Pass, Words};
use vm_tree_join::step::Saw;
use vm_tree_join::{join_below, join_last};

/// The words of both as one leaf's: `rest`, those of the leaf without a key, and the neighbour's.
fn joined<K: Merges>(behind: bool, rest: &K::Page, other: &K::Page) -> K::Page
    requires { size K.layout (as_one K.layout behind (K.words_of rest.now) (K.words_of other.now)) ≤ K.layout.merge_room }
    ensures { ((behind ≡ true) × IsJoined K.layout (K.words_of rest.now) (K.words_of other.now) (K.words_of result))
        ⊎ ((behind ≡ false) × IsJoined K.layout (K.words_of other.now) (K.words_of rest.now) (K.words_of result)) }
{
    let mut page = K::zero();
    if behind {
        K::copy(&mut page, rest);
        K::join(&mut page, other);
        return page;
    }
    K::copy(&mut page, other);
    K::join(&mut page, rest);
    page
}

/// The evidence of a lock that was lost to others.
fn lost(deny: Deny) -> Saw
    requires again { (saw : _) × (deny ≡ Deny.Again saw) }
    ensures { deny ≡ Deny.Again result }
{
    match deny {
        Deny::Again(saw) => saw,
        Deny::Need(_) => unreachable!(),
        Deny::Crowded(_) => unreachable!(),
        Deny::Worn(_) => unreachable!(),
    }
}

/// Makes one of the leaf, which keeps the words of `rest`, and its neighbour, below their parent.
pub fn merge_below<K: Merges, B: Block>(
    words: &Words<TreeOf<K>, B>,
    pass: &mut Pass<TreeOf<K>>,
    up: OptGuard,
    leaf: OptGuard,
    found: Neighbour<K::Key, K::Edit>,
    page: &K::Page,
    rest: &K::Page,
    over: &K::Page,
    other: &K::Page,
    said: &K::Said,
) -> Result<(), Saw>
    requires ready { IsReadyOn words.now B.tells pass.old }
    requires home { (view pass.old).out ≡ None }
    requires sizes { (length (K.words_of over.now) ≡ K.layout.words) × (length (K.words_of page.now) ≡ K.layout.words) × (length (K.words_of other.now) ≡ K.layout.words) }
    requires leaf { (v : _) × (key : ℕ) × IsLeafRead K.layout v key leaf (K.words_of page.now) (K.words_of rest.now) (K.plain said.now) (view pass.old)
        × IsToMerge K.layout v key up leaf.pid (K.words_of over.now) (K.words_of rest.now) found.guard (K.words_of other.now) found.choice.behind
        (K.rank found.choice.pair.low) found.choice.pair.left (K.rank found.choice.pair.separator) found.choice.pair.right (view pass.old)
        × (version_of leaf.word ≢ MAX_VERSION) }
    requires edit { (from to : ℕ) → Rises from to (pairs_of K.layout (K.words_of over.now))
        → TakesPair K.layout (K.words_of over.now) (K.edited (K.words_of over.now) found.choice.edit) (K.rank found.choice.pair.separator) }
    ensures goes { GoesOn words.now B.tells pass.old pass.new }
    ensures ok { IfOk result (λ _. (one two : Guard) × AreInOrder found.choice.behind leaf found.guard one two
        × IsMergeMade K.plain K.layout (up ∷ one ∷ two ∷ []) (two.pid ∷ []) said.now (view pass.old) (view pass.new)) }
    ensures err { IfErr result (λ saw. (one two : Guard) × AreInOrder found.choice.behind leaf found.guard one two
        × IsLockDenied K.layout (up ∷ one ∷ two ∷ []) (Deny.Again saw) (view pass.old) (view pass.new)) }
    ensures sure { IsKnownNow up.pid up.word (view pass.old) → IsKnownNow leaf.pid leaf.word (view pass.old) → IsKnownNow found.guard.pid found.guard.word (view pass.old) → IsOk result }
    ensures known { KnowsResident (view pass.old) → IfOk result (λ _. KnowsResident (view pass.new)) }
{
    let Neighbour { guard, choice } = found;
    let both = joined::<K>(choice.behind, rest, other);
    if choice.behind {
        match join_below(
            words,
            pass,
            up,
            leaf,
            guard,
            over,
            choice.edit,
            page,
            &both,
            other,
            said,
        ) {
            Ok(()) => return Ok(()),
            Err(deny) => return Err(lost(deny)),
        }
    }
    match join_below(
        words,
        pass,
        up,
        guard,
        leaf,
        over,
        choice.edit,
        other,
        &both,
        page,
        said,
    ) {
        Ok(()) => Ok(()),
        Err(deny) => Err(lost(deny)),
    }
}

/// The same of the root's last two leaves: the root goes, and page 0 names the left one.
pub fn merge_last<K: Merges, B: Block>(
    words: &Words<TreeOf<K>, B>,
    pass: &mut Pass<TreeOf<K>>,
    meta: OptGuard,
    root: OptGuard,
    leaf: OptGuard,
    found: Neighbour<K::Key, K::Edit>,
    page: &K::Page,
    rest: &K::Page,
    over: &K::Page,
    other: &K::Page,
    said: &K::Said,
) -> Result<(), Saw>
    requires ready { IsReadyOn words.now B.tells pass.old }
    requires home { (view pass.old).out ≡ None }
    requires sizes { (length (K.words_of over.now) ≡ K.layout.words) × (length (K.words_of page.now) ≡ K.layout.words) × (length (K.words_of other.now) ≡ K.layout.words) }
    requires leaf { (v : _) × (key : ℕ) × IsLeafRead K.layout v key leaf (K.words_of page.now) (K.words_of rest.now) (K.plain said.now) (view pass.old)
        × IsToMerge K.layout v key root leaf.pid (K.words_of over.now) (K.words_of rest.now) found.guard (K.words_of other.now) found.choice.behind
        (K.rank found.choice.pair.low) found.choice.pair.left (K.rank found.choice.pair.separator) found.choice.pair.right (view pass.old)
        × (version_of leaf.word ≢ MAX_VERSION) × IsMetaRead meta.pid meta.word meta.frame root.pid 1 v (view pass.old) }
    requires two { length (pairs_of K.layout (K.words_of over.now)) ≡ 2 }
    requires below { version_of meta.word ≢ MAX_VERSION }
    ensures goes { GoesOn words.now B.tells pass.old pass.new }
    ensures ok { IfOk result (λ _. (one two : Guard) × AreInOrder found.choice.behind leaf found.guard one two
        × IsMergeMade K.plain K.layout (meta ∷ root ∷ one ∷ two ∷ []) (root.pid ∷ two.pid ∷ []) said.now (view pass.old) (view pass.new)) }
    ensures err { IfErr result (λ saw. (one two : Guard) × AreInOrder found.choice.behind leaf found.guard one two
        × IsLockDenied K.layout (meta ∷ root ∷ one ∷ two ∷ []) (Deny.Again saw) (view pass.old) (view pass.new)) }
    ensures sure { IsKnownNow meta.pid meta.word (view pass.old) → IsKnownNow root.pid root.word (view pass.old)
        → IsKnownNow leaf.pid leaf.word (view pass.old) → IsKnownNow found.guard.pid found.guard.word (view pass.old) → IsOk result }
    ensures known { KnowsResident (view pass.old) → IfOk result (λ _. KnowsResident (view pass.new)) }
{
    let Neighbour { guard, choice } = found;
    let both = joined::<K>(choice.behind, rest, other);
    if choice.behind {
        match join_last(
            words, pass, meta, root, leaf, guard, over, page, &both, other, said,
        ) {
            Ok(()) => return Ok(()),
            Err(deny) => return Err(lost(deny)),
        }
    }
    match join_last(
        words, pass, meta, root, guard, leaf, over, other, &both, page, said,
    ) {
        Ok(()) => Ok(()),
        Err(deny) => Err(lost(deny)),
    }
}
