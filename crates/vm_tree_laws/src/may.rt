//! What the calls on nodes say of their pages is what a release and a read ask. The premises are those calls' clauses, and what was
//! seen in the words themselves: a leaf's tag, and that its fences cover the key. So a read can show them before it is validated.
ghost use Rattle.std.specs.Prelude.{◌≡◌, ◌≢◌, ℕ, ◌+◌, ◌≤◌, List, [], ◌∷◌, min, slice_index, slice_set, Option, Some, None};
ghost use Rattle.vm_map.specs.Map.{Rises, lookup_at, del_pair};
ghost use Rattle.vm_map.specs.declared.call.Call.TheVariants.{Get, Put, Del, Swap, Window as ForWindow};
ghost use Rattle.vm_map.specs.declared.call.Reply.TheVariants.{Got, Was, Gone, Swapped, Win};
ghost use Rattle.vm_map.specs.declared.call.Swap.TheVariants.{Done, Kept, Missing};
ghost use Rattle.vm_map.specs.declared.window.Window.{Window};
ghost use Rattle.vm_map.specs.Windows.{IsWindow};
ghost use Rattle.vm_tree_model.specs.Layout.{Layout, size, IsFullNode};
ghost use Rattle.vm_tree_model.specs.Node.{Covers};
ghost use Rattle.vm_tree_model.specs.Page.{pairs_of, node_of, IsFree, IsInner};
ghost use Rattle.vm_tree_model.specs.Edits.{child_of, PutsInLeaf, IsLeafWith, AddsPair, IsSplit, IsNewRoot};
ghost use Rattle.vm_owner.specs.Kept.{Start, Change};
ghost use Rattle.vm_tree_laws.specs.May.{entry, MayRelease, MayRead};

use vm_map::window::MOST_PAIRS;

/// A leaf may be released after a put at a key that it covers, whether or not it had the key.
#[tactic(auto, using(crate::proofs::Established::may_put))]
pub fn may_put()
    ensures { (L : Layout) (start : Start) (due : List ℕ) (leaf : Change) (number count key : ℕ) → (node_of L leaf.old).tag ≡ 2
        → Covers (node_of L leaf.old) key
        → (value : ℕ) (was : Option ℕ) → PutsInLeaf L leaf.old leaf.new key value was
        → MayRelease L start due (leaf ∷ []) (entry number count (Put key value) (Was was)) }
{}

/// A leaf may be released after a del at a key that it covers, whether or not it had the key.
#[tactic(auto, using(crate::proofs::Established::may_del))]
pub fn may_del()
    ensures { (L : Layout) (start : Start) (due : List ℕ) (leaf : Change) (number count key : ℕ) → (node_of L leaf.old).tag ≡ 2
        → Covers (node_of L leaf.old) key
        → (was : Option ℕ) → was ≡ lookup_at (pairs_of L leaf.old) key → IsLeafWith L leaf.old leaf.new (del_pair (pairs_of L leaf.old) key)
        → MayRelease L start due (leaf ∷ []) (entry number count (Del key) (Gone was)) }
{}

/// A leaf may be released after a swap at a key that it covers and whose value is the one that is wanted.
#[tactic(auto, using(crate::proofs::Established::may_swap))]
pub fn may_swap()
    ensures { (L : Layout) (start : Start) (due : List ℕ) (leaf : Change) (number count key : ℕ) → (node_of L leaf.old).tag ≡ 2
        → Covers (node_of L leaf.old) key
        → (want value : ℕ) → PutsInLeaf L leaf.old leaf.new key value (Some want)
        → MayRelease L start due (leaf ∷ []) (entry number count (Swap key want value) (Swapped Done)) }
{}

/// A full node below the root may be released after a split, together with its parent, which has room and which the descent of some key
/// left for this node, and with the sibling.
pub fn may_split()
    ensures { (L : Layout) (start : Start) (due : List ℕ) (parent node sibling : Change) (key separator : ℕ)
        → IsInner L parent.old → Covers (node_of L parent.old) key → child_of L parent.old key ≡ Some node.page
        → size L (node_of L parent.old) + L.growth ≤ L.room → IsFullNode L (node_of L node.old)
        → IsSplit L node.old node.new sibling.new separator → AddsPair L parent.old parent.new separator sibling.page
        → IsFree L sibling.old
        → MayRelease L start due (parent ∷ node ∷ sibling ∷ []) [] }
{}

/// The full root may be released after a split, together with page 0, which gets the new root's number and the next height, and with
/// the sibling and the new root.
#[tactic(auto, using(crate::proofs::Established::may_split_root))]
pub fn may_split_root()
    ensures { (L : Layout) (start : Start) (due : List ℕ) (meta root sibling top : Change) (height separator : ℕ)
        → meta.page ≡ 0 → slice_index meta.old 1 ≡ root.page → slice_index meta.old 2 ≡ height → IsFullNode L (node_of L root.old)
        → IsSplit L root.old root.new sibling.new separator → IsNewRoot L top.new (height + 1) root.page separator sibling.page
        → meta.new ≡ slice_set (slice_set meta.old 1 top.page) 2 (height + 1)
        → IsFree L sibling.old → IsFree L top.old
        → MayRelease L start due (meta ∷ root ∷ sibling ∷ top ∷ []) [] }
{}

/// A leaf that covers the key proves a get.
#[tactic(auto, using(crate::proofs::Established::may_get))]
pub fn may_get()
    ensures { (L : Layout) (start : Start) (p number count : ℕ) (words : List ℕ) → (node_of L words).tag ≡ 2 → (key : ℕ) → Covers (node_of L words) key
        → (found : Option ℕ) → ((low high : ℕ) → Rises low high (pairs_of L words) → found ≡ lookup_at (pairs_of L words) key)
        → MayRead L start p words (entry number count (Get key) (Got found)) }
{}

/// A leaf that covers the key and lacks it proves a del.
#[tactic(auto, using(crate::proofs::Established::may_miss))]
pub fn may_miss()
    ensures { (L : Layout) (start : Start) (p number count : ℕ) (words : List ℕ) → (node_of L words).tag ≡ 2 → (key : ℕ) → Covers (node_of L words) key
        → ((low high : ℕ) → Rises low high (pairs_of L words) → lookup_at (pairs_of L words) key ≡ None)
        → MayRead L start p words (entry number count (Del key) (Gone None)) }
{}

/// A leaf that covers the key proves a swap that does nothing: the key's value is not the one that is wanted, or there is none.
#[tactic(auto, using(crate::proofs::Established::may_keep, crate::proofs::Established::may_lack))]
pub fn may_keep()
    ensures kept { (L : Layout) (start : Start) (p number count : ℕ) (words : List ℕ) → (node_of L words).tag ≡ 2 → (key : ℕ) → Covers (node_of L words) key
        → (want value there : ℕ) → there ≢ want → ((low high : ℕ) → Rises low high (pairs_of L words) → lookup_at (pairs_of L words) key ≡ Some there)
        → MayRead L start p words (entry number count (Swap key want value) (Swapped (Kept there))) }
    ensures lacks { (L : Layout) (start : Start) (p number count : ℕ) (words : List ℕ) → (node_of L words).tag ≡ 2 → (key : ℕ) → Covers (node_of L words) key
        → (want value : ℕ) → ((low high : ℕ) → Rises low high (pairs_of L words) → lookup_at (pairs_of L words) key ≡ None)
        → MayRead L start p words (entry number count (Swap key want value) (Swapped Missing)) }
{}

/// A leaf that covers the start proves a window of at least one pair: the leaf's first pairs from there on, at most 28, up to its next
/// pair or its high fence.
#[tactic(auto, using(crate::proofs::Established::may_window))]
pub fn may_window()
    ensures { (L : Layout) (start : Start) (p number count : ℕ) (words : List ℕ) → (node_of L words).tag ≡ 2 → (key : ℕ) → Covers (node_of L words) key
        → (most : ℕ) (window : Window) → 1 ≤ most → ((low high : ℕ) → Rises low high (pairs_of L words)
        → IsWindow (pairs_of L words) (node_of L words).high key (min most MOST_PAIRS) window)
        → MayRead L start p words (entry number count (ForWindow key most) (Win window)) }
{}
