//! The steps of a coupled descent: the version of a child's page is seen before its parent is validated, so a child validated at that
//! version is tied to its parent. Each step reaches the node of its level that covers the key, and the level falls by one.
ghost use Rattle.std.specs.Prelude.{◌≡◌, ◌⊎◌, ℕ, ◌+◌, ◌<◌, ◌≤◌, List, length, slice_index, Some};
ghost use Rattle.vm_tree_model.specs.Layout.{Layout};
ghost use Rattle.vm_tree_model.specs.Node.{Covers};
ghost use Rattle.vm_tree_model.specs.Page.{node_of, IsLeaf, IsInner};
ghost use Rattle.vm_tree_model.specs.Edits.{child_of};
ghost use Rattle.vm_tree_laws.specs.Tied.{IsSound, IsTied};
ghost use Rattle.vm_tree_laws.specs.Descent.{IsReached, IsWay, last_words};

/// The page that page 0 names is the root: it is reached for every key, at the level that page 0 has as its height.
#[tactic(auto, using(crate::proofs::Descents::reached_root))]
pub fn root_is_reached()
    ensures { (L : Layout) (pages p key : ℕ) (meta words : List ℕ) → IsTied L pages 0 meta p words → slice_index meta 1 ≡ p → key < L.key_end
        → IsReached L pages p words (slice_index meta 2) key }
{}

/// A page reached is a leaf at level 0 and an inner node above it, and its tag says which.
#[tactic(auto, using(crate::proofs::Descents::kind_by_level, crate::proofs::Descents::leaf_by_tag, crate::proofs::Descents::inner_by_tag))]
pub fn level_tells_the_kind()
    ensures level { (L : Layout) (pages p : ℕ) (words : List ℕ) (level key : ℕ) → IsReached L pages p words level key
        → ((level ≡ 0) × IsLeaf L words) ⊎ ((1 ≤ level) × IsInner L words) }
    ensures leaf { (L : Layout) (pages p : ℕ) (words : List ℕ) (level key : ℕ) → IsReached L pages p words level key → (node_of L words).tag ≡ 2
        → (level ≡ 0) × IsLeaf L words }
    ensures inner { (L : Layout) (pages p : ℕ) (words : List ℕ) (level key : ℕ) → IsReached L pages p words level key → (node_of L words).tag ≡ 3
        → (1 ≤ level) × IsInner L words }
{}

/// An inner node that was reached names a child for the key, on a page of the image.
pub fn child_is_there()
    ensures { (L : Layout) (pages r : ℕ) (words : List ℕ) (level key : ℕ) → IsReached L pages r words level key → IsSound L pages r words → IsInner L words
        → (p : ℕ) × (child_of L words key ≡ Some p) × (1 ≤ p) × (p < pages) }
{}

/// The child that it names for the key is reached, one level below.
pub fn child_is_reached()
    ensures { (L : Layout) (pages r : ℕ) (words : List ℕ) (level key : ℕ) → IsReached L pages r words level key → (p : ℕ) (child : List ℕ) → IsInner L words
        → child_of L words key ≡ Some p
        → IsTied L pages r words p child → (below : ℕ) → below + 1 ≡ level → IsReached L pages p child below key }
{}

/// A whole way ends at a leaf that covers the key, after as many steps as the level at which it began.
pub fn way_ends_at_the_leaf()
    ensures { (L : Layout) (pages key : ℕ) (steps : List (ℕ × List ℕ)) (r : ℕ) (words : List ℕ) (level : ℕ) → IsReached L pages r words level key
        → IsWay L pages key steps r words
        → (length steps ≡ level) × IsLeaf L (last_words steps words) × Covers (node_of L (last_words steps words)) key }
{}
