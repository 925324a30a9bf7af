//! What the pages of an image mean together: nodes, the tree that they are by names and levels, the map that they
//! hold, and the walk that tells the first reason why they are no tree; over any layout of a page's words. The crate is
//! definitions and laws; the laws that a contract names stand on functions without a body, and the others in proofs/.
#![tactic(auto)]

ghost use Rattle.std.specs.Prelude.{◌≡◌, ◌↔◌, ℕ, ◌+◌, ◌<◌, ◌≤◌, List, length, slice_index, None, Ok};
ghost use Rattle.vm_map.specs.Map.{Rises};
ghost use Rattle.vm_page.specs.{Pages.page_at, Sizes.IsSize};
ghost use Rattle.vm_tree_model.specs.Layout.{Layout, IsLayout};
ghost use Rattle.vm_tree_model.specs.Fixed.{fixed};
ghost use Rattle.vm_tree_model.specs.Count.{node_count};
ghost use Rattle.vm_tree_model.specs.Page.{IsFree};
ghost use Rattle.vm_tree_model.specs.Tree.{IsTree, IsParted, map_of};
ghost use Rattle.vm_tree_model.specs.Merges.{IsMergeOf, IsCollapseOf};
ghost use Rattle.vm_tree_model.specs.Reason.{reason, walked};

/// The walk meets no reason exactly where the pages are a tree, and its rows are then the map that the pages hold.
#[tactic(auto, using(crate::proofs::Theorem::no_reason, crate::proofs::Theorem::walk_from_tree))]
pub fn walk_is_exact()
    ensures reason { (L : Layout) → IsLayout L → (pages : List (List ℕ)) → (reason L pages ≡ None) ↔ IsTree L pages }
    ensures rows { (L : Layout) → IsLayout L → (pages : List (List ℕ)) → IsTree L pages → walked L pages ≡ Ok (map_of L pages) }
{}

/// In a tree each key lies in the fences of exactly one leaf.
#[tactic(auto, using(crate::proofs::Laws::parted_leaves))]
pub fn tree_is_parted()
    ensures { (L : Layout) → IsLayout L → (pages : List (List ℕ)) → IsTree L pages → IsParted L pages }
{}

/// The map of a tree is listed by rising keys.
pub fn map_rises()
    ensures { (L : Layout) → IsLayout L → (pages : List (List ℕ)) → IsTree L pages → Rises 0 L.key_end (map_of L pages) }
{}

/// A tree is lower than its pages are many: each level has a node, and page 0 is none.
#[tactic(auto, using(crate::proofs::Height::height_fits))]
pub fn height_fits()
    ensures { (L : Layout) → IsLayout L → (pages : List (List ℕ)) → IsTree L pages → slice_index (page_at pages 0) 2 + 2 ≤ length pages }
{}

/// Where the pages of a tree from one on are free, its nodes are fewer than the pages before that one: page 0 is none.
#[tactic(auto, using(crate::proofs::NodeCounts::nodes_below))]
pub fn nodes_are_below()
    ensures { (L : Layout) → IsLayout L → (pages : List (List ℕ)) → IsTree L pages → (next : ℕ) → ((p : ℕ) → next ≤ p → p < length pages → IsFree L (page_at pages p)) → node_count L pages + 1 ≤ next }
{}

/// Pages of 64 words and of 512 words are layouts.
#[tactic(auto, using(crate::proofs::FixedLaws::sized_layout))]
pub fn sizes_are_layouts()
    ensures { (n : ℕ) → IsSize n → IsLayout (fixed n) }
{}

/// Two neighbouring leaves that became one leave a tree with the same map.
pub fn merges_keep()
    ensures tree { (L : Layout) → IsLayout L → (old new : List (List ℕ)) (q k p s r : ℕ) → IsTree L old → IsMergeOf L old new q k p s r → IsTree L new }
    ensures map { (L : Layout) → IsLayout L → (old new : List (List ℕ)) (q k p s r : ℕ) → IsTree L old → IsMergeOf L old new q k p s r → map_of L new ≡ map_of L old }
{}

/// So do the last two leaves under the root.
pub fn collapses_keep()
    ensures tree { (L : Layout) → IsLayout L → (old new : List (List ℕ)) (q k p s r : ℕ) → IsTree L old → IsCollapseOf L old new q k p s r → IsTree L new }
    ensures map { (L : Layout) → IsLayout L → (old new : List (List ℕ)) (q k p s r : ℕ) → IsTree L old → IsCollapseOf L old new q k p s r → map_of L new ≡ map_of L old }
{}
