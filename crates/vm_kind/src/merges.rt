//! Kinds of nodes of which two neighbouring leaves become one.

use crate::edits::Edits;
use vm_inner::ChildPair;

/// A kind of node with what a merge asks of two leaves, and of the node above them.
pub trait Merges: Edits {
    ghost use Rattle.std.specs.Prelude.{◌≡◌, ◌*◌, ◌<◌, ◌≤◌, IfSome, length, MatchOption, ℕ};
    ghost use Rattle.std.specs.Option.{option_map};
    ghost use Rattle.vm_map.specs.Map.{del_pair, lookup_at, Rises};
    ghost use Rattle.vm_tree_model.specs.Layout.{size};
    ghost use Rattle.vm_tree_model.specs.Page.{IsInner, IsLeaf, node_of, pairs_of};
    ghost use Rattle.vm_tree_model.specs.Edits.{IsLeafWith, TakesPair};
    ghost use Rattle.vm_tree_model.specs.Merges.{IsJoined};
    ghost use Rattle.vm_node.specs.Loads.{IsAnswer};
    ghost use Rattle.vm_inner.specs.Neighbours.{AreBeside, HasNoPair};
    ghost use Rattle.vm_kind.specs.Joins.{both_as_one};

    /// Takes over the words of another page.
    fn copy(into: &mut Self::Page, page: &Self::Page)
        ensures words { Self.words_of into.new ≡ Self.words_of page.now }
        ensures size { length (Self.words_of into.new) ≡ Self.layout.words };

    /// Takes the pair of the key out of any page whose keys rise, and gives its value.
    fn del(page: &mut Self::Page, key: &Self::Key) -> Option<u64>
        ensures was { (low high : ℕ) → Rises low high (pairs_of Self.layout (Self.words_of page.old))
            → result ≡ lookup_at (pairs_of Self.layout (Self.words_of page.old)) (Self.rank key.now) }
        ensures leaf { IsLeaf Self.layout (Self.words_of page.old)
            → IsLeafWith Self.layout (Self.words_of page.old) (Self.words_of page.new) (del_pair (pairs_of Self.layout (Self.words_of page.old)) (Self.rank key.now)) };

    /// Whether the page takes a quarter of a node's room at most.
    fn is_sparse(page: &Self::Page) -> bool
        ensures { IsAnswer result (4 * size Self.layout (node_of Self.layout (Self.words_of page.now)) ≤ Self.layout.room) };

    /// Whether two neighbouring leaves may become one.
    fn may_join(left: &Self::Page, right: &Self::Page) -> bool
        ensures { IsAnswer result (size Self.layout (both_as_one Self.layout (Self.words_of left.now) (Self.words_of right.now)) ≤ Self.layout.merge_room) };

    /// The left one of two neighbouring leaves takes over the pairs of the right one, behind its own, and its high fence.
    fn join(left: &mut Self::Page, right: &Self::Page)
        requires few { size Self.layout (both_as_one Self.layout (Self.words_of left.old) (Self.words_of right.now)) ≤ Self.layout.merge_room }
        ensures joined { IsJoined Self.layout (Self.words_of left.old) (Self.words_of right.now) (Self.words_of left.new) }
        ensures size { length (Self.words_of left.new) ≡ Self.layout.words };

    /// The child whose range has the key and the next one, or the one before where it is the last, of any page whose keys rise. None where there is one
    /// child at most, or none for the key.
    fn beside(page: &Self::Page, key: &Self::Key) -> Option<ChildPair<Self::Key>>
        ensures { (low high : ℕ) → Rises low high (pairs_of Self.layout (Self.words_of page.now))
            → MatchOption result (HasNoPair Self.layout (Self.words_of page.now) (Self.rank key.now))
            (λ b. AreBeside Self.layout (Self.words_of page.now) (Self.rank key.now) (Self.rank b.low) b.left (Self.rank b.separator) b.right) };

    /// Whether the page has just two pairs.
    fn has_two(page: &Self::Page) -> bool
        ensures { IsAnswer result (length (pairs_of Self.layout (Self.words_of page.now)) ≡ 2) };

    /// What it changes in any page whose keys rise that the child of this lowest key goes, and the child's page; none where there is no such child.
    fn remove_edit(page: &Self::Page, key: &Self::Key) -> Option<(u64, Self::Edit)>
        ensures child { (low high : ℕ) → Rises low high (pairs_of Self.layout (Self.words_of page.now))
            → option_map (λ r. r.0) result ≡ lookup_at (pairs_of Self.layout (Self.words_of page.now)) (Self.rank key.now) }
        ensures node { (low high : ℕ) → Rises low high (pairs_of Self.layout (Self.words_of page.now)) → IfSome result
            (λ r. TakesPair Self.layout (Self.words_of page.now) (Self.edited (Self.words_of page.now) r.1) (Self.rank key.now)) }
        ensures inner { IsInner Self.layout (Self.words_of page.now) → (node_of Self.layout (Self.words_of page.now)).low < Self.rank key.now
            → IfSome result (λ r. IsInner Self.layout (Self.edited (Self.words_of page.now) r.1)) };
}
