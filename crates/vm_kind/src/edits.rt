//! Kinds of nodes that are edited: what each word becomes is told before any is written.

use crate::pages::Pages;
use vm_node::Full;

/// A kind of node with the edits of one pair, and the split of a node that has no room for a further pair.
pub trait Edits: Pages {
    type Edit: Drop;

    ghost use Rattle.std.specs.Prelude.{◌≡◌, ◌≢◌, ◌⊎◌, ◌<◌, ◌≤◌, IfOk, IfSome, length, List, MatchResult, OnErr, slice_index, ℕ};
    ghost use Rattle.std.specs.Option.{option_map};
    ghost use Rattle.vm_map.specs.Map.{del_pair, lookup_at, Rises};
    ghost use Rattle.vm_tree_model.specs.Node.{Covers};
    ghost use Rattle.vm_tree_model.specs.Page.{IsInner, IsLeaf, node_of, pairs_of};
    ghost use Rattle.vm_tree_model.specs.Edits.{AddsPair, IsFullFor, IsLeafWith, IsNewRoot, IsSplit, PutsInLeaf};
    ghost use Rattle.vm_kind.specs.Room.{HasRoomFor, IsTightFor};

    // The words of a page as an edit leaves them.
    ghost edited: { List ℕ → Self.Edit → List ℕ };

    /// What a put of this value at the key changes, and the old value, of any page whose keys rise. `Full` comes where less room is left than a pair of
    /// the key takes, and the key is not found; of a leaf it comes exactly where it has no room for a pair of the key, and not the key.
    fn put_edit(
        page: &Self::Page,
        key: &Self::Key,
        value: u64,
    ) -> Result<(Option<u64>, Self::Edit), Full>
        ensures was { (low high : ℕ) → Rises low high (pairs_of Self.layout (Self.words_of page.now))
            → IfOk result (λ r. r.0 ≡ lookup_at (pairs_of Self.layout (Self.words_of page.now)) (Self.rank key.now)) }
        ensures room { IfOk result (λ _. HasRoomFor Self.layout Self.spare (Self.words_of page.now) (Self.rank key.now)) }
        ensures refused { OnErr result (IsTightFor Self.layout Self.spare (Self.words_of page.now) (Self.rank key.now)) }
        ensures full { IsLeaf Self.layout (Self.words_of page.now) → MatchResult result
            (λ _. ¬ (IsFullFor Self.layout (Self.words_of page.now) (Self.rank key.now))) (λ _. IsFullFor Self.layout (Self.words_of page.now) (Self.rank key.now)) }
        ensures leaf { IsLeaf Self.layout (Self.words_of page.now) → Covers (node_of Self.layout (Self.words_of page.now)) (Self.rank key.now)
            → IfOk result (λ r. PutsInLeaf Self.layout (Self.words_of page.now) (edited (Self.words_of page.now) r.1) (Self.rank key.now) value r.0) };

    /// What a del of the key changes, and the value, of any page whose keys rise; none where the key is not found.
    fn del_edit(page: &Self::Page, key: &Self::Key) -> Option<(u64, Self::Edit)>
        ensures was { (low high : ℕ) → Rises low high (pairs_of Self.layout (Self.words_of page.now))
            → option_map (λ r. r.0) result ≡ lookup_at (pairs_of Self.layout (Self.words_of page.now)) (Self.rank key.now) }
        ensures leaf { IsLeaf Self.layout (Self.words_of page.now) → IfSome result (λ r.
            IsLeafWith Self.layout (Self.words_of page.now) (edited (Self.words_of page.now) r.1) (del_pair (pairs_of Self.layout (Self.words_of page.now)) (Self.rank key.now))) };

    /// What a child's page at its lowest key changes in an inner node. `Full` comes where less room is left than a pair of the key takes.
    fn add_edit(page: &Self::Page, key: &Self::Key, child: u64) -> Result<Self::Edit, Full>
        ensures refused { OnErr result (Self.spare (Self.words_of page.now) < Self.layout.pair_size (Self.rank key.now)) }
        ensures node { IsInner Self.layout (Self.words_of page.now)
            → IfOk result (λ edit. AddsPair Self.layout (Self.words_of page.now) (edited (Self.words_of page.now) edit) (Self.rank key.now) child) }
        ensures inner { IsInner Self.layout (Self.words_of page.now) → Covers (node_of Self.layout (Self.words_of page.now)) (Self.rank key.now)
            → IfOk result (λ edit. IsInner Self.layout (edited (Self.words_of page.now) edit)) };

    /// Word `i` of the page as the edit leaves it.
    fn edited_word(page: &Self::Page, edit: &Self::Edit, i: usize) -> u64
        requires { i < Self.layout.words }
        ensures word { result ≡ slice_index (edited (Self.words_of page.now) edit.now) i }
        ensures size { length (edited (Self.words_of page.now) edit.now) ≡ Self.layout.words };

    /// Where words of the page may be others afterwards, beside word 1: from the first of these places on, and before the second.
    fn changes(page: &Self::Page, edit: &Self::Edit) -> (usize, usize)
        ensures { (i : ℕ) → i < Self.layout.words → i ≢ 1 → (i < result.0) ⊎ (result.1 ≤ i)
            → slice_index (edited (Self.words_of page.now) edit.now) i ≡ slice_index (Self.words_of page.now) i };

    /// Makes the two halves of a node that has no room for a further pair, and stays as it is. What `left` and `right` held before is lost. Gives the
    /// separator, which is the first key of the right half and its low fence, and the high fence of the left half.
    fn split(page: &Self::Page, left: &mut Self::Page, right: &mut Self::Page) -> Self::Key
        requires full { Self.spare (Self.words_of page.now) < Self.layout.growth }
        ensures left_size { length (Self.words_of left.new) ≡ Self.layout.words }
        ensures right_size { length (Self.words_of right.new) ≡ Self.layout.words }
        ensures halves { IsLeaf Self.layout (Self.words_of page.now) ⊎ IsInner Self.layout (Self.words_of page.now)
            → IsSplit Self.layout (Self.words_of page.now) (Self.words_of left.new) (Self.words_of right.new) (Self.rank result) }
        ensures left_leaf { IsLeaf Self.layout (Self.words_of page.now) → IsLeaf Self.layout (Self.words_of left.new) }
        ensures right_leaf { IsLeaf Self.layout (Self.words_of page.now) → IsLeaf Self.layout (Self.words_of right.new) };

    /// Makes the page a root over two nodes: `left` from the lowest key on, and `right` from the separator on. What the page held before is lost.
    fn new_root(page: &mut Self::Page, level: u64, left: u64, separator: &Self::Key, right: u64)
        ensures size { length (Self.words_of page.new) ≡ Self.layout.words }
        ensures root { IsNewRoot Self.layout (Self.words_of page.new) level left (Self.rank separator.now) right }
        ensures inner { 1 ≤ level → 0 < Self.rank separator.now → IsInner Self.layout (Self.words_of page.new) };
}
