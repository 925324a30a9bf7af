//! What an inner node needs where two of its children become one: which two they are, and the edit that takes the right one out.

ghost use Rattle.std.specs.Prelude.{◌≡◌, ◌<◌, ℕ, IfSome, MatchOption};
ghost use Rattle.std.specs.Option.{option_map};
ghost use Rattle.vm_map.specs.Map.{Rises, lookup_at};
ghost use Rattle.vm_page.specs.Sizes.{IsSize};
ghost use Rattle.vm_tree_model.specs.Fixed.{fixed};
ghost use Rattle.vm_tree_model.specs.Page.{pairs_of, node_of, IsInner};
ghost use Rattle.vm_tree_model.specs.Edits.{TakesPair};
ghost use Rattle.vm_node.specs.Edited.{edited};
ghost use Rattle.vm_inner.specs.Neighbours.{AreBeside, HasNoPair};

use vm_node::pairs::{count_of, key_at, upper_bound_at, value_at};
use vm_node::{Edit, del_edit, in_buffer};
use vm_page::PageBuf;

/// Two children of an inner node, one behind the other, with keys of the type `T`: the pages of both, and their low fences.
#[derive(Clone, Copy, Debug, Drop, PartialEq, Eq)]
pub struct ChildPair<T> {
    pub left: u64,
    pub low: T,
    pub right: u64,
    pub separator: T,
}

/// The child whose range has the key and the next one, or the one before where it is the last, of any page whose keys rise. None where there is one child
/// at most, or none for the key.
pub fn beside<const N: usize>(page: &PageBuf<N>, key: u64) -> Option<ChildPair<u64>>
    requires { IsSize N }
    ensures { (low high : ℕ) → Rises low high (pairs_of (fixed N) page.now)
        → MatchOption result (HasNoPair (fixed N) page.now key) (λ b. AreBeside (fixed N) page.now key b.low b.left b.separator b.right) }
{
    let count = count_of(page);
    let mut place = in_buffer(page);
    let at = upper_bound_at(&mut place, N, count, key).at;
    if at == 0 || count < 2 {
        return None;
    }
    // The place of the left one: the child of the key stands before `at`, and the last child is no left one.
    let first = at.min(count - 1) - 1;
    Some(ChildPair {
        left: value_at(page, first),
        low: key_at(page, first),
        right: value_at(page, first + 1),
        separator: key_at(page, first + 1),
    })
}

/// What it changes in any page whose keys rise that the child of this lowest key goes, and the child's page; none where there is no such child. An inner node
/// stays one, if the key is not its low fence.
pub fn remove_edit<const N: usize>(page: &PageBuf<N>, key: u64) -> Option<(u64, Edit)>
    requires { IsSize N }
    ensures child { (low high : ℕ) → Rises low high (pairs_of (fixed N) page.now) → option_map (λ r. r.0) result ≡ lookup_at (pairs_of (fixed N) page.now) key }
    ensures node { (low high : ℕ) → Rises low high (pairs_of (fixed N) page.now)
        → IfSome result (λ r. TakesPair (fixed N) page.now (edited N page.now r.1) key) }
    ensures inner { IsInner (fixed N) page.now → (node_of (fixed N) page.now).low < key → IfSome result (λ r. IsInner (fixed N) (edited N page.now r.1)) }
{
    del_edit(page, key)
}
