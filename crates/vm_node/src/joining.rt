//! Two neighbouring leaves become one: the left one takes over the pairs of the right one, and its high fence.

ghost use Rattle.std.specs.Prelude.{◌≡◌, ◌+◌, ◌<◌, ◌≤◌, length};
ghost use Rattle.vm_page.specs.Sizes.{IsSize};
ghost use Rattle.vm_tree_model.specs.Fixed.{fixed, capacity};
ghost use Rattle.vm_tree_model.specs.Page.{pairs_of, node_of, IsLeaf};
ghost use Rattle.vm_tree_model.specs.Merges.{IsJoined};
ghost use Rattle.vm_node.specs.Joined.{joined_words, word_joined};

use crate::pairs::count_of;
use vm_page::PageBuf;

/// The left one of two neighbouring nodes takes over the pairs of the right one, behind its own, and its high fence. It must have place for them. Of two leaves,
/// where the right one begins at the left one's high fence, it makes a leaf.
pub fn join<const N: usize>(left: &mut PageBuf<N>, right: &PageBuf<N>)
    requires sized { IsSize N }
    requires place { length (pairs_of (fixed N) left.old) + length (pairs_of (fixed N) right.now) ≤ capacity N }
    ensures words { left.new ≡ joined_words N left.old right.now }
    ensures joined { IsJoined (fixed N) left.old right.now left.new }
    ensures leaf { IsLeaf (fixed N) left.old → IsLeaf (fixed N) right.now → (node_of (fixed N) left.old).high ≡ (node_of (fixed N) right.now).low
        → (node_of (fixed N) left.old).low ≤ (node_of (fixed N) left.old).high → (node_of (fixed N) right.now).low ≤ (node_of (fixed N) right.now).high
        → IsLeaf (fixed N) left.new }
{
    let first = count_of(left);
    let second = count_of(right);
    for i in 0..N {
        let word = word_of_both(left, right, first, second, i);
        left.set(i, word);
    }
}

// Word `i` of the left node with the right one's pairs behind its own: it has the first number of pairs, and the right one the second.
fn word_of_both<const N: usize>(
    left: &PageBuf<N>,
    right: &PageBuf<N>,
    first: usize,
    second: usize,
    i: usize,
) -> u64
    requires sized { IsSize N }
    requires place { i < N }
    requires counts { first + second ≤ capacity N }
    ensures { result ≡ word_joined left.now right.now first second i }
{
    if i == 1 {
        (first + second) as u64
    } else if i == 3 || i == 4 {
        right.get(i)
    } else if i < 8 + 2 * first {
        left.get(i)
    } else if i < 8 + 2 * (first + second) {
        right.get(i - 2 * first)
    } else {
        0
    }
}
