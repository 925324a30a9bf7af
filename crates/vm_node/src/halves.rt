//! The split of a full node into two halves, of leaves and of inner nodes alike. The left half is told word by word, and may be made or not.

ghost use Rattle.std.specs.Prelude.{◌≡◌, ℕ, ◌+◌, ◌*◌, ◌<◌, ◌≤◌, length, slice_index};
ghost use Rattle.vm_page.specs.Sizes.{IsSize};
ghost use Rattle.vm_tree_model.specs.Fixed.{fixed, capacity};
ghost use Rattle.vm_tree_model.specs.Page.{pairs_of, IsLeaf};
ghost use Rattle.vm_tree_model.specs.Edits.{IsSplit};
ghost use Rattle.vm_node.specs.Halves.{half_of, left_half, left_word};

use crate::header::{Header, write_header};
use crate::pairs::most_pairs;
use vm_page::PageBuf;

/// Splits a full node: the first half of its pairs stays, 14 of 28 or 126 of 252, and the other half makes the right sibling. What `right` held before is lost.
/// Gives the separator, which is the first key of the sibling and its low fence.
pub fn split<const N: usize>(page: &mut PageBuf<N>, right: &mut PageBuf<N>) -> u64
    requires sized { IsSize N }
    requires full { length (pairs_of (fixed N) page.old) ≡ capacity N }
    ensures halves { IsSplit (fixed N) page.old page.new right.new result }
    ensures left_leaf { IsLeaf (fixed N) page.old → IsLeaf (fixed N) page.new }
    ensures right_leaf { IsLeaf (fixed N) page.old → IsLeaf (fixed N) right.new }
{
    let separator = right_half(page, right);
    make_left(page, separator);
    separator
}

/// Makes the right half of a full node, which stays as it is: the last 14 of 28 pairs, or the last 126 of 252. What `right` held before is lost.
/// Gives the separator, which is the first key of the right half and its low fence, and the high fence of the left half.
pub fn right_half<const N: usize>(page: &PageBuf<N>, right: &mut PageBuf<N>) -> u64
    requires sized { IsSize N }
    requires full { length (pairs_of (fixed N) page.now) ≡ capacity N }
    ensures halves { IsSplit (fixed N) page.now (left_half N page.now result) right.new result }
    ensures left_leaf { IsLeaf (fixed N) page.now → IsLeaf (fixed N) (left_half N page.now result) }
    ensures right_leaf { IsLeaf (fixed N) page.now → IsLeaf (fixed N) right.new }
{
    let half = most_pairs(N) / 2;
    // The key of the first pair on the right.
    let separator = page.get(8 + 2 * half);
    *right = PageBuf::zero();
    copy_pairs(page, right);
    write_header(
        right,
        Header {
            tag: page.get(0),
            count: half as u64,
            low: separator,
            high: page.get(3),
            endless: page.get(4),
            level: page.get(5),
        },
    );
    separator
}

/// Word `i` of the left half of the page, for `i` from 0 on and below the number of words.
pub fn left_word<const N: usize>(page: &PageBuf<N>, separator: u64, i: usize) -> u64
    requires sized { IsSize N }
    requires place { i < N }
    ensures { result ≡ left_word N page.now separator i }
{
    let half = most_pairs(N) / 2;
    if i == 1 {
        half as u64
    } else if i == 3 {
        separator
    } else if i == 4 {
        0
    } else if i < 8 + 2 * half {
        page.get(i)
    } else {
        0
    }
}

// Makes the left half of the page.
fn make_left<const N: usize>(page: &mut PageBuf<N>, separator: u64)
    requires { IsSize N }
    ensures { page.new ≡ left_half N page.old separator }
{
    for i in 0..N {
        let word = left_word(page, separator, i);
        page.set(i, word);
    }
}

// The words of the last half of the pairs, in the first places of another page.
fn copy_pairs<const N: usize>(page: &PageBuf<N>, right: &mut PageBuf<N>)
    requires sized { IsSize N }
    requires right_words { length right.old ≡ N }
    ensures moved { (k : ℕ) → k < 2 * half_of N → slice_index right.new (8 + k) ≡ slice_index page.now (8 + 2 * half_of N + k) }
    ensures right_low { (k : ℕ) → k < 8 → slice_index right.new k ≡ slice_index right.old k }
    ensures right_high { (k : ℕ) → 8 + 2 * half_of N ≤ k → slice_index right.new k ≡ slice_index right.old k }
    ensures right_words { length right.new ≡ N }
{
    let half = most_pairs(N) / 2;
    for i in 0..2 * half {
        right.set(8 + i, page.get(8 + 2 * half + i));
    }
}
