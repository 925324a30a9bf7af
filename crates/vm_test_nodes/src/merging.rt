//! Two leaves that become one, and the inner node above them: the words are worked out by hand from the format of a node.

ghost use Rattle.vm_page.specs.Sizes.{IsSize};

use vm_inner::{ChildPair, beside, remove_edit};
use vm_node::join;
use vm_node::pairs::{count_of, most_pairs};
use vm_page::{LARGE, PageBuf, WORDS};
use vm_test_words::words::{edited_words, leaf_words, node_words, page_of, words_of};

// A leaf of the keys 10 to 12 below 13, one of 13 to 16 without a high fence, and the words of both as one.
fn leaves<const N: usize>() -> (PageBuf<N>, PageBuf<N>, [u64; N])
    requires { IsSize N }
{
    let left = page_of(leaf_words([2, 3, 10, 13, 0, 0, 0, 0], 10, 3));
    let right = page_of(leaf_words([2, 4, 13, 0, 1, 0, 0, 0], 13, 4));
    (left, right, leaf_words([2, 7, 10, 0, 1, 0, 0, 0], 10, 7))
}

#[test]
fn two_leaves_become_one(rt: HostRuntime) {
    let (mut left, right, wanted) = leaves::<WORDS>();
    assert!(rt; count_of(&left) + count_of(&right) <= most_pairs(WORDS));
    join(&mut left, &right);
    assert_eq!(rt; words_of(&left), wanted);
    let (mut left, right, wanted) = leaves::<LARGE>();
    assert!(rt; count_of(&left) + count_of(&right) <= most_pairs(LARGE));
    join(&mut left, &right);
    assert_eq!(rt; words_of(&left), wanted);
}

// An inner node with the children 1000, 1010, .., on the pages 1100, 1110, ...
fn parent_of<const N: usize>(count: u64) -> PageBuf<N>
    requires { IsSize N }
{
    page_of(node_words::<N>([3, count, 1000, 2000, 0, 1, 0, 0], 1000, count, (10, 100)))
}

// The child at this key and the next one.
fn pair_at(low: u64) -> Option<ChildPair<u64>> {
    Some(ChildPair {
        left: low.wrapping_add(100),
        low,
        right: low.wrapping_add(110),
        separator: low.wrapping_add(10),
    })
}

#[test]
fn the_last_child_has_the_one_before_beside_it(rt: HostRuntime) {
    let parent = parent_of::<WORDS>(3);
    assert_eq!(rt; beside(&parent, 999), None);
    assert_eq!(rt; beside(&parent, 1009), pair_at(1000));
    assert_eq!(rt; beside(&parent, 1010), pair_at(1010));
    assert_eq!(rt; beside(&parent, 1025), pair_at(1010));
    let large = parent_of::<LARGE>(252);
    assert_eq!(rt; beside(&large, 3515), pair_at(3500));
    assert_eq!(rt; beside(&parent_of::<WORDS>(1), 1005), None);
}

#[test]
fn a_child_goes(rt: HostRuntime) {
    let parent = parent_of::<WORDS>(3);
    assert!(rt; remove_edit(&parent, 1005).is_none());
    let (page, edit) = remove_edit(&parent, 1010).expect(&rt, "the key is there");
    assert_eq!(rt; page, 1110);
    let mut wanted = node_words([3, 2, 1000, 2000, 0, 1, 0, 0], 0, 0, (10, 100));
    wanted[8..12].copy_from_slice(&[1000, 1100, 1020, 1120]);
    assert_eq!(rt; edited_words(&parent, &edit), wanted);
}
