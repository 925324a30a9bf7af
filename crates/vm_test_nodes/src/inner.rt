//! Pages whose words are worked out by hand from the format of a node.
//!
//! An inner node is its tag, count, low fence, high fence, 1 where there is no high fence, level, two zeros, and then
//! the lowest key and the page of each child.

ghost use Rattle.vm_page.specs.Sizes.{IsSize};

use std::process::Abort;
use vm_inner::{Full, add, add_edit, child, child_at, new_root, split_inner};
use vm_node::pairs::{count_of, most_pairs};
use vm_page::{LARGE, PageBuf, WORDS};
use vm_test_words::counted::{keys_searched, none_loaded};
use vm_test_words::words::{edited_words, node_words, page_of, words_of};

// The words of a node with this header and children with the keys first, first + 10, .. on the pages 100 + key.
fn inner_words<const N: usize>(header: [u64; 8], first: u64, count: u64) -> [u64; N] {
    node_words(header, first, count, (10, 100))
}

// The child, in a buffer and in place, where seven words of 64 are loaded at most, or ten of 512.
fn leads_to<const N: usize>(rt: &impl Abort, page: &PageBuf<N>, key: u64, found: Option<u64>)
    requires { IsSize N }
{
    assert_eq!(rt; child(page, key), found, "at {key}");
    let mut place = none_loaded(page);
    let in_place = match child_at(&mut place, N, key) {
        Some(child) => Some(child.page),
        None => None,
    };
    assert_eq!(rt; in_place, found, "in place, at {key}");
    assert!(rt; place.loaded <= keys_searched(N) + 2);
}

// The page has these words.
fn has_words<const N: usize>(rt: &impl Abort, page: &PageBuf<N>, wanted: [u64; N]) {
    assert_eq!(rt; words_of(page), wanted);
}

// A root over the pages 1 and 2, with the keys below 15 and the others.
fn root_of_two<const N: usize>(rt: &impl Abort) -> PageBuf<N>
    requires { IsSize N }
{
    let mut page = page_of([7; N]);
    new_root(&mut page, 1, 1, 15, 2);
    let mut wanted = inner_words::<N>([3, 2, 0, 0, 1, 1, 0, 0], 0, 0);
    wanted[9] = 1;
    wanted[10] = 15;
    wanted[11] = 2;
    has_words(rt, &page, wanted);
    for (key, page_of_child) in [(0, 1), (14, 1), (15, 2), (u64::MAX, 2)] {
        leads_to(rt, &page, key, Some(page_of_child));
    }
    page
}

// A root over two children, which gets a third one, and the second one on another page.
fn root_has_children<const N: usize>(rt: &impl Abort)
    requires { IsSize N }
{
    let mut page = root_of_two::<N>(rt);
    assert_eq!(rt; add(&mut page, 29, 4), Ok(()));
    assert_eq!(rt; add(&mut page, 15, 5), Ok(()));
    let mut wanted = inner_words::<N>([3, 3, 0, 0, 1, 1, 0, 0], 0, 0);
    wanted[9] = 1;
    wanted[10] = 15;
    wanted[11] = 5;
    wanted[12] = 29;
    wanted[13] = 4;
    has_words(rt, &page, wanted);
    for (key, page_of_child) in [(15, 5), (28, 5), (29, 4)] {
        leads_to(rt, &page, key, Some(page_of_child));
    }
}

#[test]
fn a_new_root_has_two_children(rt: HostRuntime) {
    root_has_children::<WORDS>(&rt);
    root_has_children::<LARGE>(&rt);
}

#[test]
fn a_further_child_is_found_and_not_put(rt: HostRuntime) {
    // The children 1000 and 1010.
    let words = inner_words::<WORDS>([3, 2, 1000, 2000, 0, 1, 0, 0], 1000, 2);
    let page = page_of(words);

    let edit = add_edit(&page, 1005, 7).expect(&rt, "there is room");
    let mut wanted = inner_words([3, 3, 1000, 2000, 0, 1, 0, 0], 0, 0);
    wanted[8..14].copy_from_slice(&[1000, 1100, 1005, 7, 1010, 1110]);
    assert_eq!(rt; edited_words(&page, &edit), wanted);
    assert_eq!(rt; words_of(&page), words);
}

// The words of a node with the children 1000, 1010, .., as many as two halves have.
fn full_words<const N: usize>(half: u32) -> [u64; N] {
    let most = 2 * u64::from(half);
    inner_words([3, most, 1000, 9000, 0, 2, 0, 0], 1000, most)
}

// A node with these children, of which the last one came last.
fn full_node<const N: usize>(rt: &impl Abort, half: u32) -> PageBuf<N>
    requires { IsSize N }
{
    let most = 2 * u64::from(half);
    let fewer = most.saturating_sub(1);
    let last = 990 + 10 * most;
    let mut page = page_of(inner_words([3, fewer, 1000, 9000, 0, 2, 0, 0], 1000, fewer));
    assert_eq!(rt; add(&mut page, last, last + 100), Ok(()));
    has_words(rt, &page, full_words(half));
    page
}

// It leads to each of them.
fn leads_to_all<const N: usize>(rt: &impl Abort, page: &PageBuf<N>, half: u32)
    requires { IsSize N }
{
    let most = 2 * u64::from(half);
    leads_to(rt, page, 999, None);
    for i in 0..most {
        leads_to(rt, page, 1000 + 10 * i, Some(1100 + 10 * i));
        leads_to(rt, page, 1009 + 10 * i, Some(1100 + 10 * i));
    }
    leads_to(rt, page, u64::MAX, Some(1090 + 10 * most));
}

// It is full for a further child, and not for another page of one that it has.
fn takes_no_more<const N: usize>(rt: &impl Abort, page: &mut PageBuf<N>, half: u32)
    requires { IsSize N }
{
    let last = 990 + 20 * u64::from(half);
    assert!(rt; add_edit(page, last + 5, 9).is_err());
    assert!(rt; add_edit(page, last, 9).is_ok());
    assert_eq!(rt; add(page, last + 5, 9), Err(Full));
    has_words(rt, page, full_words(half));
}

// A node with the children 1000, 1010, .., as many as it has place for, is full for a further one, and its split leaves half of them in each half.
fn full_node_is_split<const N: usize>(rt: &impl Abort, half: u32)
    requires { IsSize N }
{
    let mut page = full_node::<N>(rt, half);
    leads_to_all(rt, &page, half);
    takes_no_more(rt, &mut page, half);

    assert!(rt; count_of(&page) == most_pairs(N));
    let mut right = page_of([7; N]);
    let half = u64::from(half);
    let middle = 1000 + 10 * half;
    assert_eq!(rt; split_inner(&mut page, &mut right), middle);
    has_words(
        rt,
        &page,
        inner_words([3, half, 1000, middle, 0, 2, 0, 0], 1000, half),
    );
    has_words(
        rt,
        &right,
        inner_words([3, half, middle, 9000, 0, 2, 0, 0], middle, half),
    );
    leads_to(rt, &page, middle - 1, Some(middle + 90));
    leads_to(rt, &right, middle, Some(middle + 100));
}

#[test]
fn a_full_node_is_split(rt: HostRuntime) {
    full_node_is_split::<WORDS>(&rt, 14);
    full_node_is_split::<LARGE>(&rt, 126);
}

// Of zeros there is no child. The count of other words is read as the most children that there are, and each of their keys is the same.
fn leads_in_any_words<const N: usize>(rt: &impl Abort)
    requires { IsSize N }
{
    leads_to(rt, &PageBuf::<N>::zero(), 5, None);
    let mut page = page_of([u64::MAX; N]);
    leads_to(rt, &page, 5, None);
    leads_to(rt, &page, u64::MAX, Some(u64::MAX));
    assert_eq!(rt; add(&mut page, 5, 5), Err(Full));
    assert_eq!(rt; words_of(&page), [u64::MAX; N]);
}

#[test]
fn any_words_are_safe(rt: HostRuntime) {
    leads_in_any_words::<WORDS>(&rt);
    leads_in_any_words::<LARGE>(&rt);
}
