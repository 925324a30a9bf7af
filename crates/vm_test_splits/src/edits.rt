//! Leaves that are written and split: their words are worked out by hand from the format of a node.
//!
//! A node is its tag, count, low fence, high fence, 1 where there is no high fence, level, two zeros, and then its pairs.

ghost use Rattle.vm_page.specs.Sizes.{IsSize};

use std::process::Abort;
use vm_node::pairs::{count_of, most_pairs};
use vm_node::{Edit, Full, del, del_edit, put, put_edit, right_half, split};
use vm_page::{LARGE, PageBuf, WORDS};
use vm_test_words::words::{edited_words, leaf_words, left_words, page_of, words_of};

// An empty leaf of the whole range.
fn empty_leaf<const N: usize>() -> PageBuf<N>
    requires { IsSize N }
{
    page_of(leaf_words([2, 0, 0, 0, 1, 0, 0, 0], 0, 0))
}

// The page has these words.
fn has_words<const N: usize>(rt: &impl Abort, page: &PageBuf<N>, wanted: [u64; N]) {
    assert_eq!(rt; words_of(page), wanted);
}

// A leaf of so many pairs, which were put by rising key.
fn filled<const N: usize>(rt: &impl Abort, most: u32) -> PageBuf<N>
    requires { IsSize N }
{
    let most = u64::from(most);
    let mut page = empty_leaf::<N>();
    for key in 1..most + 1 {
        assert_eq!(rt; put(&mut page, key, key), Ok(None));
    }
    page
}

// A leaf of as many pairs as it has place for is full for a further key.
fn takes_no_more<const N: usize>(rt: &impl Abort, page: &mut PageBuf<N>, most: u32)
    requires { IsSize N }
{
    let most = u64::from(most);
    let whole = leaf_words::<N>([2, most, 0, 0, 1, 0, 0, 0], 1, most);
    has_words(rt, page, whole);
    assert!(rt; put_edit(page, most + 1, 0).is_err());
    assert!(rt; put_edit(page, most, 0).is_ok());
    assert_eq!(rt; put(page, most + 1, 0), Err(Full));
    has_words(rt, page, whole);
    assert_eq!(rt; put(page, most, most), Ok(Some(most)));
}

// The split of such a leaf leaves half of its pairs in each half, and the upper one takes the next pair.
fn splits_in_halves<const N: usize>(rt: &impl Abort, page: &mut PageBuf<N>, half: u32)
    requires { IsSize N }
{
    let half = u64::from(half);
    assert!(rt; count_of(page) == most_pairs(N));
    let mut right = page_of([7; N]);
    assert_eq!(rt; split(page, &mut right), half + 1);
    has_words(
        rt,
        page,
        leaf_words([2, half, 0, half + 1, 0, 0, 0, 0], 1, half),
    );
    let wanted = leaf_words([2, half, half + 1, 0, 1, 0, 0, 0], half + 1, half);
    has_words(rt, &right, wanted);
    let next = 2 * half + 1;
    assert_eq!(rt; put(&mut right, next, next), Ok(None));
    let wanted = leaf_words([2, half + 1, half + 1, 0, 1, 0, 0, 0], half + 1, half + 1);
    has_words(rt, &right, wanted);
}

#[test]
fn a_full_leaf_is_split(rt: HostRuntime) {
    let mut page = filled::<WORDS>(&rt, 28);
    takes_no_more(&rt, &mut page, 28);
    splits_in_halves(&rt, &mut page, 14);
    let mut page = filled::<LARGE>(&rt, 252);
    takes_no_more(&rt, &mut page, 252);
    splits_in_halves(&rt, &mut page, 126);
}

// The right half of a full leaf is made, and of the left one each word is told.
fn halves_are_found<const N: usize>(rt: &impl Abort, half: u32)
    requires { IsSize N }
{
    let half = u64::from(half);
    let words = leaf_words::<N>([2, 2 * half, 0, 999, 0, 0, 0, 0], 1, 2 * half);
    let page = page_of(words);
    assert!(rt; count_of(&page) == most_pairs(N));
    let mut right = page_of([7; N]);
    assert_eq!(rt; right_half(&page, &mut right), half + 1);
    let wanted = leaf_words([2, half, half + 1, 999, 0, 0, 0, 0], half + 1, half);
    has_words(rt, &right, wanted);
    let wanted = leaf_words::<N>([2, half, 0, half + 1, 0, 0, 0, 0], 1, half);
    assert_eq!(rt; left_words(&page, half + 1), wanted);
    has_words(rt, &page, words);
}

// Of any words: the half's count, the high fence, which there is, and zeros from the first pair of the other half on.
fn left_of_any_words<const N: usize>(rt: &impl Abort, half: u32)
    requires { IsSize N }
{
    let half = u64::from(half);
    let last = u64::MAX;
    let mut wanted = [0; N];
    for i in 0..N {
        wanted[i] = if (i as u64) < 8 + 2 * half { last } else { 0 };
    }
    wanted[1] = half;
    wanted[3] = 5;
    wanted[4] = 0;
    assert_eq!(rt; left_words(&page_of([last; N]), 5), wanted);
}

#[test]
fn halves_are_found_and_the_left_one_not_made(rt: HostRuntime) {
    halves_are_found::<WORDS>(&rt, 14);
    left_of_any_words::<WORDS>(&rt, 14);
    halves_are_found::<LARGE>(&rt, 126);
    left_of_any_words::<LARGE>(&rt, 126);
}

// The words of a leaf with the pairs 2 20, 4 40 and 6 60.
fn three_pairs() -> [u64; WORDS] {
    let mut words = leaf_words::<WORDS>([2, 3, 0, 0, 1, 0, 0, 0], 0, 0);
    words[8..14].copy_from_slice(&[2, 20, 4, 40, 6, 60]);
    words
}

// The words of such a leaf with the pair 3 30 too.
fn four_pairs() -> [u64; WORDS] {
    let mut words = leaf_words::<WORDS>([2, 4, 0, 0, 1, 0, 0, 0], 0, 0);
    words[8..16].copy_from_slice(&[2, 20, 3, 30, 4, 40, 6, 60]);
    words
}

// A put of a value over another, and of a further pair.
fn puts_are_found(rt: &impl Abort, page: &PageBuf<WORDS>) {
    let (was, edit) = put_edit(page, 4, 41).expect(rt, "the key is there");
    assert_eq!(rt; was, Some(40));
    let mut wanted = three_pairs();
    wanted[11] = 41;
    assert_eq!(rt; edited_words(page, &edit), wanted);

    let (was, edit) = put_edit(page, 3, 30).expect(rt, "there is room");
    assert_eq!(rt; was, None);
    assert_eq!(rt; edited_words(page, &edit), four_pairs());
}

// A del of a pair, and of one that is not there.
fn dels_are_found(rt: &impl Abort, page: &PageBuf<WORDS>) {
    let (was, edit) = del_edit(page, 2).expect(rt, "the key is there");
    assert_eq!(rt; was, 20);
    let mut wanted = leaf_words::<WORDS>([2, 2, 0, 0, 1, 0, 0, 0], 0, 0);
    wanted[8..12].copy_from_slice(&[4, 40, 6, 60]);
    assert_eq!(rt; edited_words(page, &edit), wanted);
    assert!(rt; del_edit(page, 3).is_none());
}

// Each edit is found, and nothing is changed by that; a put and a del make the same ones.
#[test]
fn an_edit_is_found_and_made(rt: HostRuntime) {
    let mut page = page_of(three_pairs());
    puts_are_found(&rt, &page);
    dels_are_found(&rt, &page);
    has_words(&rt, &page, three_pairs());

    assert_eq!(rt; put(&mut page, 3, 29), Ok(None));
    assert_eq!(rt; put(&mut page, 3, 30), Ok(Some(29)));
    has_words(&rt, &page, four_pairs());
    assert_eq!(rt; del(&mut page, 3), Some(30));
    assert_eq!(rt; del(&mut page, 3), None);
    has_words(&rt, &page, three_pairs());
}

#[test]
fn no_edit_reaches_past_the_page(rt: HostRuntime) {
    let full = page_of(leaf_words::<WORDS>([2, 28, 0, 0, 1, 0, 0, 0], 1, 28));
    let over = Edit::Over {
        at: usize::MAX,
        value: 7,
    };
    assert_eq!(rt; edited_words(&full, &over), words_of(&full));

    // A count above 28 is read as 28: the first of 28 pairs goes out.
    let out = Edit::Out {
        at: 0,
        count: usize::MAX,
    };
    assert_eq!(rt;
        edited_words(&full, &out),
        leaf_words([2, 27, 0, 0, 1, 0, 0, 0], 2, 27)
    );
}
