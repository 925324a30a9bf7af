//! Leaves that are read, in a buffer and in place: their words are worked out by hand from the format of a node.
//!
//! A node is its tag, count, low fence, high fence, 1 where there is no high fence, level, two zeros, and then its pairs.

ghost use Rattle.vm_page.specs.Sizes.{IsSize};

use std::process::Abort;
use vm_map::call::Pair;
use vm_map::window::Bound;
use vm_node::pairs::{count_at, lower_bound_at, upper_bound_at};
use vm_node::{
    Full, covers, covers_at, del, find, find_at, in_buffer, is_leaf, is_leaf_at, put, window,
    window_at,
};
use vm_page::{LARGE, PageBuf, WORDS};
use vm_test_words::counted::{keys_searched, none_loaded};
use vm_test_words::words::{leaf_words, page_of, words_of};

// A look-up in a buffer gives this, and one in place, from eight words of 64 at most, or eleven of 512.
fn finds<const N: usize>(rt: &impl Abort, page: &PageBuf<N>, key: u64, found: Option<u64>)
    requires { IsSize N }
{
    assert_eq!(rt; find(page, key), found, "at {key}");
    let mut place = none_loaded(page);
    assert_eq!(rt; find_at(&mut place, N, key), found, "at {key}");
    assert!(rt; place.loaded <= keys_searched(N) + 3);
}

// Whether the key is covered, in a buffer and in place, from three words at most.
fn is_covered<const N: usize>(rt: &impl Abort, page: &PageBuf<N>, key: u64, covered: bool)
    requires { IsSize N }
{
    assert_eq!(rt; covers(page, key), covered, "at {key}");
    let mut place = none_loaded(page);
    assert_eq!(rt; covers_at(&mut place, N, key), covered, "at {key}");
    assert!(rt; place.loaded <= 3);
}

// A window ends and shows this, in a buffer and in place, where two words a pair are loaded at most, and nine of 64, or twelve of 512.
fn shows<const N: usize>(
    rt: &impl Abort,
    page: &PageBuf<N>,
    start: u64,
    most: u32,
    bound: Bound,
    pairs: &[Pair],
)
    requires { IsSize N }
{
    let mut place = none_loaded(page);
    for shown in [
        window(page, start, most),
        window_at(&mut place, N, start, most),
    ] {
        assert_eq!(rt; shown.bound, bound);
        assert_eq!(rt; shown.pairs.as_slice(), pairs);
    }
    assert!(rt; place.loaded <= most.min(28) * 2 + keys_searched(N) + 4);
}

// Where the keys stop being lower than this one, and where they begin to be above it.
fn has_bounds<const N: usize>(
    rt: &impl Abort,
    page: &PageBuf<N>,
    key: u64,
    lower: usize,
    upper: usize,
)
    requires { IsSize N }
{
    let mut place = in_buffer(page);
    let count = count_at(&mut place, N);
    assert_eq!(rt;
        lower_bound_at(&mut place, N, count, key),
        lower,
        "at {key}"
    );
    assert_eq!(rt;
        upper_bound_at(&mut place, N, count, key).at,
        upper,
        "at {key}"
    );
}

// A leaf of the pairs 1 1, 2 2 and so on up to the last one, whose high fence is behind it.
fn full_leaf<const N: usize>(most: u32) -> PageBuf<N>
    requires { IsSize N }
{
    let last = u64::from(most);
    page_of(leaf_words([2, last, 1, last + 1, 0, 0, 0, 0], 1, last))
}

// Each pair of such a leaf is found, and its fences part the keys.
fn finds_all<const N: usize>(rt: &impl Abort, page: &PageBuf<N>, most: u32)
    requires { IsSize N }
{
    let last = u64::from(most);
    assert!(rt; is_leaf(page));
    finds(rt, page, 0, None);
    for key in 1..last + 1 {
        finds(rt, page, key, Some(key));
    }
    finds(rt, page, last + 1, None);
    finds(rt, page, u64::MAX, None);
    is_covered(rt, page, 0, false);
    is_covered(rt, page, 1, true);
    is_covered(rt, page, last, true);
    is_covered(rt, page, last + 1, false);
}

// A window shows 28 of the pairs at most, and ends before a pair or at the fence: the first 28 pairs, then the last one, then none of them.
fn shows_windows<const N: usize>(rt: &impl Abort, page: &PageBuf<N>, most: u32)
    requires { IsSize N }
{
    let last = u64::from(most);
    let mut place = none_loaded(page);
    let shown = window_at(&mut place, N, 0, 100);
    assert_eq!(rt; shown.bound, Bound::Key(29));
    assert_eq!(rt; shown.pairs.len(), 28);
    assert!(rt; place.loaded <= 60 + keys_searched(N));
    let end = Pair {
        key: last,
        value: last,
    };
    shows(rt, page, last, 28, Bound::Key(last + 1), &[end]);
    shows(rt, page, 14, 0, Bound::Key(14), &[]);
    let third = Pair { key: 3, value: 3 };
    shows(rt, page, 3, 1, Bound::Key(4), &[third]);
}

// A full leaf is read in place.
fn full_leaf_is_read<const N: usize>(rt: &impl Abort, most: u32)
    requires { IsSize N }
{
    let page = full_leaf::<N>(most);
    finds_all(rt, &page, most);
    shows_windows(rt, &page, most);
    let mut place = in_buffer(&page);
    assert!(rt; is_leaf_at(&mut place, N));
    let count = count_at(&mut place, N);
    assert_eq!(rt; count, most as usize);
    has_bounds(rt, &page, 0, 0, 0);
    has_bounds(rt, &page, 14, 13, 14);
    has_bounds(rt, &page, u64::MAX, count, count);
}

#[test]
fn a_full_leaf_is_read_in_place(rt: HostRuntime) {
    full_leaf_is_read::<WORDS>(&rt, 28);
    full_leaf_is_read::<LARGE>(&rt, 252);
}

// The right half of a full leaf, with one pair more, covers its own keys alone, and a window behind its last pair shows none.
fn right_half_is_read<const N: usize>(rt: &impl Abort, half: u32)
    requires { IsSize N }
{
    let half = u64::from(half);
    let words = leaf_words::<N>([2, half + 1, half + 1, 0, 1, 0, 0, 0], half + 1, half + 1);
    let right = page_of(words);
    is_covered(rt, &right, half, false);
    is_covered(rt, &right, u64::MAX, true);
    shows(rt, &right, 2 * half + 2, 28, Bound::End, &[]);
}

#[test]
fn a_right_half_covers_its_own_keys(rt: HostRuntime) {
    right_half_is_read::<WORDS>(&rt, 14);
    right_half_is_read::<LARGE>(&rt, 126);
}

// The count is read as the most pairs that there are, and each of their keys is the same.
fn reads_any_words<const N: usize>(rt: &impl Abort)
    requires { IsSize N }
{
    let last = u64::MAX;
    let page = page_of([last; N]);
    finds(rt, &page, last, Some(last));
    finds(rt, &page, 5, None);
    assert!(rt; !is_leaf(&page));
    is_covered(rt, &page, 5, false);
    assert_eq!(rt; window(&page, 5, 100).pairs.len(), 28);
    let mut place = none_loaded(&page);
    assert_eq!(rt; window_at(&mut place, N, 5, 100).pairs.len(), 28);
    assert!(rt; place.loaded <= 60 + keys_searched(N));
}

// Such a page is full for a further key; a del of the one that it has leaves a pair fewer.
fn writes_any_words<const N: usize>(rt: &impl Abort, most: u32)
    requires { IsSize N }
{
    let last = u64::MAX;
    let mut page = page_of([last; N]);
    assert_eq!(rt; put(&mut page, 5, 5), Err(Full));
    assert_eq!(rt; words_of(&page), [last; N]);
    assert_eq!(rt; del(&mut page, last), Some(last));
    let mut wanted = [last; N];
    wanted[1] = u64::from(most).saturating_sub(1);
    wanted[N - 2] = 0;
    wanted[N - 1] = 0;
    assert_eq!(rt; words_of(&page), wanted);
}

#[test]
fn any_words_are_safe(rt: HostRuntime) {
    reads_any_words::<WORDS>(&rt);
    writes_any_words::<WORDS>(&rt, 28);
    reads_any_words::<LARGE>(&rt);
    writes_any_words::<LARGE>(&rt, 252);
}
