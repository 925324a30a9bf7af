//! Nodes with byte keys: their words are worked out by hand from the format of a node.
//!
//! A node is its tag, count, level, the slots of its fences, three zeros, a slot for each pair, and from word 511 down what the slots name. A slot is
//! place * 256 + length.

use std::process::Abort;
use vm_bytes_edit::{del_edit, new_root, put_edit, spare_of, split};
use vm_bytes_node::{
    child_at, covers_at, find_at, has_fences_at, has_level_at, high_at, is_before, is_leaf_at,
    low_at, pair_size, spare_at, window_at,
};
use vm_map::key::Key;
use vm_node::{Full, in_buffer};
use vm_page::PageBuf;
use vm_test_words::counted::none_loaded;

// The key of these bytes, which are 64 at most.
fn key(rt: &impl Abort, bytes: &[u8]) -> Key {
    match Key::of(bytes) {
        Some(key) => key,
        None => panic!(rt; "more than 64 bytes"),
    }
}

// The key of 63 zero bytes and this one.
fn long_key(rt: &impl Abort, last: u8) -> Key {
    let mut bytes = [0; 64];
    bytes[63] = last;
    key(rt, &bytes)
}

// A leaf with no fences and no pair.
fn empty_leaf() -> PageBuf<512> {
    let mut page = PageBuf::zero();
    page.set(0, 4);
    page
}

// The page with a value at a key, which had none.
fn with(rt: &impl Abort, page: &PageBuf<512>, key: &Key, value: u64) -> PageBuf<512> {
    match put_edit(page, key, value) {
        Ok((None, edited)) => edited,
        Ok((Some(old), _)) => panic!(rt; "{old} was there"),
        Err(Full) => panic!(rt; "no room"),
    }
}

// The page has these words, and zeros elsewhere.
fn has_words(rt: &impl Abort, page: &PageBuf<512>, words: &[(usize, u64)]) {
    for i in 0..512 {
        let mut word = 0;
        for &(at, wanted) in words {
            if at == i {
                word = wanted;
            }
        }
        assert_eq!(rt; page.get(i), word, "word {i}");
    }
}

// A look-up gives this, from 84 words at most.
fn finds(rt: &impl Abort, page: &PageBuf<512>, key: &Key, found: Option<u64>) {
    let mut place = none_loaded(page);
    assert_eq!(rt; find_at(&mut place, key), found);
    assert!(rt; place.loaded <= 84);
}

// The leaf of no byte, one zero byte and two.
fn three_keys(rt: &impl Abort) -> PageBuf<512> {
    let page = with(rt, &empty_leaf(), &key(rt, &[0]), 2);
    let page = with(rt, &page, &key(rt, &[0, 0]), 3);
    with(rt, &page, &Key::new(), 1)
}

#[test]
fn short_keys_stand_in_their_words(rt: HostRuntime) {
    let page = three_keys(&rt);
    has_words(
        &rt,
        &page,
        &[
            (0, 4),
            (1, 3),
            (8, 130816),
            (9, 130305),
            (10, 129794),
            (508, 3),
            (510, 2),
            (511, 1),
        ],
    );
    finds(&rt, &page, &Key::new(), Some(1));
    finds(&rt, &page, &key(&rt, &[0]), Some(2));
    finds(&rt, &page, &key(&rt, &[0, 0]), Some(3));
    finds(&rt, &page, &key(&rt, &[0, 0, 0]), None);
    finds(&rt, &page, &key(&rt, &[1]), None);
    assert_eq!(&rt; spare_of(&page), 496);
}

#[test]
fn a_pair_that_goes_leaves_no_hole(rt: HostRuntime) {
    let page = three_keys(&rt);
    let Some((old, page)) = del_edit(&page, &key(&rt, &[0])) else {
        panic!(&rt; "it was there");
    };
    assert_eq!(&rt; old, 2);
    has_words(
        &rt,
        &page,
        &[(0, 4), (1, 2), (8, 130816), (9, 130306), (510, 3), (511, 1)],
    );
    assert!(&rt; del_edit(&page, &key(&rt, &[0])).is_none());
}

#[test]
fn keys_stand_in_the_order_of_a_dictionary(rt: HostRuntime) {
    let long = key(&rt, &[1, 2]);
    let short = key(&rt, &[255]);
    assert!(&rt; is_before(&long, &short));
    assert!(&rt; !is_before(&short, &long));
    assert!(&rt; is_before(&Key::new(), &long));
    let page = with(&rt, &with(&rt, &empty_leaf(), &long, 7), &short, 8);
    let other = with(&rt, &with(&rt, &empty_leaf(), &short, 8), &long, 7);
    for words in [page, other] {
        has_words(
            &rt,
            &words,
            &[
                (0, 4),
                (1, 2),
                (8, 130562),
                (9, 130049),
                (510, 72620543991349248),
                (511, 7),
                (508, 18374686479671623680),
                (509, 8),
            ],
        );
    }
}

// The leaf of the first 50 long keys.
fn full_leaf(rt: &impl Abort) -> PageBuf<512> {
    let mut page = empty_leaf();
    for i in 1..51u8 {
        page = with(rt, &page, &long_key(rt, i), u64::from(i));
    }
    page
}

#[test]
fn a_leaf_is_full_at_504_words(rt: HostRuntime) {
    let page = full_leaf(&rt);
    assert_eq!(&rt; spare_of(&page), 4);
    assert_eq!(&rt; pair_size(&long_key(&rt, 51)), 10);
    assert!(&rt; put_edit(&page, &long_key(&rt, 51), 51).is_err());
    match put_edit(&page, &long_key(&rt, 50), 9) {
        Ok((old, page)) => {
            assert_eq!(&rt; old, Some(50));
            finds(&rt, &page, &long_key(&rt, 50), Some(9));
        }
        Err(Full) => panic!(&rt; "it is there"),
    }
    // Two words of a slot and a value, two of a key of 16 bytes: four are left.
    let page = with(&rt, &page, &key(&rt, &[1; 16]), 3);
    assert_eq!(&rt; spare_of(&page), 0);
    assert!(&rt; put_edit(&page, &key(&rt, &[2]), 3).is_err());
}

#[test]
fn a_split_cuts_at_the_half(rt: HostRuntime) {
    let page = full_leaf(&rt);
    let mut left = PageBuf::zero();
    let mut right = PageBuf::zero();
    let separator = split(&page, &mut left, &mut right);
    let fence = long_key(&rt, 26);
    assert_eq!(&rt; separator.as_slice(), fence.as_slice());
    assert_eq!(&rt;
        (left.get(0), left.get(1), left.get(3), left.get(4)),
        (4, 25, 0, 129088)
    );
    assert_eq!(&rt;
        (left.get(8), left.get(9), left.get(511)),
        (126784, 124480, 26)
    );
    assert_eq!(&rt;
        (right.get(0), right.get(1), right.get(3), right.get(4)),
        (4, 25, 129088, 0)
    );
    assert_eq!(&rt;
        (right.get(8), right.get(511), right.get(503)),
        (126784, 26, 26)
    );
    for i in 1..51u8 {
        let value = Some(u64::from(i));
        finds(
            &rt,
            &left,
            &long_key(&rt, i),
            if i < 26 { value } else { None },
        );
        finds(
            &rt,
            &right,
            &long_key(&rt, i),
            if i < 26 { None } else { value },
        );
    }
    let high = Some(separator);
    assert!(&rt; has_fences_at(&mut in_buffer(&left), &Key::new(), &high));
    assert!(&rt; has_fences_at(&mut in_buffer(&right), &fence, &None));
    assert!(&rt; !has_fences_at(&mut in_buffer(&right), &Key::new(), &None));
    assert!(&rt; !covers_at(&mut in_buffer(&left), &fence));
    assert!(&rt; covers_at(&mut in_buffer(&right), &fence));
    assert!(&rt; covers_at(&mut in_buffer(&left), &long_key(&rt, 25)));
}

// A window from a key on shows so many pairs, the first of this value, and ends there, from eleven words a pair and 100 more.
fn shows(
    rt: &impl Abort,
    page: &PageBuf<512>,
    from: &Key,
    most: u32,
    count: usize,
    value: u64,
    bound: &Option<Key>,
) {
    let mut place = none_loaded(page);
    let window = window_at(&mut place, from, most);
    assert_eq!(rt; window.pairs.len(), count);
    if let Some(first) = window.pairs.as_slice().first() {
        assert_eq!(rt; first.value, value);
    }
    match (&window.bound, bound) {
        (Some(found), Some(wanted)) => assert_eq!(rt; found.as_slice(), wanted.as_slice()),
        (None, None) => {}
        _ => panic!(rt; "another bound"),
    }
    assert!(rt; place.loaded <= most.min(28) * 11 + 100);
}

#[test]
fn a_window_ends_at_the_next_key(rt: HostRuntime) {
    let page = three_keys(&rt);
    shows(&rt, &page, &Key::new(), 2, 2, 1, &Some(key(&rt, &[0, 0])));
    shows(&rt, &page, &key(&rt, &[0]), 28, 2, 2, &None);
    shows(&rt, &page, &key(&rt, &[0, 0, 0]), 1, 0, 0, &None);
    let page = full_leaf(&rt);
    shows(
        &rt,
        &page,
        &Key::new(),
        100,
        28,
        1,
        &Some(long_key(&rt, 29)),
    );
    shows(&rt, &page, &long_key(&rt, 40), 28, 11, 40, &None);
}

#[test]
fn a_new_root_leads_to_both(rt: HostRuntime) {
    let fence = long_key(&rt, 26);
    let mut root = empty_leaf();
    new_root(&mut root, 1, 3, &fence, 2);
    has_words(
        &rt,
        &root,
        &[
            (0, 5),
            (1, 2),
            (2, 1),
            (8, 130816),
            (9, 128576),
            (509, 26),
            (510, 2),
            (511, 3),
        ],
    );
    assert!(&rt; !is_leaf_at(&mut in_buffer(&root)));
    assert!(&rt; has_level_at(&mut in_buffer(&root), 1));
    let Some(below) = child_at(&mut none_loaded(&root), &long_key(&rt, 25)) else {
        panic!(&rt; "it has a child");
    };
    assert_eq!(&rt; below.page, 3);
    assert_eq!(&rt; below.low.len(), 0);
    let Some(above) = child_at(&mut none_loaded(&root), &fence) else {
        panic!(&rt; "it has a child");
    };
    assert_eq!(&rt; above.page, 2);
    assert_eq!(&rt; above.low.as_slice(), fence.as_slice());
    assert!(&rt; above.next.is_none());
}

#[test]
fn any_words_are_safe(rt: HostRuntime) {
    for word in [u64::MAX, 1, 131071, 256 * 500 + 64, 255] {
        let mut page = PageBuf::zero();
        for i in 0..512 {
            page.set(i, word);
        }
        let mut place = none_loaded(&page);
        let _ = find_at(&mut place, &long_key(&rt, 1));
        assert!(&rt; place.loaded <= 84);
        let mut place = none_loaded(&page);
        let _ = child_at(&mut place, &key(&rt, &[255; 64]));
        assert!(&rt; place.loaded <= 84);
        let _ = low_at(&mut in_buffer(&page));
        let _ = high_at(&mut in_buffer(&page));
        assert!(&rt; spare_at(&mut in_buffer(&page)) <= 504);
        let _ = put_edit(&page, &key(&rt, &[7]), 7);
        let _ = del_edit(&page, &Key::new());
        let mut left = PageBuf::zero();
        let mut right = PageBuf::zero();
        let _ = split(&page, &mut left, &mut right);
    }
}
