//! Puts on full leaves, with ample memory: the leaf is split, or, where the image is full, all stays as it was.
use std::test::Fail;
use vm_event::MAX_VERSION;
use vm_exmap::Interface;
use vm_map::call::Reply;
use vm_page::LARGE;
use vm_tree_pages::steps::{follow, play, play_large};
use vm_tree_pages::tree_callers::{
    LARGE_MAGIC, empty, empty_sized, open, put_then_get, two_leaves,
};

/// The 28 keys that there are can be put, others not.
#[test]
fn a_full_leaf_is_tight_and_then_split(rt: HostRuntime) -> Result<(), Fail> {
    let alloc = rt.alloc();
    let bytes = empty(alloc, 8)?;
    let (pool, mut pass) = open(alloc, bytes.as_slice())?;
    let mut iface = Interface::new(0, 16);
    let script = "
puts 0 28
try-put 27 2 = was 1
try-put 28 1 = tight 1
try-split 28 = split
try-split 28 = roomy
try-put 28 1 = was none
";
    follow(&rt, alloc, &pool, &mut pass, &mut iface, script)?;
    let got = put_then_get(pool.words(), &mut pass, &29, 30);
    assert_eq!(rt; got, Some(Reply::Got(Some(30))));
    Ok(())
}

/// A leaf of 512 words takes 252 pairs. The next put splits the root, which leaves 126 of them on the lower leaf. A window shows 28 at most.
#[test]
fn a_leaf_of_512_words_takes_252_pairs(rt: HostRuntime) -> Result<(), Fail> {
    let alloc = rt.alloc();
    let bytes = empty_sized(alloc, LARGE, LARGE_MAGIC, 4)?;
    let script = "
puts 0 252
try-put 252 1 = tight 1
put 252 7 = was none
get 252 = got 7
window 100 28 = 26 below 126
window 126 252 = 28 below 154
del 252 = gone 7
get 252 = got none
";
    play_large(&rt, alloc, bytes.as_slice(), script)
}

/// The try to split locks nothing.
#[test]
fn a_full_image_has_no_page_for_a_split(rt: HostRuntime) -> Result<(), Fail> {
    let alloc = rt.alloc();
    let bytes = empty(alloc, 3)?;
    let script = "
puts 0 28
try-split 28 = full 3 2 2
try-put 3 9 = was 1
";
    play(&rt, alloc, bytes.as_slice(), &[], 0, script)
}

/// Page 0 and the leaf are brought in, each a version on, and the leaf is put 28 times: then it is at the last version but one, 2^56 - 2. No put that is
/// refused since the image is full raises a version, so that the last one is left for a put of a key that is there. A worn leaf is no reason where the image is
/// full, too.
#[test]
fn puts_that_a_full_image_refuses_wear_no_page(rt: HostRuntime) -> Result<(), Fail> {
    let alloc = rt.alloc();
    let bytes = empty(alloc, 3)?;
    let script = "
puts 0 28
put 28 1 = full 3
put 28 1 = full 3
put 28 1 = full 3
put 28 1 = full 3
put 28 1 = full 3
put 28 1 = full 3
put 28 1 = full 3
put 28 1 = full 3
put 28 1 = full 3
put 28 1 = full 3
put 28 1 = full 3
put 28 1 = full 3
unlocked 0 72057594037927906
unlocked 1 72057594037927934
evicted 2 72057594037927905
put 3 9 = was 1
put 3 8 = worn 1
put 28 1 = full 3
put 28 1 = full 3
put 28 1 = full 3
put 28 1 = full 3
put 28 1 = full 3
put 28 1 = full 3
put 28 1 = full 3
put 28 1 = full 3
put 28 1 = full 3
put 28 1 = full 3
put 28 1 = full 3
put 28 1 = full 3
";
    play(&rt, alloc, bytes.as_slice(), &[], MAX_VERSION - 30, script)
}

/// The leaf below key 100 gets 26 keys more, so that it is full, and its parent, the root, has room for more: what is missing is a page. Page 0 and the root
/// were brought in; the leaf was, and written 26 times; its sibling never was.
#[test]
fn a_full_leaf_and_its_parent_are_left_as_they_were(rt: HostRuntime) -> Result<(), Fail> {
    let alloc = rt.alloc();
    let bytes = two_leaves(alloc)?;
    let script = "
puts 10 36
try-split 36 = full 4 4 1
put 36 1 = full 4
put 36 1 = full 4
put 36 1 = full 4
put 36 1 = full 4
put 36 1 = full 4
put 36 1 = full 4
put 36 1 = full 4
put 36 1 = full 4
put 36 1 = full 4
put 36 1 = full 4
put 36 1 = full 4
put 36 1 = full 4
unlocked 0 1
unlocked 1 1
unlocked 2 27
evicted 3 0
";
    play(&rt, alloc, bytes.as_slice(), &[], 0, script)
}
