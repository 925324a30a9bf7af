//! Pages that merges freed are used again, with ample memory, also while another pass reads one, and on pages of 512 words. The pages are worked out by hand
//! from the formats, and from the conditions of a merge: of pages of 64 words a leaf that keeps 7 pairs at most is merged where it and its neighbour have 20
//! together at most, and of 512 words one that keeps 63 where they have 180.
use std::test::Fail;
use vm_event::StateWord;
use vm_exmap::Interface;
use vm_guard::OptGuard;
use vm_page::LARGE;
use vm_step::{At, Saw};
use vm_tree_pages::pages::three_leaves;
use vm_tree_pages::steps::{follow, play, play_large};
use vm_tree_pages::tree_callers::{LARGE_MAGIC, empty, empty_sized, open};

/// An empty tree gets the keys below 29, and loses them again. The 29th put splits the leaf: the right half stands on page 2, the lower one of two pages, and
/// the new root on page 3. The halves have 14 and 15 pairs, so the del of key 8, which leaves 5, makes them one: pages 2 and 3 are free.
const FILL_AND_EMPTY: &str = "
puts 0 29
page 0 small 3 1
page 3 3 2 0 0 1 1 0 0 0 1 14 2
gets 0 29 1
dels 0 8
page 0 small 3 1
free = 0
dels 8 9
page 0 small 1 0
page 2
page 3
free = 12
gets 9 29 1
dels 9 29
page 1 2 0 0 0 1
";

/// Each time page 2 is released by the split, the put of key 28 and the merge, and page 3 by the split and the merge.
#[test]
fn an_image_of_four_pages_is_filled_and_emptied_again(rt: HostRuntime) -> Result<(), Fail> {
    let alloc = rt.alloc();
    let bytes = empty(alloc, 4)?;
    let turn = FILL_AND_EMPTY;
    let script = format!(in alloc; "{turn}{turn}{turn}{turn}unlocked 2 12\nunlocked 3 8\n")?;
    play(&rt, alloc, bytes.as_slice(), &[], 0, script.as_str())
}

/// Page 4, the next one, stays unclaimed until a split finds no free number: the right half, on page 2, has 28 pairs with key 41.
#[test]
fn a_split_takes_freed_pages_before_the_next_one(rt: HostRuntime) -> Result<(), Fail> {
    let alloc = rt.alloc();
    let bytes = empty(alloc, 8)?;
    let turn = FILL_AND_EMPTY;
    let script = format!(in alloc;
        "{turn}{turn}
puts 0 42
free = 0
evicted 4 0
puts 42 43
unlocked 4 2
evicted 5 0
gets 0 43 1
"
    )?;
    play(&rt, alloc, bytes.as_slice(), &[], 0, script.as_str())
}

/// A read of the leaf on page 4 is open while another pass merges that leaf away, and then puts keys until page 4 is the right half of the leaf on page 3. It
/// was brought in at version 1, and released by the merge, the split, and the put of key 327.
#[test]
fn an_open_read_outlives_a_merge_and_a_reuse(rt: HostRuntime) -> Result<(), Fail> {
    let bytes = three_leaves(rt.alloc())?;
    let (pool, mut pass) = open(rt.alloc(), bytes.as_slice())?;
    let mut reader = pool.split_one(&mut pass);
    let mut iface = Interface::new(0, 16);
    follow(
        &rt,
        rt.alloc(),
        &pool,
        &mut pass,
        &mut iface,
        "get 250 = got 25",
    )?;
    if pool.words.pages < 5 {
        return Err(Fail::from("five pages"));
    }
    let Ok(guard) = OptGuard::start(&pool.words, &mut reader, 4) else {
        return Err(Fail::from("no read"));
    };
    let before = guard.word(&pool.words, &mut reader, 8);
    assert_eq!(rt; before, 250);
    let script = "
del 250 = gone 25
page 4
puts 300 328
page 1 3 3 0 0 1 1 0 0 0 2 100 3 313 4
";
    follow(&rt, rt.alloc(), &pool, &mut pass, &mut iface, script)?;
    let after = guard.word(&pool.words, &mut reader, 8);
    assert_eq!(rt; after, 313);
    let answer = guard.validate_silently(&pool.words, &mut reader);
    let at = At::Page(4);
    let seen = StateWord::of(StateWord::UNLOCKED, 4);
    assert_eq!(rt; answer, Err(Saw { at, first: 1, seen }));
    Ok(())
}

/// 253 keys part into leaves of 126 and 127 pairs: the del that leaves 53 of the first makes 180 of both. With its keys again they part into 127 and 126:
/// the first loses 20 of them, and then the second is merged into it by the del that leaves 63, both having 170.
#[test]
fn leaves_of_512_words_become_one(rt: HostRuntime) -> Result<(), Fail> {
    let alloc = rt.alloc();
    let bytes = empty_sized(alloc, LARGE, LARGE_MAGIC, 4)?;
    let script = "
puts 0 253
dels 0 72
page 0 large 3 1
dels 72 73
page 0 large 1 0
page 2
page 3
free = 12
gets 73 253 1
puts 0 73
dels 0 20
dels 127 189
page 0 large 3 1
dels 189 190
page 0 large 1 0
gets 20 127 1
lacks 127 190
gets 190 253 1
";
    play_large(&rt, alloc, bytes.as_slice(), script)
}
