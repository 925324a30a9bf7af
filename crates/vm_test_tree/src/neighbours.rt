//! Dels that leave one of three leaves few pairs, with ample memory: which neighbour it becomes one with. The pages are worked out by hand from the formats.
use std::alloc::Global;
use std::test::Fail;
use vm_page::WORDS;
use vm_tree_pages::pages::three_leaves;
use vm_tree_pages::steps::play;
use vm_tree_pages::tree_callers::{MAGIC, put_page};

/// Seven pages of a tree of height 2: the root on page 1, below it page 2 (below key 500) over the leaves on pages 4 and 5, and page 3 over the leaf on page 6.
fn three_levels(alloc: Global) -> Result<Vec<u8>, Fail> {
    let mut bytes = Vec::new(alloc);
    put_page(&mut bytes, WORDS, &[MAGIC, 1, 2])?;
    put_page(&mut bytes, WORDS, &[3, 2, 0, 0, 1, 2, 0, 0, 0, 2, 500, 3])?;
    put_page(&mut bytes, WORDS, &[3, 2, 0, 500, 0, 1, 0, 0, 0, 4, 100, 5])?;
    put_page(&mut bytes, WORDS, &[3, 1, 500, 0, 1, 1, 0, 0, 500, 6])?;
    put_page(&mut bytes, WORDS, &[2, 1, 0, 100, 0, 0, 0, 0, 5, 50])?;
    put_page(&mut bytes, WORDS, &[2, 1, 100, 500, 0, 0, 0, 0, 150, 15])?;
    put_page(&mut bytes, WORDS, &[2, 1, 500, 0, 1, 0, 0, 0, 550, 55])?;
    Ok(bytes)
}

/// The leaf on page 3 gets the pair and the end of the one on page 4. The root keeps two children, and page 0 names it still.
#[test]
fn the_middle_leaf_of_three_takes_the_next_one(rt: HostRuntime) -> Result<(), Fail> {
    let alloc = rt.alloc();
    let bytes = three_leaves(alloc)?;
    let script = "
del 150 = gone 15
page 0 small 1 1
page 1 3 2 0 0 1 1 0 0 0 2 100 3
page 3 2 1 100 0 1 0 0 0 250 25
page 4
unlocked 0 1
free = 16
gets 5 6 50
lacks 150 151
gets 250 251 25
";
    play(&rt, alloc, bytes.as_slice(), &[], 0, script)
}

/// The leaf on page 3 gets the end of the one on page 4, whose pair is taken out. Then these two are the first and the last, and page 3 goes into page 2.
#[test]
fn the_last_leaf_of_three_goes_into_the_one_before(rt: HostRuntime) -> Result<(), Fail> {
    let alloc = rt.alloc();
    let bytes = three_leaves(alloc)?;
    let script = "
del 250 = gone 25
page 0 small 1 1
page 1 3 2 0 0 1 1 0 0 0 2 100 3
page 3 2 1 100 0 1 0 0 0 150 15
page 4
free = 16
del 150 = gone 15
page 0 small 2 0
page 1
page 2 2 1 0 0 1 0 0 0 5 50
page 3
free = 26
gets 5 6 50
lacks 6 260
";
    play(&rt, alloc, bytes.as_slice(), &[], 0, script)
}

/// The leaves on pages 4 and 5 become one below page 2, which is not the root, and stays with one child. Then that leaf has no neighbour, and stays without
/// a pair, as does the one on page 6.
#[test]
fn leaves_below_an_inner_node_become_one(rt: HostRuntime) -> Result<(), Fail> {
    let alloc = rt.alloc();
    let bytes = three_levels(alloc)?;
    let script = "
del 5 = gone 50
page 2 3 1 0 500 0 1 0 0 0 4
page 4 2 1 0 500 0 0 0 0 150 15
page 5
del 150 = gone 15
del 550 = gone 55
page 0 small 1 2
page 1 3 2 0 0 1 2 0 0 0 2 500 3
page 2 3 1 0 500 0 1 0 0 0 4
page 4 2 0 0 500
page 6 2 0 500 0 1
free = 32
lacks 0 560
";
    play(&rt, alloc, bytes.as_slice(), &[], 0, script)
}
