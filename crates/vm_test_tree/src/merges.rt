//! Dels that leave a leaf few pairs, with ample memory: in a tree of two leaves they become one. The pages are worked out by hand from the formats, and from
//! the conditions of a merge: a leaf that keeps 7 pairs at most is merged where it and its neighbour have 20 together at most.
use std::alloc::Global;
use std::sync::Wait;
use std::test::Fail;
use vm_event::MAX_VERSION;
use vm_tree_pages::steps::play;
use vm_tree_pages::tree_callers::two_leaves;

/// The left leaf has 9 pairs, and the right one has 1. The del that leaves 8 is made in the leaf alone, the one that leaves 7 as one with the merge. Each page
/// was brought in once, and is at its next version behind each release. Then pages 1 and 3 are free.
#[test]
fn two_leaves_become_one(rt: HostRuntime) -> Result<(), Fail> {
    let alloc = rt.alloc();
    let bytes = two_leaves(alloc)?;
    let script = "
puts 10 17
del 5 = gone 50
page 0 small 1 1
try-del 7 = need 3
del 7 = gone 70
page 0 small 2 0
page 1
page 2 2 8 0 0 1 0 0 0 10 1 11 1 12 1 13 1 14 1 15 1 16 1 150 15
page 3
versions 2 2 10 2
free = 10
lacks 0 10
gets 10 17 1
gets 150 151 15
";
    play(&rt, alloc, bytes.as_slice(), &[], 0, script)
}

/// The left leaf has 8 pairs, and the right one has 14: the del that leaves 21 of both is made in the leaf alone, the one that leaves 20 as one with the merge.
#[test]
fn two_leaves_with_more_than_twenty_pairs_stay(rt: HostRuntime) -> Result<(), Fail> {
    let alloc = rt.alloc();
    let bytes = two_leaves(alloc)?;
    let script = "
puts 10 16
puts 151 164
del 5 = gone 50
page 0 small 1 1
versions 1 1 8 14
free = 0
del 7 = gone 70
page 0 small 2 0
versions 2 2 9 15
free = 10
gets 10 16 1
gets 150 151 15
gets 151 164 1
";
    play(&rt, alloc, bytes.as_slice(), &[], 0, script)
}

/// All pages of a tree of two leaves are at the last version but one, and this page, which is not the left leaf, gets the last: a del that leaves few pairs is
/// made in the left leaf alone. The pages are at these versions then.
fn del_beside_worn<R: Wait>(
    rt: &R,
    alloc: Global,
    worn: u32,
    versions: [u64; 4],
) -> Result<(), Fail> {
    let bytes = two_leaves(alloc)?;
    let [page_0, root, left, right] = versions;
    let script = format!(in alloc;
        "
gets 7 8 70
gets 150 151 15
touch {worn}
del 5 = gone 50
versions {page_0} {root} {left} {right}
page 0 small 1 1
page 2 2 1 0 100 0 0 0 0 7 70
free = 0
lacks 0 7
gets 7 8 70
gets 150 151 15
"
    )?;
    play(
        rt,
        alloc,
        bytes.as_slice(),
        &[],
        MAX_VERSION - 2,
        script.as_str(),
    )
}

/// Page 0, the root or the right leaf is at the last version. Where none is, the two leaves become one, which brings each page to it.
#[test]
fn a_worn_page_beside_the_leaf_is_not_merged(rt: HostRuntime) -> Result<(), Fail> {
    let alloc = rt.alloc();
    let last = MAX_VERSION;
    let below = MAX_VERSION - 1;
    del_beside_worn(&rt, alloc, 0, [last, below, last, below])?;
    del_beside_worn(&rt, alloc, 1, [below, last, last, below])?;
    del_beside_worn(&rt, alloc, 3, [below, below, last, last])?;
    let bytes = two_leaves(alloc)?;
    let script = format!(in alloc;
        "
del 5 = gone 50
page 0 small 2 0
versions {last} {last} {last} {last}
"
    )?;
    play(
        &rt,
        alloc,
        bytes.as_slice(),
        &[],
        MAX_VERSION - 2,
        script.as_str(),
    )
}
