//! Devices that fail and pages at the last version, with ample memory: each fault names its page, leaves the map as it was, and holds nothing up that can go on.
use std::test::Fail;
use vm_event::MAX_VERSION;
use vm_image::PlannedFault;
use vm_tree_pages::steps::play;
use vm_tree_pages::tree_callers::{empty, two_leaves};

#[test]
fn a_failed_read_of_page_0_is_a_fault_once(rt: HostRuntime) -> Result<(), Fail> {
    let alloc = rt.alloc();
    let bytes = empty(alloc, 8)?;
    let plan = [PlannedFault { page: 0, number: 1 }];
    let script = "
put 5 7 = device 0 1
put 5 7 = was none
get 5 = got 7
";
    play(&rt, alloc, bytes.as_slice(), &plan, 0, script)
}

#[test]
fn a_failed_read_of_the_leaf_leaves_the_map(rt: HostRuntime) -> Result<(), Fail> {
    let alloc = rt.alloc();
    let bytes = empty(alloc, 8)?;
    let plan = [
        PlannedFault { page: 1, number: 1 },
        PlannedFault { page: 1, number: 2 },
    ];
    let script = "
put 5 7 = device 1 1
del 5 = device 1 2
get 5 = got none
";
    play(&rt, alloc, bytes.as_slice(), &plan, 0, script)
}

#[test]
fn a_failed_read_of_a_leaf_leaves_its_sibling(rt: HostRuntime) -> Result<(), Fail> {
    let alloc = rt.alloc();
    let bytes = two_leaves(alloc)?;
    let plan = [PlannedFault { page: 3, number: 1 }];
    let script = "
get 5 = got 50
try-get 150 = need 3
get 150 = device 3 1
window 6 28 = 1 below 100
get 150 = got 15
";
    play(&rt, alloc, bytes.as_slice(), &plan, 0, script)
}

/// The leaf comes to the last version as it is brought in: it is read, but not written. So a swap is answered where it writes nothing.
#[test]
fn a_worn_leaf_answers_the_swaps_that_write_nothing(rt: HostRuntime) -> Result<(), Fail> {
    let alloc = rt.alloc();
    let bytes = two_leaves(alloc)?;
    let script = "
get 5 = got 50
try-swap 5 51 52 = kept 50
try-swap 6 50 52 = missing
try-swap 5 50 50 = worn 2
swap 5 50 52 = worn 2
get 5 = got 50
";
    play(&rt, alloc, bytes.as_slice(), &[], MAX_VERSION - 1, script)
}

/// The leaf comes to the last version as it is brought in: it is read, but not written. A del of a key that is not there locks nothing.
#[test]
fn a_worn_leaf_is_read_and_not_written(rt: HostRuntime) -> Result<(), Fail> {
    let alloc = rt.alloc();
    let bytes = empty(alloc, 8)?;
    let script = "
get 5 = got none
try-put 5 7 = worn 1
put 5 7 = worn 1
try-del 5 = gone none
get 5 = got none
";
    play(&rt, alloc, bytes.as_slice(), &[], MAX_VERSION - 1, script)
}

/// No page can be brought in at the last version.
#[test]
fn a_page_0_that_is_worn_is_not_brought(rt: HostRuntime) -> Result<(), Fail> {
    let alloc = rt.alloc();
    let bytes = empty(alloc, 8)?;
    let script = "
get 5 = worn 0
";
    play(&rt, alloc, bytes.as_slice(), &[], MAX_VERSION, script)
}

/// The leaf is brought at one version and filled by 28 releases, the last of which is the last version: it can't be split.
#[test]
fn a_worn_root_is_not_split(rt: HostRuntime) -> Result<(), Fail> {
    let alloc = rt.alloc();
    let bytes = empty(alloc, 8)?;
    let script = "
puts 0 28
try-put 28 1 = tight 1
try-split 28 = worn 1
put 28 1 = worn 1
get 27 = got 1
";
    play(&rt, alloc, bytes.as_slice(), &[], MAX_VERSION - 29, script)
}
