//! Workers over devices that fail, and an image that is full.
use std::alloc::Global;
use std::process::Abort;
use std::sync::Wait;
use std::test::Fail;
use std::thread::Threads;
use vm_drive_callers::calls::{expect_fault, expect_lists, faults_in, shares};
use vm_drive_callers::drive::{NoGate, drive};
use vm_drive_callers::trees::{empty, open};
use vm_image::PlannedFault;
use vm_tree_rule::TreeFault;

/// One call of a page's block fails, while two workers put 150 keys each with so few frames that pages are evicted and brought again: at most
/// one put is answered so, and its key is not there.
fn one_failure<R: Abort + Threads + Wait + Sync>(
    rt: &R,
    alloc: Global,
    page: u32,
    number: u64,
) -> Result<(), Fail> {
    let image = empty(alloc, 62)?;
    let plan = [PlannedFault {
        page: u64::from(page),
        number,
    }];
    let (pool, mut pass) = open(alloc, &image, &plan, 0, 16)?;
    let lists = shares(alloc, 2, 150)?;
    let driven = drive(rt, alloc, &pool, &mut pass, lists.as_slice(), &NoGate)?;
    let replies = driven.kept.as_slice();
    let few = faults_in(replies) <= 1;
    assert!(rt; few);
    expect_fault(
        replies,
        TreeFault::Device {
            pid: page,
            count: 1,
        },
    )?;
    expect_lists(rt, &pool, &mut pass, lists.as_slice(), replies)?;
    Ok(())
}

#[test]
fn each_call_of_a_device_may_fail(rt: HostRuntime) -> Result<(), Fail> {
    for page in 0..6 {
        for number in 1..6 {
            one_failure(&rt, rt.alloc(), page, number)?;
        }
    }
    Ok(())
}

/// The first read of page 0 fails: it is the first call of either worker that is answered so, and all others are made.
#[test]
fn a_failed_first_read_is_one_fault(rt: HostRuntime) -> Result<(), Fail> {
    let alloc = rt.alloc();
    let image = empty(alloc, 6)?;
    let plan = [PlannedFault { page: 0, number: 1 }];
    let (pool, mut pass) = open(alloc, &image, &plan, 0, 64)?;
    let lists = shares(alloc, 2, 10)?;
    let driven = drive(&rt, alloc, &pool, &mut pass, lists.as_slice(), &NoGate)?;
    let replies = driven.kept.as_slice();
    assert_eq!(rt; faults_in(replies), 1);
    expect_fault(replies, TreeFault::Device { pid: 0, count: 1 })?;
    expect_lists(&rt, &pool, &mut pass, lists.as_slice(), replies)?;
    Ok(())
}

/// Two pages have room for 28 pairs and for no split: of 40 puts 28 are made.
#[test]
fn a_full_image_takes_28_pairs(rt: HostRuntime) -> Result<(), Fail> {
    let alloc = rt.alloc();
    let image = empty(alloc, 0)?;
    let (pool, mut pass) = open(alloc, &image, &[], 0, 64)?;
    let lists = shares(alloc, 2, 20)?;
    let driven = drive(&rt, alloc, &pool, &mut pass, lists.as_slice(), &NoGate)?;
    let replies = driven.kept.as_slice();
    assert_eq!(rt; faults_in(replies), 12);
    expect_fault(replies, TreeFault::Full { pages: 2 })?;
    expect_lists(&rt, &pool, &mut pass, lists.as_slice(), replies)?;
    Ok(())
}
