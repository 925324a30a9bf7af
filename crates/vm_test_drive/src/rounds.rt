//! One, two and four workers, with frames for all pages and with few.
ghost use Rattle.std.specs.Prelude.{◌*◌, ◌≤◌};

use std::alloc::Global;
use std::process::Abort;
use std::sync::Wait;
use std::test::Fail;
use std::thread::Threads;
use vm_drive_callers::calls::{expect_lists, faults_in, shares};
use vm_drive_callers::drive::{DrivenInto, NoGate, drive};
use vm_drive_callers::trees::{empty, open};
use vm_event::Memory;
use vm_exmap::{Alloc, Interface};

/// So many workers put 300 keys each, of which no two are the same, in a tree of 128 pages: each put is answered, and each key is there. How
/// many pages were evicted is the answer.
fn round<R: Abort + Threads + Wait + Sync>(
    rt: &R,
    alloc: Global,
    workers: u64,
    frames: u32,
) -> Result<u64, Fail>
    requires workers { (1 ≤ workers) × (workers ≤ 64) }
    requires frames { (8 * workers ≤ frames) × (frames ≤ 65536) }
{
    let image = empty(alloc, 126)?;
    let (pool, mut pass) = open(alloc, &image, &[], 0, frames)?;
    let lists = shares(alloc, workers, 300)?;
    let driven = drive(rt, alloc, &pool, &mut pass, lists.as_slice(), &NoGate)?;
    let DrivenInto { kept, evicted } = driven;
    assert_eq!(rt; faults_in(kept.as_slice()), 0);
    expect_lists(rt, &pool, &mut pass, lists.as_slice(), kept.as_slice())?;
    Ok(evicted)
}

/// Where there is a frame for each page none is evicted.
#[test]
fn workers_with_a_frame_for_each_page(rt: HostRuntime) -> Result<(), Fail> {
    let alloc = rt.alloc();
    let alone = round(&rt, alloc, 1, 128)?;
    let two = round(&rt, alloc, 2, 128)?;
    let four = round(&rt, alloc, 4, 128)?;
    assert_eq!(rt; [alone, two, four], [0, 0, 0]);
    Ok(())
}

/// 300 pairs are on 11 leaves at least, more than eight frames, and so on: some pages are evicted.
#[test]
fn workers_with_few_frames(rt: HostRuntime) -> Result<(), Fail> {
    let alloc = rt.alloc();
    let alone = round(&rt, alloc, 1, 8)?;
    let two = round(&rt, alloc, 2, 16)?;
    let four = round(&rt, alloc, 4, 32)?;
    let some = alone > 0 && two > 0 && four > 0;
    assert!(rt; some);
    Ok(())
}

/// Where there is no memory for the workers none begins, and they can be driven with the same pass again. This shows where one of the
/// allocations fails.
#[test]
fn workers_are_driven_again_after_want_of_memory(rt: HostRuntime) -> Result<(), Fail> {
    let alloc = rt.alloc();
    let image = empty(alloc, 6)?;
    let (pool, mut pass) = open(alloc, &image, &[], 0, 64)?;
    let lists = shares(alloc, 2, 10)?;
    let driven = match drive(&rt, alloc, &pool, &mut pass, lists.as_slice(), &NoGate) {
        Ok(driven) => driven,
        Err(Memory) => drive(&rt, alloc, &pool, &mut pass, lists.as_slice(), &NoGate)?,
    };
    let DrivenInto { kept, evicted } = driven;
    assert_eq!(rt; evicted, 0);
    assert_eq!(rt; faults_in(kept.as_slice()), 0);
    expect_lists(&rt, &pool, &mut pass, lists.as_slice(), kept.as_slice())?;
    Ok(())
}

/// A worker gives its frames back: a put over the empty tree brings two pages in, and of 64 frames the other 62 are free afterwards. Of one
/// that kept the 16 frames that it takes at a time, 14 would be missing.
#[test]
fn a_worker_keeps_no_frame(rt: HostRuntime) -> Result<(), Fail> {
    let alloc = rt.alloc();
    let image = empty(alloc, 0)?;
    let (pool, mut pass) = open(alloc, &image, &[], 0, 64)?;
    let lists = shares(alloc, 1, 1)?;
    let driven = drive(&rt, alloc, &pool, &mut pass, lists.as_slice(), &NoGate)?;
    assert_eq!(rt; faults_in(driven.kept.as_slice()), 0);
    let mut iface = Interface::new(0, 64);
    let Alloc::Batch(free) = iface.alloc(&pool.words, &mut pass, 64) else {
        panic!(rt; "frames are free");
    };
    let count = free.len();
    assert_eq!(rt; count, 62);
    Ok(())
}
