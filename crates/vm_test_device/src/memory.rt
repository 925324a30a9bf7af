//! Devices in memory: blocks taken out and brought back, calls that are refused, and faults that are counted.

use std::alloc::{AllocError, Global};
use std::process::Abort;
use std::test::Fail;
use vm_block::{Block, PageBlock};
use vm_device::{BlockFault, Devices, Failed, MemDevices, PagesFile, SyncBlock};
use vm_page::{PageBuf, WORDS};

// A page whose word 5 is this, and the others 0.
fn page(word: u64) -> PageBuf<WORDS> {
    let mut page = PageBuf::zero();
    page.set(5, word);
    page
}

// Devices with one file, `a`, of two pages and six bytes more.
fn with_file(
    alloc: Global,
    plan: &[u64],
    calls: &[BlockFault],
    syncs: &[BlockFault],
) -> Result<MemDevices<WORDS>, AllocError> {
    let mut pages = Vec::new(alloc);
    pages.push(page(7))?;
    pages.push(page(8))?;
    let mut files = Vec::new(alloc);
    files.push(PagesFile::new(String::from_str(alloc, "a")?, 1030, pages))?;
    MemDevices::new(alloc, files, plan, calls, syncs)
}

/// Word 5 of the block, which is 9 from then on.
fn rewritten<B: SyncBlock<WORDS>>(rt: &impl Abort, block: &mut B) -> u64 {
    let mut into = PageBuf::zero();
    assert_eq!(rt; block.read(&mut into), Ok(()));
    assert_eq!(rt; block.write(&page(9)), Ok(()));
    assert_eq!(rt; block.sync(), Ok(()));
    into.get(5)
}

/// The block's sync and its first write fail, and its second write does not: it leaves the word 10.
fn fail_twice<B: SyncBlock<WORDS>>(rt: &impl Abort, block: &mut B) {
    assert_eq!(rt; block.sync(), Err(Failed));
    assert_eq!(rt; block.write(&page(9)), Err(Failed));
    assert_eq!(rt; block.write(&page(10)), Ok(()));
    assert_eq!(rt; (block.reads(), block.writes(), block.faults()), (0, 1, 2));
}

/// Word 5 of page `p` of the file, which is taken out.
fn expect_word(
    rt: &impl Abort,
    devices: &mut MemDevices<WORDS>,
    p: u32,
    word: u64,
) -> Result<(), Fail> {
    assert_eq!(rt; devices.get("a", p)?.words().get(5), word);
    Ok(())
}

#[test]
fn a_block_is_taken_out_written_and_brought_back(rt: HostRuntime) -> Result<(), Fail> {
    let mut devices = with_file(rt.alloc(), &[], &[], &[])?;
    assert_eq!(rt; devices.length("a"), Ok(1030));
    let mut block = devices.get("a", 1)?;
    let word = rewritten(&rt, &mut block);
    assert_eq!(rt; word, 8);
    assert!(rt; devices.get("a", 1).is_err());
    assert_eq!(rt; devices.faults(), 1);
    devices.back("a", 1, block);
    expect_word(&rt, &mut devices, 1, 9)?;
    expect_word(&rt, &mut devices, 0, 7)?;
    assert_eq!(rt; devices.faults(), 1);
    Ok(())
}

#[test]
fn what_is_lacking_or_planned_fails(rt: HostRuntime) -> Result<(), Fail> {
    let mut devices = with_file(rt.alloc(), &[4], &[], &[])?;
    assert!(rt; devices.get("a", 2).is_err());
    assert!(rt; devices.get("b", 0).is_err());
    assert_eq!(rt; devices.length("b"), Err(Failed));
    assert_eq!(rt; devices.length("a"), Err(Failed));
    assert_eq!(rt; devices.length("a"), Ok(1030));
    assert_eq!(rt; devices.faults(), 4);
    Ok(())
}

#[test]
fn a_block_that_failed_is_counted_as_it_comes_home(rt: HostRuntime) -> Result<(), Fail> {
    let first = BlockFault { page: 0, number: 1 };
    let mut devices = with_file(rt.alloc(), &[], &[first], &[first])?;
    let mut block = devices.get("a", 0)?;
    fail_twice(&rt, &mut block);
    assert_eq!(rt; devices.faults(), 0);
    devices.back("a", 0, block);
    assert_eq!(rt; devices.faults(), 1);
    let other = devices.get("a", 1)?;
    devices.back("a", 1, other);
    assert_eq!(rt; devices.faults(), 1);
    expect_word(&rt, &mut devices, 0, 10)
}
