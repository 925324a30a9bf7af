//! A block in memory whose plan fails its first call and, by a number that stands twice, its third.

use std::process::Abort;
use std::test::Fail;
use vm_block::{Block, Failed, MemBlock, PageBlock};
use vm_page::{PageBuf, WORDS};

// A page whose word 5 is this, and the others 0.
fn page(word: u64) -> PageBuf<WORDS> {
    let mut page = PageBuf::zero();
    page.set(5, word);
    page
}

// What any kind of block counts, through its trait.
fn counts<B: Block>(block: &B) -> (u64, u64, u64) {
    (block.reads(), block.writes(), block.faults())
}

/// A read answers so. The words at the places 5 and 6 of the page that it read into, which had zeros before.
fn words_read(
    rt: &impl Abort,
    block: &mut MemBlock<WORDS>,
    answer: Result<(), Failed>,
) -> (u64, u64) {
    let mut into = PageBuf::zero();
    assert_eq!(rt; block.read(&mut into), answer);
    (into.get(5), into.get(6))
}

/// A write of a page with this word answers so, and the block has this word then.
fn expect_write(
    rt: &impl Abort,
    block: &mut MemBlock<WORDS>,
    word: u64,
    answer: Result<(), Failed>,
    kept: u64,
) {
    assert_eq!(rt; block.write(&page(word)), answer);
    assert_eq!(rt; block.words().get(5), kept);
}

#[test]
fn calls_fail_by_their_numbers(rt: HostRuntime) -> Result<(), Fail> {
    let mut block = MemBlock::new(rt.alloc(), page(7), &[0, 1, 3, 3])?;
    words_read(&rt, &mut block, Err(Failed));
    assert_eq!(rt; counts(&block), (0, 0, 1));
    assert_eq!(rt; words_read(&rt, &mut block, Ok(())), (7, 0));
    expect_write(&rt, &mut block, 8, Err(Failed), 7);
    assert_eq!(rt; counts(&block), (1, 0, 2));
    expect_write(&rt, &mut block, 9, Ok(()), 9);
    assert_eq!(rt; counts(&block), (1, 1, 2));
    Ok(())
}
