//! Callers that stand on the contracts of pools and guards alone, run over two pages and one frame, with ample memory. The values are worked out by
//! hand from the rules, and not taken from a run.
ghost use Rattle.std.specs.Prelude.{◌≡◌, false, IfOk, length, map};
ghost use Rattle.vm_page.specs.Pages.{all_zero, page_at};
ghost use Rattle.vm_rule.specs.Prelude.{block_words, stored_of};

use std::alloc::Global;
use std::process::Abort;
use std::test::Fail;
use vm_block::MemBlock;
use vm_owner::Bare;
use vm_page::{PageBuf, WORDS};
use vm_pool::{Bring, Shape};
use vm_pool_callers::kept_word::{ReadBack, keep_word};
use vm_pool_callers::shared_page::{SharedPage, open_shared};

/// Two pages at version 0, both claimed, and one frame.
const SHAPE: Shape = Shape {
    pages: 2,
    frames: 1,
    next: 2,
    first_version: 0,
};

/// The blocks of two pages: one of zeros, which answers every call, and one whose last word is 5, which fails the calls of this plan.
fn two_blocks(alloc: Global, plan: &[u64]) -> Result<Vec<MemBlock<WORDS>>, Fail>
    ensures count { IfOk result (λ blocks. length blocks.items ≡ 2) }
    ensures used { IfOk result (λ blocks. all_zero (page_at (block_words (map stored_of blocks.items)) 1) ≡ false) }
{
    let mut second = PageBuf::zero();
    second.set(63, 5);
    let mut blocks = Vec::new(alloc);
    blocks.push(MemBlock::new(alloc, PageBuf::zero(), &[])?)?;
    blocks.push(MemBlock::new(alloc, second, plan)?)?;
    Ok(blocks)
}

/// The word that is read again, and how many pages were evicted. A page that is written, evicted and brought again calls its block three times: a
/// read, a write, a read.
fn kept(alloc: Global, plan: &[u64]) -> Result<(Option<u64>, u64), Fail> {
    let blocks = two_blocks(alloc, plan)?;
    let ReadBack {
        pool: _,
        pass: _,
        iface,
        word,
    } = keep_word(alloc, SHAPE, blocks, 1, 63, 7)?;
    Ok((word, iface.swept()))
}

/// What `bring` answers, and the word that is read under a share of the page.
fn shared(alloc: Global, plan: &[u64]) -> Result<(Bring, Option<u64>), Fail> {
    let blocks = two_blocks(alloc, plan)?;
    let SharedPage {
        pool: _,
        pass: _,
        iface: _,
        answer,
        word,
    } = open_shared::<Bare, MemBlock<WORDS>, WORDS>(alloc, SHAPE, blocks, 1, 63)?;
    Ok((answer, word))
}

/// The word that is read again, and how many pages were evicted, are these.
fn expect_kept(
    rt: &impl Abort,
    alloc: Global,
    plan: &[u64],
    wanted: (Option<u64>, u64),
) -> Result<(), Fail> {
    let found = kept(alloc, plan)?;
    assert_eq!(rt; found, wanted);
    Ok(())
}

/// What `bring` answers, and the word that is read under a share, are these.
fn expect_shared(
    rt: &impl Abort,
    alloc: Global,
    plan: &[u64],
    wanted: (Bring, Option<u64>),
) -> Result<(), Fail> {
    let found = shared(alloc, plan)?;
    assert_eq!(rt; found, wanted);
    Ok(())
}

#[test]
fn a_word_is_read_again_for_sure(rt: HostRuntime) -> Result<(), Fail> {
    expect_kept(&rt, rt.alloc(), &[], (Some(7), 1))
}

#[test]
fn a_page_that_could_not_be_read_keeps_no_word(rt: HostRuntime) -> Result<(), Fail> {
    expect_kept(&rt, rt.alloc(), &[1], (None, 0))
}

// The sweep's write fails, and the page stays. The call that is to bring it again finds no frame: its own sweep evicts the page, and it is brought.
#[test]
fn a_page_that_could_not_be_written_is_written_later(rt: HostRuntime) -> Result<(), Fail> {
    expect_kept(&rt, rt.alloc(), &[2], (Some(7), 1))
}

#[test]
fn a_page_that_could_not_be_read_again_is_not_to_be_had(rt: HostRuntime) -> Result<(), Fail> {
    expect_kept(&rt, rt.alloc(), &[3], (None, 1))
}

#[test]
fn a_page_that_was_brought_is_shared(rt: HostRuntime) -> Result<(), Fail> {
    let answer = Bring::Brought;
    expect_shared(&rt, rt.alloc(), &[], (answer, Some(5)))
}

#[test]
fn a_page_whose_device_failed_is_not_shared(rt: HostRuntime) -> Result<(), Fail> {
    let answer = Bring::Device { pid: 1, count: 1 };
    expect_shared(&rt, rt.alloc(), &[1], (answer, None))
}
