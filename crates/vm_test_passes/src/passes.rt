//! Passes of one thread over a pool of two pages, with ample memory. The values are worked out by hand from the rules, and not taken from a run.
ghost use Rattle.std.specs.Prelude.{◌<◌, ◌≡◌, ◌≤◌, IfOk, length};
ghost use Rattle.vm_page.specs.Sizes.{IsSize};
ghost use Rattle.vm_step.specs.Prelude.{IsReadyOn, view};

use std::alloc::Global;
use std::process::Abort;
use std::test::Fail;
use vm_block::{Block, MemBlock};
use vm_owner::Bare;
use vm_page::{LARGE, PageBuf, WORDS};
use vm_pool::{Bring, Closed, Pool, Shape};
use vm_rule::words::Pass;
use vm_workers::entries::{ThreeEntries, three_entries};
use vm_workers::pool_callers::{
    Opened, TwoPages, meet_and_join, open_page, open_two, split_and_join,
};

/// Blocks of two pages of zeros, which answer every call.
fn two_blocks(alloc: Global) -> Result<Vec<MemBlock<WORDS>>, Fail>
    ensures { IfOk result (λ blocks. length blocks.items ≡ 2) }
{
    let mut blocks = Vec::new(alloc);
    blocks.push(MemBlock::new(alloc, PageBuf::zero(), &[])?)?;
    blocks.push(MemBlock::new(alloc, PageBuf::zero(), &[])?)?;
    Ok(blocks)
}

/// Two pages, both claimed, at version 0, and one frame.
fn two_pages() -> Shape
    ensures { (result.pages ≡ 2) × (result.frames ≡ 1) × (result.next ≡ 2) × (result.first_version ≡ 0) }
{
    Shape {
        pages: 2,
        frames: 1,
        next: 2,
        first_version: 0,
    }
}

#[test]
fn a_pool_whose_pass_was_split_and_joined_is_closed(rt: HostRuntime) -> Result<(), Fail> {
    let blocks = two_blocks(rt.alloc())?;
    let end = split_and_join::<Bare, MemBlock<WORDS>, WORDS>(rt.alloc(), two_pages(), blocks, 3)?;
    let Closed {
        blocks,
        next,
        ended,
    } = end;
    assert_eq!(rt; blocks.len(), 2);
    assert_eq!(rt; next, 2);
    let sums = [ended.reads(), ended.writes(), ended.faults()];
    assert_eq!(rt; sums, [0, 0, 0]);
    Ok(())
}

/// A pool of these blocks, and its first pass.
fn pool_of_two(alloc: Global) -> Result<(Pool<Bare, MemBlock<WORDS>, WORDS>, Pass<Bare>), Fail>
    ensures ready { IfOk result (λ made. IsReadyOn made.0.words ⟦<MemBlock<WORDS> as Block>⟧.tells made.1) }
    ensures parts { IfOk result (λ made. 2 ≤ length (view made.1).fresh) }
{
    let blocks = two_blocks(alloc)?;
    Ok(Pool::start(alloc, two_pages(), blocks, &[], &[])?)
}

#[test]
fn passes_that_met_are_joined(rt: HostRuntime) -> Result<(), Fail> {
    let (pool, mut pass) = pool_of_two(rt.alloc())?;
    meet_and_join(&pool, &mut pass);
    assert_eq!(rt; pool.words.pages, 2);
    Ok(())
}

#[test]
fn the_first_page_of_a_pool_is_brought(rt: HostRuntime) -> Result<(), Fail> {
    let blocks = two_blocks(rt.alloc())?;
    let opened = open_page::<Bare, MemBlock<WORDS>, WORDS>(rt.alloc(), two_pages(), blocks, 1)?;
    let Opened {
        pool: _,
        pass: _,
        iface: _,
        answer,
    } = opened;
    assert_eq!(rt; answer, Bring::Brought);
    Ok(())
}

/// Two pages of `N` words are brought, and word `i` of the first is read.
fn two_brought<R: Abort, const N: usize>(rt: &R, alloc: Global, i: usize) -> Result<(), Fail>
    requires sized { IsSize N }
    requires place { i < N }
{
    let mut page = PageBuf::<N>::zero();
    page.set(i, 5);
    let mut blocks = Vec::new(alloc);
    blocks.push(MemBlock::new(alloc, page, &[])?)?;
    blocks.push(MemBlock::new(alloc, PageBuf::zero(), &[])?)?;
    let shape = Shape {
        pages: 2,
        frames: 2,
        next: 2,
        first_version: 0,
    };
    let opened = open_two::<Bare, MemBlock<N>, N>(alloc, shape, blocks, 0, 1, i)?;
    let TwoPages {
        pool: _,
        pass: _,
        iface: _,
        first,
        second,
        word,
    } = opened;
    assert_eq!(rt; first, Bring::Brought);
    assert_eq!(rt; second, Bring::Brought);
    assert_eq!(rt; word, Some(5));
    Ok(())
}

#[test]
fn two_pages_of_a_pool_are_brought_and_one_is_read(rt: HostRuntime) -> Result<(), Fail> {
    two_brought::<HostRuntime, WORDS>(&rt, rt.alloc(), 63)
}

#[test]
fn two_large_pages_of_a_pool_are_brought_and_one_is_read(rt: HostRuntime) -> Result<(), Fail> {
    two_brought::<HostRuntime, LARGE>(&rt, rt.alloc(), 511)
}

#[test]
fn a_pass_makes_three_entries(rt: HostRuntime) -> Result<(), Fail> {
    let blocks = two_blocks(rt.alloc())?;
    let Ok(told) = three_entries(rt.alloc(), two_pages(), blocks, 1) else {
        panic!(rt; "the page is brought and read");
    };
    let ThreeEntries { pool: _, pass: _ } = told;
    Ok(())
}
