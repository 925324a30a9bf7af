//! Four workers in threads over a pool of eight pages and six frames, with ample memory. What stands in the end is the same whatever the schedule.
ghost use Rattle.std.specs.Prelude.{◌<◌, ◌≡◌, ◌≤◌, IfOk, length};
ghost use Rattle.vm_page.specs.Sizes.{IsSize};
ghost use Rattle.vm_rule.specs.Prelude.{HoldsNoPage};
ghost use Rattle.vm_step.specs.Prelude.{IsAlone, IsReadyOn, view};
ghost use Rattle.vm_workers.specs.Puts.{HasPages};

use std::alloc::Global;
use std::process::Abort;
use std::test::Fail;
use std::thread::Threads;
use vm_block::{Block, MemBlock, PageBlock};
use vm_owner::Bare;
use vm_page::{LARGE, PageBuf, WORDS};
use vm_pool::save::{Saved, flush_and_close};
use vm_pool::{Closed, Pool, Shape};
use vm_rule::words::Pass;
use vm_workers::puts::put_and_join;

/// A page that is in use: its last word is 1, and the others are 0.
fn used_page<const N: usize>() -> PageBuf<N>
    requires sized { IsSize N }
{
    let mut page = PageBuf::zero();
    page.set(N - 1, 1);
    page
}

/// Blocks of so many pages that are in use, which answer every call.
fn used_blocks<const N: usize>(alloc: Global, n: u32) -> Result<Vec<MemBlock<N>>, Fail>
    requires sized { IsSize N }
    ensures { IfOk result (λ blocks. length blocks.items ≡ n) }
{
    if n == 0 {
        return Ok(Vec::new(alloc));
    }
    let mut blocks = used_blocks(alloc, n - 1)?;
    blocks.push(MemBlock::new(alloc, used_page(), &[])?)?;
    Ok(blocks)
}

/// A pool of eight pages, all in use, and six frames, and its first pass.
fn eight_pages<const N: usize>(
    alloc: Global,
) -> Result<(Pool<Bare, MemBlock<N>, N>, Pass<Bare>), Fail>
    requires sized { IsSize N }
    ensures ready { IfOk result (λ made. IsReadyOn made.0.words ⟦<MemBlock<N> as Block>⟧.tells made.1) }
    ensures alone { IfOk result (λ made. IsAlone (view made.1)) }
    ensures holds { IfOk result (λ made. HoldsNoPage (view made.1)) }
    ensures pages { IfOk result (λ made. HasPages made.0.words.table.shared.key) }
    ensures parts { IfOk result (λ made. 4 ≤ length (view made.1).fresh) }
{
    let blocks = used_blocks(alloc, 8)?;
    let shape = Shape {
        pages: 8,
        frames: 6,
        next: 8,
        first_version: 0,
    };
    Ok(Pool::start(alloc, shape, blocks, &[], &[])?)
}

/// Word 2 of page 5 is 205, and so on, and word `last` of each page is 1.
fn expect_all_set<const N: usize>(rt: &impl Abort, blocks: Vec<MemBlock<N>>, last: usize)
    requires sized { IsSize N }
    requires last { last < N }
{
    let mut p: u64 = 0;
    for mut block in blocks {
        assert!(rt; p < 8);
        let mut read = PageBuf::zero();
        let answered = block.read(&mut read).is_ok();
        assert!(rt; answered);
        let words = [
            read.get(0),
            read.get(1),
            read.get(2),
            read.get(3),
            read.get(last),
        ];
        let due = [p, 100 + p, 200 + p, 300 + p, 1];
        assert_eq!(rt; words, due);
        p += 1;
    }
    assert_eq!(rt; p, 8);
}

/// Worker number 2 sets word 2 of page 5 to 205, and so on. The last word of each page, `last`, stays 1.
fn all_set<R: Abort + Threads + Sync, const N: usize>(
    rt: &R,
    alloc: Global,
    last: usize,
) -> Result<(), Fail>
    requires sized { IsSize N }
    requires last { last < N }
{
    let (pool, mut pass) = eight_pages::<N>(alloc)?;
    put_and_join(rt, alloc, &pool, &mut pass, 4)?;
    let Ok(saved) = flush_and_close(pool, alloc, pass) else {
        panic!(rt; "there is memory");
    };
    let Saved { report, closed } = saved;
    assert_eq!(rt; report.failed, 0);
    let Closed {
        blocks,
        next: _,
        ended: _,
    } = closed;
    expect_all_set(rt, blocks, last);
    Ok(())
}

#[test]
fn four_workers_set_their_words_of_all_pages(rt: HostRuntime) -> Result<(), Fail> {
    all_set::<HostRuntime, WORDS>(&rt, rt.alloc(), 63)
}

#[test]
fn four_workers_set_their_words_of_large_pages(rt: HostRuntime) -> Result<(), Fail> {
    all_set::<HostRuntime, LARGE>(&rt, rt.alloc(), 511)
}
