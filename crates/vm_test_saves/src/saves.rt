//! Pools that are closed, at once and behind a flush, and what stands in their blocks then. The values are worked out by hand from the rules, and not taken
//! from a run.
ghost use Rattle.std.specs.Prelude.{◌<◌};
ghost use Rattle.vm_rule.specs.Prelude.{HoldsNoPage};
ghost use Rattle.vm_step.specs.Prelude.{AreHeld, IsAlone, IsReadyOn, view};

use std::process::Abort;
use std::test::Fail;
use vm_block::{Block, MemBlock, PageBlock};
use vm_evict::Flushed;
use vm_exmap::Interface;
use vm_guard::ExclusiveGuard;
use vm_owner::Bare;
use vm_page::{LARGE, PageBuf, WORDS};
use vm_pool::save::{Saved, flush_and_close};
use vm_pool::{Bring, Closed, Pool, Shape};
use vm_rule::words::Pass;
use vm_test_pages::blocks::{used_page, used_pages};
use vm_test_pages::pools::pool_of;

/// Sets word `i` of page `p`, which is in use and resident, by a pass that is alone and holds no page.
fn put_alone<B: PageBlock<N>, const N: usize>(
    rt: &impl Abort,
    pool: &Pool<Bare, B, N>,
    pass: &mut Pass<Bare>,
    p: u32,
    i: usize,
    w: u64,
)
    requires ready { IsReadyOn pool.now.words B.tells pass.old }
    requires page { (p < pool.now.words.table.shared.key.pages) × (p < pool.now.words.table.shared.key.next) }
    requires place { i < N }
    requires alone { IsAlone (view pass.old) }
    requires holds { HoldsNoPage (view pass.old) }
    ensures ready { IsReadyOn pool.now.words B.tells pass.new }
    ensures alone { IsAlone (view pass.new) }
    ensures holds { HoldsNoPage (view pass.new) }
{
    let Ok(mut guard) = ExclusiveGuard::take(&pool.words, pass, p) else {
        panic!(rt; "the page can be locked");
    };
    if guard.read(&pool.words, pass, 1) == 0 {
        panic!(rt; "the page is in use");
    }
    guard.set(&pool.words, pass, i, w);
    guard.release(&pool.words, pass, None);
}

/// Brings page `p`, which is evicted, and sets its word `i`, by a pass that is alone and holds no page.
fn bring_and_put<B: PageBlock<N>, const N: usize>(
    rt: &impl Abort,
    pool: &Pool<Bare, B, N>,
    pass: &mut Pass<Bare>,
    iface: &mut Interface,
    p: u32,
    i: usize,
    w: u64,
)
    requires ready { IsReadyOn pool.now.words B.tells pass.old }
    requires held { AreHeld iface.old.frames (view pass.old) }
    requires page { (p < pool.now.words.table.shared.key.pages) × (p < pool.now.words.table.shared.key.next) }
    requires place { i < N }
    requires alone { IsAlone (view pass.old) }
    requires holds { HoldsNoPage (view pass.old) }
    ensures ready { IsReadyOn pool.now.words B.tells pass.new }
    ensures alone { IsAlone (view pass.new) }
    ensures holds { HoldsNoPage (view pass.new) }
{
    let answer = pool.bring(pass, iface, p);
    assert_eq!(rt; answer, Bring::Brought);
    put_alone(rt, pool, pass, p, i, w);
}

/// One page was written, and no write failed.
const WROTE_ONE: Flushed = Flushed {
    written: 1,
    failed: 0,
    busy: 0,
    first: None,
};

/// The blocks of a pool that was closed, where it ended with this next page number and its blocks counted so many reads, writes and faults.
fn expect_end<B>(rt: &impl Abort, end: Closed<Bare, B>, next: u32, sums: [u64; 3]) -> Vec<B> {
    let Closed {
        blocks,
        next: last,
        ended,
    } = end;
    assert_eq!(rt; last, next);
    assert_eq!(rt; [ended.reads(), ended.writes(), ended.faults()], sums);
    blocks
}

/// The blocks of a pool that was flushed, where the flush said this, and closed.
fn expect_saved<B: Block>(
    rt: &impl Abort,
    saved: Saved<Bare, B>,
    wrote: Flushed,
    next: u32,
    sums: [u64; 3],
) -> Vec<B> {
    let Saved { report, closed } = saved;
    assert_eq!(rt; report, wrote);
    expect_end(rt, closed, next, sums)
}

/// The page that the block gives has this word at place `i`.
fn expect_word(rt: &impl Abort, block: &mut MemBlock<WORDS>, i: usize, w: u64)
    requires { i < WORDS }
{
    let mut read = PageBuf::zero();
    let answered = block.read(&mut read).is_ok();
    assert!(rt; answered);
    assert_eq!(rt; read.get(i), w);
}

/// There are two blocks, whose pages have these words at place `i`.
fn expect_words(rt: &impl Abort, mut blocks: Vec<MemBlock<WORDS>>, i: usize, words: (u64, u64))
    requires { i < WORDS }
{
    let Some(mut second) = blocks.pop() else {
        panic!(rt; "there are two blocks");
    };
    let Some(mut first) = blocks.pop() else {
        panic!(rt; "there is one block more");
    };
    assert_eq!(rt; blocks.len(), 0);
    expect_word(rt, &mut first, i, words.0);
    expect_word(rt, &mut second, i, words.1);
}

/// Of two blocks of large pages the second has a word behind a small page's end and its last one, and the first has neither.
fn expect_large_words(rt: &impl Abort, mut blocks: Vec<MemBlock<LARGE>>) {
    let Some(mut second) = blocks.pop() else {
        panic!(rt; "there are two blocks");
    };
    let Some(mut first) = blocks.pop() else {
        panic!(rt; "there is one block more");
    };
    let mut read = PageBuf::zero();
    let answered = second.read(&mut read).is_ok();
    assert!(rt; answered);
    let words = [
        read.get(0),
        read.get(63),
        read.get(64),
        read.get(510),
        read.get(511),
    ];
    assert_eq!(rt; words, [0, 0, 8, 0, 7]);
    let answered = first.read(&mut read).is_ok();
    assert!(rt; answered);
    assert_eq!(rt; (read.get(64), read.get(511)), (0, 0));
}

#[test]
fn a_pool_that_is_closed_at_once_gives_its_blocks_back(rt: HostRuntime) -> Result<(), Fail> {
    let alloc = rt.alloc();
    let mut words = PageBuf::zero();
    words.set(63, 9);
    let mut blocks = Vec::new(alloc);
    blocks.push(MemBlock::new(alloc, words, &[])?)?;
    blocks.push(MemBlock::new(alloc, PageBuf::zero(), &[])?)?;
    let shape = Shape {
        pages: 2,
        frames: 3,
        next: 1,
        first_version: 7,
    };
    let (pool, pass) = Pool::<Bare, MemBlock<WORDS>, WORDS>::start(alloc, shape, blocks, &[], &[])?;
    let frames = pool.words().frames;
    assert_eq!(rt; frames, 3);
    let Ok(end) = pool.close(alloc, pass) else {
        panic!(rt; "there is memory");
    };
    let blocks = expect_end(&rt, end, 1, [0, 0, 0]);
    expect_words(&rt, blocks, 63, (9, 0));
    Ok(())
}

#[test]
fn a_page_that_was_flushed_is_in_its_block(rt: HostRuntime) -> Result<(), Fail> {
    let alloc = rt.alloc();
    let blocks = used_pages::<WORDS>(alloc, 2)?;
    let (pool, mut pass) = pool_of(alloc, 1, blocks)?;
    let mut iface = Interface::new(0, 1);
    bring_and_put(&rt, &pool, &mut pass, &mut iface, 1, 5, 7);
    let Ok(saved) = flush_and_close(pool, alloc, pass) else {
        panic!(rt; "there is memory");
    };
    // The page was read once and written once.
    let blocks = expect_saved(&rt, saved, WROTE_ONE, 2, [1, 1, 0]);
    expect_words(&rt, blocks, 5, (0, 7));
    Ok(())
}

/// Two words of a large page: the first one behind a small page's end, and its last one.
#[test]
fn the_last_words_of_a_large_page_are_in_its_block(rt: HostRuntime) -> Result<(), Fail> {
    let alloc = rt.alloc();
    let blocks = used_pages::<LARGE>(alloc, 2)?;
    let (pool, mut pass) = pool_of(alloc, 1, blocks)?;
    let mut iface = Interface::new(0, 1);
    bring_and_put(&rt, &pool, &mut pass, &mut iface, 1, 511, 7);
    put_alone(&rt, &pool, &mut pass, 1, 64, 8);
    let Ok(saved) = flush_and_close(pool, alloc, pass) else {
        panic!(rt; "there is memory");
    };
    let blocks = expect_saved(&rt, saved, WROTE_ONE, 2, [1, 1, 0]);
    expect_large_words(&rt, blocks);
    Ok(())
}

#[test]
fn a_page_whose_write_failed_is_not_in_its_block(rt: HostRuntime) -> Result<(), Fail> {
    let alloc = rt.alloc();
    let mut blocks = Vec::new(alloc);
    // The block's first call is a read, and its second call a write.
    blocks.push(MemBlock::<WORDS>::new(alloc, used_page(), &[2])?)?;
    let (pool, mut pass) = pool_of(alloc, 1, blocks)?;
    let mut iface = Interface::new(0, 1);
    bring_and_put(&rt, &pool, &mut pass, &mut iface, 0, 5, 7);
    let Ok(saved) = flush_and_close(pool, alloc, pass) else {
        panic!(rt; "there is memory");
    };
    let failed = Flushed {
        written: 0,
        failed: 1,
        busy: 0,
        first: Some(0),
    };
    let mut blocks = expect_saved(&rt, saved, failed, 1, [1, 0, 1]);
    let Some(mut block) = blocks.pop() else {
        panic!(rt; "there is a block");
    };
    expect_word(&rt, &mut block, 5, 0);
    Ok(())
}
