//! Pages that are read optimistically while a second pass evicts them, and brings another page into the frame, or takes their numbers, and writes
//! them anew. The values are worked out by hand from the rules.
ghost use Rattle.std.specs.Prelude.{[], ◌<◌, ◌≡◌, IfOk, length, map, None};
ghost use Rattle.vm_rule.specs.Prelude.{block_words, MayBegin, stored_of};
ghost use Rattle.vm_step.specs.Prelude.{IsReadyOn, view};

use std::alloc::Global;
use std::process::Abort;
use std::test::Fail;
use vm_block::{MemBlock, PageBlock};
use vm_event::StateWord;
use vm_exmap::Interface;
use vm_guard::{OptGuard, write_two};
use vm_owner::{Bare, Owner};
use vm_page::{PageBuf, WORDS};
use vm_pool::{Bring, Pool};
use vm_rule::words::Pass;
use vm_step::{At, Saw};
use vm_test_pages::passes::{free_frames, two_passes, zeros};

/// The blocks of two pages, which have 64 times the word 5, and 64 times the word 6.
fn two_blocks(alloc: Global) -> Result<Vec<MemBlock<WORDS>>, Fail>
    ensures count { IfOk result (λ blocks. length blocks.items ≡ 2) }
    ensures begins { IfOk result (λ blocks. MayBegin ⟦<Bare as Owner>⟧.keeps 2 [] (block_words (map stored_of blocks.items))) }
{
    let mut first = PageBuf::zero();
    let mut second = PageBuf::zero();
    for i in 0..64usize {
        first.set(i, 5);
        second.set(i, 6);
    }
    let mut blocks = Vec::new(alloc);
    blocks.push(MemBlock::new(alloc, first, &[])?)?;
    blocks.push(MemBlock::new(alloc, second, &[])?)?;
    Ok(blocks)
}

/// The page, which is evicted, is brought in, by a pass without a frame of its own.
fn brought<B: PageBlock<WORDS>>(
    rt: &impl Abort,
    pool: &Pool<Bare, B, WORDS>,
    pass: &mut Pass<Bare>,
    pid: u32,
)
    requires ready { IsReadyOn pool.now.words B.tells pass.old }
    requires home { (view pass.old).out ≡ None }
    requires page { pid < pool.now.words.table.shared.key.pages }
    ensures ready { IsReadyOn pool.now.words B.tells pass.new }
    ensures home { (view pass.new).out ≡ None }
{
    let mut iface = Interface::new(0, 1);
    let answer = pool.bring(pass, &mut iface, pid);
    assert_eq!(rt; answer, Bring::Brought);
}

/// Each of the 64 words is this one.
fn is_all(rt: &impl Abort, page: &PageBuf<WORDS>, word: u64)
    requires { length page.now ≡ WORDS }
{
    for i in 0..64usize {
        let there = page.get(i);
        assert_eq!(rt; there, word);
    }
}

#[test]
fn a_read_of_an_evicted_page_is_refused(rt: HostRuntime) -> Result<(), Fail> {
    let blocks = two_blocks(rt.alloc())?;
    let (pool, mut pass, mut other) = two_passes(rt.alloc(), 1, 2, blocks, &[])?;
    brought(&rt, &pool, &mut pass, 0);
    let Ok(guard) = OptGuard::start(&pool.words, &mut pass, 0) else {
        panic!(rt; "the page can be read");
    };
    let mut page = PageBuf::zero();
    guard.read_all(&pool.words, &mut pass, &mut page);
    is_all(&rt, &page, 5);
    // the only frame is the page's
    brought(&rt, &pool, &mut other, 1);
    // the frame has the other page's words, and the read of the first page is refused
    guard.read_all(&pool.words, &mut pass, &mut page);
    is_all(&rt, &page, 6);
    let answer = guard.validate_silently(&pool.words, &mut pass);
    let at = At::Page(0);
    let seen = StateWord::of(StateWord::EVICTED, 9);
    assert_eq!(rt; answer, Err(Saw { at, first: 8, seen }));
    Ok(())
}

#[test]
fn a_read_of_a_page_that_was_used_again_is_refused(rt: HostRuntime) -> Result<(), Fail> {
    let blocks = zeros::<WORDS>(rt.alloc(), 3)?;
    let (pool, mut pass, mut other) = two_passes(rt.alloc(), 64, 3, blocks, &[1, 2])?;
    brought(&rt, &pool, &mut other, 1);
    let Ok(guard) = OptGuard::start(&pool.words, &mut other, 1) else {
        panic!(rt; "the page can be read");
    };
    let mut page = PageBuf::zero();
    guard.read_all(&pool.words, &mut other, &mut page);
    is_all(&rt, &page, 0);
    let mut frames = free_frames(&pool.words, &mut pass, 8)?;
    if frames.len() < 2 {
        panic!(rt; "there are frames");
    }
    // the two free numbers are taken, and their pages written and released
    let pages = write_two(&pool.words, &mut pass, &mut frames, 11, 12);
    assert_eq!(rt; pages, Some((1, 2)));
    // the page stands where it stood, with its new words, and the read of its old ones is refused
    guard.read_all(&pool.words, &mut other, &mut page);
    assert_eq!(rt; page.get(0), 11);
    let answer = guard.validate_silently(&pool.words, &mut other);
    let at = At::Page(1);
    let seen = StateWord::of(StateWord::UNLOCKED, 9);
    assert_eq!(rt; answer, Err(Saw { at, first: 8, seen }));
    Ok(())
}
