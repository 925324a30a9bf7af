//! Pools of a few pages, with ample memory. The values are worked out by hand from the rules, and not taken from a run.
ghost use Rattle.std.specs.Prelude.{◌<◌, ◌≡◌, ◌≤◌, IfOk, None};
ghost use Rattle.vm_page.specs.Sizes.{IsSize};
ghost use Rattle.vm_step.specs.Prelude.{AreHeld, IsReadyOn, view};

use std::alloc::Global;
use std::process::Abort;
use std::test::Fail;
use vm_block::{Block, MemBlock, PageBlock};
use vm_event::StateWord;
use vm_exmap::Interface;
use vm_guard::{ExclusiveGuard, OptGuard, SharedGuard, read_word};
use vm_owner::Bare;
use vm_page::{LARGE, WORDS};
use vm_pool_callers::pool::{Bring, Pool};
use vm_pool_callers::round_trip::round_trip;
use vm_rule::words::Pass;
use vm_step::{At, Looks, Saw, look_silently};
use vm_test_pages::blocks::{used_page, used_pages};
use vm_test_pages::pools::{brought, pool_of, put};

/// The word of an evicted page at version 2.
const EVICTED_AT_2: u64 = 0xff00_0000_0000_0002;

/// Whether page `p` is dirty, which is resident, and not locked by anyone.
fn is_dirty<B: Block, const N: usize>(
    rt: &impl Abort,
    pool: &Pool<Bare, B, N>,
    pass: &mut Pass<Bare>,
    p: u32,
) -> bool
    requires ready { IsReadyOn pool.now.words B.tells pass.old }
    requires home { (view pass.old).out ≡ None }
    requires page { (p < pool.now.words.table.shared.key.pages) × (p < pool.now.words.table.shared.key.next) }
    ensures ready { IsReadyOn pool.now.words B.tells pass.new }
    ensures home { (view pass.new).out ≡ None }
    ensures frames { ((view pass.new).start ≡ (view pass.old).start) × ((view pass.new).frames ≡ (view pass.old).frames) }
{
    let Ok(guard) = ExclusiveGuard::take(&pool.words, pass, p) else {
        panic!(rt; "the page can be locked");
    };
    let dirty = guard.dirty;
    guard.release(&pool.words, pass, None);
    dirty
}

/// Brings page `p` where it is not resident.
fn make_resident<B: PageBlock<WORDS>>(
    pool: &Pool<Bare, B, WORDS>,
    pass: &mut Pass<Bare>,
    iface: &mut Interface,
    p: u32,
) -> Result<(), Fail>
    requires ready { IsReadyOn pool.now.words B.tells pass.old }
    requires home { (view pass.old).out ≡ None }
    requires held { AreHeld iface.old.frames (view pass.old) }
    requires page { p < pool.now.words.table.shared.key.pages }
    ensures ready { IfOk result (λ _. IsReadyOn pool.now.words B.tells pass.new) }
    ensures home { IfOk result (λ _. (view pass.new).out ≡ None) }
    ensures held { IfOk result (λ _. AreHeld iface.new.frames (view pass.new)) }
{
    if OptGuard::start(&pool.words, pass, p).is_err() {
        brought(pool, pass, iface, p)?;
    }
    Ok(())
}

/// Sets word 5 of each of the first `n` pages, the last of them first: to 10 times the page's number, and the round.
fn put_round<B: PageBlock<WORDS>>(
    pool: &Pool<Bare, B, WORDS>,
    pass: &mut Pass<Bare>,
    iface: &mut Interface,
    n: u32,
    round: u64,
) -> Result<(), Fail>
    requires ready { IsReadyOn pool.now.words B.tells pass.old }
    requires home { (view pass.old).out ≡ None }
    requires held { AreHeld iface.old.frames (view pass.old) }
    requires pages { (n ≤ pool.now.words.table.shared.key.pages) × (n ≤ pool.now.words.table.shared.key.next) }
    requires small { (n ≤ 6) × (round ≤ 2) }
    ensures ready { IfOk result (λ _. IsReadyOn pool.now.words B.tells pass.new) }
    ensures home { IfOk result (λ _. (view pass.new).out ≡ None) }
    ensures held { IfOk result (λ _. AreHeld iface.new.frames (view pass.new)) }
{
    if n == 0 {
        return Ok(());
    }
    let p = n - 1;
    make_resident(pool, pass, iface, p)?;
    put(pool, pass, p, 5, 10 * u64::from(p) + round)?;
    put_round(pool, pass, iface, p, round)?;
    Ok(())
}

/// Each of the first `n` pages has the word that this round set.
fn has_round<B: PageBlock<WORDS>>(
    rt: &impl Abort,
    pool: &Pool<Bare, B, WORDS>,
    pass: &mut Pass<Bare>,
    iface: &mut Interface,
    n: u32,
    round: u64,
) -> Result<(), Fail>
    requires ready { IsReadyOn pool.now.words B.tells pass.old }
    requires home { (view pass.old).out ≡ None }
    requires held { AreHeld iface.old.frames (view pass.old) }
    requires pages { n ≤ pool.now.words.table.shared.key.pages }
    requires small { (n ≤ 6) × (round ≤ 2) }
    ensures ready { IfOk result (λ _. IsReadyOn pool.now.words B.tells pass.new) }
    ensures home { IfOk result (λ _. (view pass.new).out ≡ None) }
    ensures held { IfOk result (λ _. AreHeld iface.new.frames (view pass.new)) }
{
    if n == 0 {
        return Ok(());
    }
    let p = n - 1;
    make_resident(pool, pass, iface, p)?;
    let word = read_word(&pool.words, pass, p, 5);
    assert_eq!(rt; word, Some(10 * u64::from(p) + round));
    has_round(rt, pool, pass, iface, p, round)?;
    Ok(())
}

/// The call was answered so.
fn expect_answer(rt: &impl Abort, answer: Bring, wanted: Bring) {
    assert_eq!(rt; answer, wanted);
}

#[test]
fn a_page_that_goes_ends_an_older_read(rt: HostRuntime) -> Result<(), Fail> {
    let blocks = used_pages::<WORDS>(rt.alloc(), 2)?;
    let (pool, mut pass) = pool_of(rt.alloc(), 1, blocks)?;
    let mut iface = Interface::new(0, 1);
    brought(&pool, &mut pass, &mut iface, 0)?;
    let Ok(guard) = OptGuard::start(&pool.words, &mut pass, 0) else {
        panic!(rt; "the page can be read");
    };
    // The only frame is page 0's.
    brought(&pool, &mut pass, &mut iface, 1)?;
    let was = StateWord::version(guard.word);
    let now = StateWord::version(look_silently(&pool.words, &mut pass, 0));
    if now <= was {
        panic!(rt; "the page went, at a version of its own");
    }
    let answer = guard.validate_silently(&pool.words, &mut pass);
    let saw = Saw {
        at: At::Page(0),
        first: 1,
        seen: EVICTED_AT_2,
    };
    assert_eq!(rt; answer, Err(saw));
    Ok(())
}

/// A sweep fails to write page 0, which stays dirty in its frame.
fn not_written<R: Abort, B: PageBlock<N>, const N: usize>(
    rt: &R,
    pool: &Pool<Bare, B, N>,
    pass: &mut Pass<Bare>,
    iface: &mut Interface,
)
    requires ready { IsReadyOn pool.now.words B.tells pass.old }
    requires home { (view pass.old).out ≡ None }
    requires held { AreHeld iface.old.frames (view pass.old) }
    requires page { (1 ≤ pool.now.words.table.shared.key.pages) × (1 ≤ pool.now.words.table.shared.key.next) }
    ensures ready { IsReadyOn pool.now.words B.tells pass.new }
    ensures home { (view pass.new).out ≡ None }
    ensures held { AreHeld iface.new.frames (view pass.new) }
{
    let report = pool.sweep(pass, iface, 1);
    assert_eq!(rt; (report.freed, report.failed), (0, 1));
    assert_eq!(rt; report.first_failed, Some((0, 1)));
    let dirty = is_dirty(rt, pool, pass, 0);
    assert!(rt; dirty);
}

/// The next sweep writes page 0, whose word `i` is 7, and frees its frame; the page is brought again with this word.
fn written_now<R: Abort, B: PageBlock<N>, const N: usize>(
    rt: &R,
    pool: &Pool<Bare, B, N>,
    pass: &mut Pass<Bare>,
    iface: &mut Interface,
    i: usize,
) -> Result<(), Fail>
    requires ready { IsReadyOn pool.now.words B.tells pass.old }
    requires home { (view pass.old).out ≡ None }
    requires held { AreHeld iface.old.frames (view pass.old) }
    requires page { 1 ≤ pool.now.words.table.shared.key.pages }
    requires place { i < N }
{
    let report = pool.sweep(pass, iface, 1);
    assert_eq!(rt; (report.freed, report.written, report.failed), (1, 1, 0));
    brought(pool, pass, iface, 0)?;
    let word = read_word(&pool.words, pass, 0, i);
    assert_eq!(rt; word, Some(7));
    Ok(())
}

/// A page of `N` words whose word `i` is set, and whose first write fails, is written by the next sweep.
fn written_again<R: Abort, const N: usize>(rt: &R, alloc: Global, i: usize) -> Result<(), Fail>
    requires sized { IsSize N }
    requires place { i < N }
{
    let mut blocks = Vec::new(alloc);
    // The block's first call is a read, and its second call a write.
    blocks.push(MemBlock::<N>::new(alloc, used_page(), &[2])?)?;
    let (pool, mut pass) = pool_of(alloc, 1, blocks)?;
    let mut iface = Interface::new(0, 1);
    brought(&pool, &mut pass, &mut iface, 0)?;
    put(&pool, &mut pass, 0, i, 7)?;
    not_written(rt, &pool, &mut pass, &mut iface);
    written_now(rt, &pool, &mut pass, &mut iface, i)
}

#[test]
fn a_write_that_fails_once_leaves_the_page_dirty(rt: HostRuntime) -> Result<(), Fail> {
    written_again::<HostRuntime, WORDS>(&rt, rt.alloc(), 5)
}

#[test]
fn a_write_of_a_large_page_that_fails_once_leaves_it_dirty(rt: HostRuntime) -> Result<(), Fail> {
    written_again::<HostRuntime, LARGE>(&rt, rt.alloc(), 511)
}

#[test]
fn more_pages_than_frames_keep_their_words(rt: HostRuntime) -> Result<(), Fail> {
    let blocks = used_pages::<WORDS>(rt.alloc(), 6)?;
    let (pool, mut pass) = pool_of(rt.alloc(), 2, blocks)?;
    let mut iface = Interface::new(0, 1);
    put_round(&pool, &mut pass, &mut iface, 6, 1)?;
    has_round(&rt, &pool, &mut pass, &mut iface, 6, 1)?;
    put_round(&pool, &mut pass, &mut iface, 6, 2)?;
    has_round(&rt, &pool, &mut pass, &mut iface, 6, 2)?;
    Ok(())
}

/// Word `i` of a page of `N` words is set, swept, and read again.
fn found_again<R: Abort, const N: usize>(rt: &R, alloc: Global, i: usize) -> Result<(), Fail>
    requires sized { IsSize N }
    requires place { i < N }
{
    let blocks = used_pages::<N>(alloc, 2)?;
    let (pool, mut pass) = pool_of(alloc, 1, blocks)?;
    let mut iface = Interface::new(0, 1);
    let word = round_trip(&pool, &mut pass, &mut iface, 1, i, 7);
    assert_eq!(rt; word, Some(7));
    assert_eq!(rt; iface.swept(), 1);
    Ok(())
}

#[test]
fn a_word_is_found_again_behind_a_sweep(rt: HostRuntime) -> Result<(), Fail> {
    found_again::<HostRuntime, WORDS>(&rt, rt.alloc(), 63)
}

#[test]
fn the_last_word_of_a_large_page_is_found_again(rt: HostRuntime) -> Result<(), Fail> {
    found_again::<HostRuntime, LARGE>(&rt, rt.alloc(), 511)
}

#[test]
fn a_held_page_is_no_candidate(rt: HostRuntime) -> Result<(), Fail> {
    let blocks = used_pages::<WORDS>(rt.alloc(), 2)?;
    let (pool, mut pass) = pool_of(rt.alloc(), 1, blocks)?;
    let mut iface = Interface::new(0, 1);
    brought(&pool, &mut pass, &mut iface, 0)?;
    let Ok(guard) = SharedGuard::take(&pool.words, &mut pass, 0) else {
        panic!(rt; "the page can be shared");
    };
    let answer = pool.bring(&mut pass, &mut iface, 1);
    let looks = Looks {
        found: 0,
        again: 0,
        marked: 0,
        lost: 0,
        held: 2,
        gone: 0,
        worn: 0,
        first_worn: None,
    };
    expect_answer(&rt, answer, Bring::Dry { looks });
    guard.drop_with(&pool.words, &mut pass);
    Ok(())
}
