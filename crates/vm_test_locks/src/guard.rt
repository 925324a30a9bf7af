//! Guards over a table of one resident page, with ample memory. The values are worked out by hand from the rules, and not taken from a run.
ghost use Rattle.std.specs.Prelude.{◌<◌, ◌≡◌, false, None};
ghost use Rattle.vm_page.specs.Sizes.{IsSize};
ghost use Rattle.vm_rule.specs.Prelude.{seat_of};
ghost use Rattle.vm_step.specs.Prelude.{IsReadyOn, view};
ghost use Rattle.vm_guard.specs.Shares.{KeepsShares};

use std::alloc::Global;
use std::process::Abort;
use std::test::Fail;
use vm_block::{Block, Failed, MemBlock, PageBlock};
use vm_event::StateWord;
use vm_evict::flush;
use vm_guard::{Deny, ExclusiveGuard, OptGuard, SharedGuard};
use vm_owner::Bare;
use vm_page::{LARGE, PageBuf, WORDS};
use vm_rule::words::{Pass, Words};
use vm_step::{At, Saw, Took, look_silently, mark};
use vm_test_tables::resident::{resident, zero_pages};

#[test]
fn a_release_ends_an_older_read(rt: HostRuntime) -> Result<(), Fail> {
    let (words, mut pass) = zero_pages(rt.alloc(), 1, 7)?;
    let Ok(guard) = OptGuard::start(&words, &mut pass, 0) else {
        panic!(rt; "the page can be read");
    };
    let Ok(held) = ExclusiveGuard::take(&words, &mut pass, 0) else {
        panic!(rt; "the page can be locked");
    };
    held.release(&words, &mut pass, None);
    let answer = guard.validate_silently(&words, &mut pass);
    let at = At::Page(0);
    assert_eq!(rt;
        answer,
        Err(Saw {
            at,
            first: 7,
            seen: 8
        })
    );
    Ok(())
}

/// The page has all the shares that it can have.
fn is_full<B: Block>(rt: &impl Abort, words: &Words<Bare, B>, pass: &mut Pass<Bare>)
    requires ready { IsReadyOn words.now B.tells pass.old }
    requires pages { words.now.table.shared.key.pages ≡ 1 }
    ensures ready { IsReadyOn words.now B.tells pass.new }
    ensures kept { KeepsShares 0 (view pass.old) (view pass.new) }
{
    match SharedGuard::take(words, pass, 0) {
        Ok(_) => panic!(rt; "the page is full"),
        Err(deny) => assert_eq!(rt; deny, Deny::Crowded(0)),
    }
}

/// A share can be taken, and is given up again.
fn has_room<B: Block>(rt: &impl Abort, words: &Words<Bare, B>, pass: &mut Pass<Bare>)
    requires ready { IsReadyOn words.now B.tells pass.old }
    requires pages { words.now.table.shared.key.pages ≡ 1 }
    requires idle { (seat_of (view pass.old) 0).writing ≡ false }
    requires out { (view pass.old).out ≡ None }
    ensures ready { IsReadyOn words.now B.tells pass.new }
    ensures kept { KeepsShares 0 (view pass.old) (view pass.new) }
{
    let Ok(guard) = SharedGuard::take(words, pass, 0) else {
        panic!(rt; "the page has room");
    };
    guard.drop_with(words, pass);
}

/// Takes `more` shares; the page is full then, and has room again after each that is given up.
fn crowd<B: Block>(rt: &impl Abort, words: &Words<Bare, B>, pass: &mut Pass<Bare>, more: u32)
    requires ready { IsReadyOn words.now B.tells pass.old }
    requires pages { words.now.table.shared.key.pages ≡ 1 }
    requires idle { (seat_of (view pass.old) 0).writing ≡ false }
    requires out { (view pass.old).out ≡ None }
    ensures ready { IsReadyOn words.now B.tells pass.new }
    ensures kept { KeepsShares 0 (view pass.old) (view pass.new) }
{
    if more == 0 {
        is_full(rt, words, pass);
        return;
    }
    let Ok(guard) = SharedGuard::take(words, pass, 0) else {
        panic!(rt; "the page has room");
    };
    crowd(rt, words, pass, more - 1);
    guard.drop_with(words, pass);
    has_room(rt, words, pass);
}

#[test]
fn a_page_has_at_most_252_shares(rt: HostRuntime) -> Result<(), Fail> {
    let (words, mut pass) = zero_pages(rt.alloc(), 1, 1)?;
    crowd(&rt, &words, &mut pass, 252);
    Ok(())
}

/// A validated read of the one page of a table has word `w` at place `i`.
fn expect_read<B: Block>(
    rt: &impl Abort,
    words: &Words<Bare, B>,
    pass: &mut Pass<Bare>,
    i: usize,
    w: u64,
)
    requires ready { IsReadyOn words.now B.tells pass.old }
    requires pages { words.now.table.shared.key.pages ≡ 1 }
    requires place { i < words.now.table.shared.key.size }
{
    let Ok(guard) = OptGuard::start(words, pass, 0) else {
        panic!(rt; "the page can be read");
    };
    let read = guard.word(words, pass, i);
    let valid = guard.validate_silently(words, pass).is_ok();
    assert!(rt; valid);
    assert_eq!(rt; read, w);
}

/// Word `i` of the one page of a table, which is in use, is set, and read again.
fn read_again<R: Abort, B: Block>(rt: &R, words: &Words<Bare, B>, pass: &mut Pass<Bare>, i: usize)
    requires ready { IsReadyOn words.now B.tells pass.old }
    requires pages { words.now.table.shared.key.pages ≡ 1 }
    requires out { (view pass.old).out ≡ None }
    requires place { i < words.now.table.shared.key.size }
{
    let Ok(mut held) = ExclusiveGuard::take(words, pass, 0) else {
        panic!(rt; "the page can be locked");
    };
    // A page that was brought in is clean.
    let clean = !held.dirty;
    assert!(rt; clean);
    if held.read(words, pass, 0) == 0 {
        panic!(rt; "the page is in use");
    }
    held.set(words, pass, i, 5);
    let dirty = held.dirty;
    assert!(rt; dirty);
    let drafted = held.read(words, pass, i);
    assert_eq!(rt; drafted, 5);
    held.release(words, pass, None);
    expect_read(rt, words, pass, i, 5);
}

/// Word `i` of a page of `N` words, of which only the first is not 0, is set, and read again.
fn set_and_read<R: Abort, const N: usize>(rt: &R, alloc: Global, i: usize) -> Result<(), Fail>
    requires sized { IsSize N }
    requires place { i < N }
{
    let mut page = PageBuf::<N>::zero();
    page.set(0, 1);
    let mut blocks = Vec::new(alloc);
    blocks.push(MemBlock::new(alloc, page, &[])?)?;
    let (words, mut pass) = resident::<MemBlock<N>, N>(alloc, blocks, 1)?;
    read_again(rt, &words, &mut pass, i);
    Ok(())
}

#[test]
fn a_validated_read_has_the_word_that_was_set(rt: HostRuntime) -> Result<(), Fail> {
    set_and_read::<HostRuntime, WORDS>(&rt, rt.alloc(), 63)
}

#[test]
fn a_validated_read_has_the_last_word_of_a_large_page(rt: HostRuntime) -> Result<(), Fail> {
    set_and_read::<HostRuntime, LARGE>(&rt, rt.alloc(), 511)
}

#[test]
fn a_start_takes_a_mark_away(rt: HostRuntime) -> Result<(), Fail> {
    let (words, mut pass) = zero_pages(rt.alloc(), 1, 7)?;
    let took = mark(&words, &mut pass, 0, 7);
    assert!(rt; matches!(took, Took::Taken));
    let marked = look_silently(&words, &mut pass, 0);
    assert_eq!(rt; StateWord::state(marked), StateWord::MARKED);
    let Ok(guard) = OptGuard::start(&words, &mut pass, 0) else {
        panic!(rt; "the page can be read");
    };
    let valid = guard.validate_silently(&words, &mut pass).is_ok();
    assert!(rt; valid);
    let word = look_silently(&words, &mut pass, 0);
    assert_eq!(rt; word, 7);
    Ok(())
}

/// A block that does not tell its words, and that answers each call.
#[derive(Drop)]
struct Mute {
    reads: u64,
    writes: u64,
}

#[tactic(auto, unfolding(vm_page::specs::Counts::count_more))]
impl Block for Mute {
    ghost use Rattle.std.specs.Prelude.{[], false};
    ghost use Rattle.std.proofs.Common.{arith};

    ghost tells = { false };

    ghost stored = { λ block. record { words = []; count = 0; bound = 0; reads = block.reads; writes = block.writes } };

    fn reads(&self) -> u64 {
        self.reads
    }

    fn writes(&self) -> u64 {
        self.writes
    }

    fn faults(&self) -> u64 {
        0
    }

    ghost bounded = { λ block. Prim.omega arith };

    ghost capped = { λ block. Prim.omega arith };
}

#[tactic(auto, unfolding(vm_page::specs::Counts::count_more))]
impl PageBlock<WORDS> for Mute {
    fn read(&mut self, into: &mut PageBuf<WORDS>) -> Result<(), Failed> {
        let _ = into.get(0);
        self.reads = self.reads.saturating_add(1);
        Ok(())
    }

    fn write(&mut self, _words: &PageBuf<WORDS>) -> Result<(), Failed> {
        self.writes = self.writes.saturating_add(1);
        Ok(())
    }

    ghost whole = { λ block tells. cc };
}

/// Sets two words of page 0, which is clean, and dirty from the first of them on.
fn set_two(rt: &impl Abort, words: &Words<Bare, Mute>, pass: &mut Pass<Bare>)
    requires size { words.now.table.shared.key.size ≡ WORDS }
    requires ready { IsReadyOn words.now ⟦<Mute as Block>⟧.tells pass.old }
    requires pages { words.now.table.shared.key.pages ≡ 1 }
    requires out { (view pass.old).out ≡ None }
    ensures ready { IsReadyOn words.now ⟦<Mute as Block>⟧.tells pass.new }
    ensures out { (view pass.new).out ≡ None }
{
    let Ok(mut held) = ExclusiveGuard::take(words, pass, 0) else {
        panic!(rt; "the page can be locked");
    };
    let clean = !held.dirty;
    assert!(rt; clean);
    held.set(words, pass, 0, 5);
    let dirty = held.dirty;
    assert!(rt; dirty);
    held.set(words, pass, 1, 6);
    held.release(words, pass, None);
}

/// Page 0 is dirty, or it is not.
fn expect_dirty(rt: &impl Abort, words: &Words<Bare, Mute>, pass: &mut Pass<Bare>, dirty: bool)
    requires ready { IsReadyOn words.now ⟦<Mute as Block>⟧.tells pass.old }
    requires pages { words.now.table.shared.key.pages ≡ 1 }
    requires out { (view pass.old).out ≡ None }
    ensures ready { IsReadyOn words.now ⟦<Mute as Block>⟧.tells pass.new }
    ensures out { (view pass.new).out ≡ None }
{
    let Ok(held) = ExclusiveGuard::take(words, pass, 0) else {
        panic!(rt; "the page can be locked");
    };
    let found = held.dirty;
    assert_eq!(rt; found, dirty);
    held.release(words, pass, None);
}

#[test]
fn a_set_makes_a_clean_page_dirty_and_a_flush_makes_it_clean(rt: HostRuntime) -> Result<(), Fail> {
    let mut blocks = Vec::new(rt.alloc());
    blocks.push(Mute {
        reads: 0,
        writes: 0,
    })?;
    let (words, mut pass) = resident::<Mute, WORDS>(rt.alloc(), blocks, 7)?;
    set_two(&rt, &words, &mut pass);
    expect_dirty(&rt, &words, &mut pass, true);
    let flushed = flush::<Bare, Mute, WORDS>(&words, &mut pass);
    assert_eq!(rt; flushed.written, 1);
    expect_dirty(&rt, &words, &mut pass, false);
    Ok(())
}
