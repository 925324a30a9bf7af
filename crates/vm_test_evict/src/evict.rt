//! Evictions over a table of one dirty page, whose last word is 5, with ample memory. The values are worked out by hand from the rules, and not
//! taken from a run.
ghost use Rattle.std.specs.Prelude.{◌≡◌, IfOk, None};
ghost use Rattle.vm_step.specs.Prelude.{AreCandidates, IsReadyOn, view};

use crate::flush::flush_all;
use arrayvec::ArrayVec;
use std::alloc::Global;
use std::process::Abort;
use std::test::Fail;
use vm_block::{Block, MemBlock, PageBlock};
use vm_evict::evict;
use vm_evict::report::{Evicted, Report};
use vm_exmap::{Alloc, Interface};
use vm_fault::{Fetch, fault_in};
use vm_guard::ExclusiveGuard;
use vm_owner::Bare;
use vm_page::{PageBuf, WORDS};
use vm_rule::words::{Pass, Words};
use vm_step::{Candidates, Looks, Took, lock_exclusive, mark};
use vm_supply::block_out;
use vm_test_pages::blocks::used_page;

/// The word of a marked page at version 7.
const MARKED_AT_7: u64 = 0xfe00_0000_0000_0007;

/// The word of an evicted page at version 8.
const EVICTED_AT_8: u64 = 0xff00_0000_0000_0008;

/// The translation word of a dirty page in frame 0.
pub(crate) const DIRTY_IN_0: u64 = 0x8000_0000_0000_0001;

/// The place of the frame's owner word, behind a word of each kind of the page, 64 words of the frame, a bundle's word, the next word and the hand.
const OWNER_OF_0: usize = 70;

/// Nothing became of any candidate.
const NOTHING: Report = Report {
    freed: 0,
    written: 0,
    failed: 0,
    lost: 0,
    first_failed: None,
    looks: Looks {
        found: 1,
        again: 0,
        marked: 0,
        lost: 0,
        held: 0,
        gone: 0,
        worn: 0,
        first_worn: None,
    },
};

/// Brings page 0, which is evicted, into frame 0, the only one.
fn bring_first<B: PageBlock<WORDS>>(rt: &impl Abort, words: &Words<Bare, B>, pass: &mut Pass<Bare>)
    requires size { words.now.table.shared.key.size ≡ WORDS }
    requires ready { IsReadyOn words.now B.tells pass.old }
    requires pages { words.now.table.shared.key.pages ≡ 1 }
    requires out { (view pass.old).out ≡ None }
    ensures ready { IsReadyOn words.now B.tells pass.new }
    ensures start { (view pass.new).start ≡ (view pass.old).start }
    ensures out { (view pass.new).out ≡ None }
    ensures owed { (view pass.new).owed ≡ (view pass.old).owed }
{
    let mut iface = Interface::new(0, 1);
    let Alloc::Batch(batch) = iface.alloc(words, pass, 1) else {
        panic!(rt; "the frame is free");
    };
    let Fetch::Brought = fault_in::<Bare, B, WORDS>(words, pass, 0, batch.as_slice()[0]) else {
        panic!(rt; "the page can be read");
    };
}

/// Sets the last word of page 0, which is in use, and unlocked in its frame.
fn set_last<B: Block>(rt: &impl Abort, words: &Words<Bare, B>, pass: &mut Pass<Bare>)
    requires size { words.now.table.shared.key.size ≡ WORDS }
    requires ready { IsReadyOn words.now B.tells pass.old }
    requires pages { words.now.table.shared.key.pages ≡ 1 }
    requires out { (view pass.old).out ≡ None }
    ensures ready { IsReadyOn words.now B.tells pass.new }
    ensures out { (view pass.new).out ≡ None }
{
    let Ok(mut held) = ExclusiveGuard::take(words, pass, 0) else {
        panic!(rt; "the page can be locked");
    };
    if held.read(words, pass, 1) == 0 {
        panic!(rt; "the page is in use");
    }
    held.set(words, pass, 63, 5);
    held.release(words, pass, None);
}

/// A table of one page, unlocked at version 7 and dirty in its frame, and its first pass. The page was evicted at version 5, was brought in by the
/// first call of its block, and then had its last word set. The block has such a page and this plan.
pub(crate) fn one_page(
    rt: &impl Abort,
    alloc: Global,
    plan: &[u64],
) -> Result<(Words<Bare, MemBlock<WORDS>>, Pass<Bare>), Fail>
    ensures size { IfOk result (λ made. made.0.table.shared.key.size ≡ WORDS) }
    ensures pages { IfOk result (λ made. made.0.table.shared.key.pages ≡ 1) }
    ensures frames { IfOk result (λ made. made.0.table.shared.key.frames ≡ 1) }
    ensures ready { IfOk result (λ made. IsReadyOn made.0 ⟦<MemBlock<WORDS> as Block>⟧.tells made.1) }
    ensures out { IfOk result (λ made. (view made.1).out ≡ None) }
{
    let mut blocks = Vec::new(alloc);
    blocks.push(MemBlock::new(alloc, used_page(), plan)?)?;
    let (words, mut pass) = Words::started(alloc, WORDS, 1, 1, 5, blocks, &[], &[])?;
    bring_first(rt, &words, &mut pass);
    set_last(rt, &words, &mut pass);
    Ok((words, pass))
}

/// Page 0, marked at version 7.
fn candidate() -> Candidates
    ensures { AreCandidates 1 result.list.items }
{
    let mut list = ArrayVec::new();
    list.push((0, MARKED_AT_7));
    Candidates {
        list,
        looks: NOTHING.looks,
    }
}

/// Evicts page 0 as a candidate that was marked at version 7.
fn evict_first<B: PageBlock<WORDS>>(words: &Words<Bare, B>, pass: &mut Pass<Bare>) -> Evicted
    requires size { words.now.table.shared.key.size ≡ WORDS }
    requires ready { IsReadyOn words.now B.tells pass.old }
    requires pages { words.now.table.shared.key.pages ≡ 1 }
    requires out { (view pass.old).out ≡ None }
    ensures ready { IsReadyOn words.now B.tells pass.new }
    ensures out { (view pass.new).out ≡ None }
{
    evict::<Bare, B, WORDS>(words, pass, &candidate())
}

/// Marks page 0, which is unlocked at version 7.
fn mark_first<B: Block>(rt: &impl Abort, words: &Words<Bare, B>, pass: &mut Pass<Bare>)
    requires ready { IsReadyOn words.now B.tells pass.old }
    requires pages { words.now.table.shared.key.pages ≡ 1 }
    requires out { (view pass.old).out ≡ None }
    ensures ready { IsReadyOn words.now B.tells pass.new }
    ensures out { (view pass.new).out ≡ None }
{
    match mark(words, pass, 0, 7) {
        Took::Taken => {}
        Took::Lost(_) => panic!(rt; "the page is unlocked"),
    }
}

/// The last word of the block of page 0, which is evicted at version 8.
fn last_in_block(
    rt: &impl Abort,
    words: &Words<Bare, MemBlock<WORDS>>,
    pass: &mut Pass<Bare>,
) -> u64
    requires ready { IsReadyOn words.now ⟦<MemBlock<WORDS> as Block>⟧.tells pass.old }
    requires pages { words.now.table.shared.key.pages ≡ 1 }
    requires out { (view pass.old).out ≡ None }
{
    match lock_exclusive(words, pass, 0, EVICTED_AT_8) {
        Took::Taken => {}
        Took::Lost(_) => panic!(rt; "the page is evicted"),
    }
    let mut block = block_out(words, pass, 0);
    let mut page = PageBuf::zero();
    let read = block.read(&mut page).is_ok();
    assert!(rt; read);
    page.get(63)
}

/// The table has these words at these places.
pub(crate) fn expect_words(
    rt: &impl Abort,
    words: &Words<Bare, MemBlock<WORDS>>,
    wanted: &[(usize, u64)],
) {
    let count = words.table.word_count();
    for &(at, word) in wanted {
        assert!(rt; at < count, "word {at} of {count}");
        assert_eq!(rt; words.table.shared.peek(at), word, "word {at}");
    }
}

/// The eviction freed these frames and reported this.
fn expect_evicted(rt: &impl Abort, evicted: &Evicted, frames: &[u32], report: Report) {
    assert_eq!(rt; evicted.frames.as_slice(), frames);
    assert_eq!(rt; evicted.report, report);
}

#[test]
fn a_page_whose_write_failed_is_evicted_later(rt: HostRuntime) -> Result<(), Fail> {
    let (words, mut pass) = one_page(&rt, rt.alloc(), &[2])?;
    mark_first(&rt, &words, &mut pass);
    let evicted = evict_first(&words, &mut pass);
    let failed = Report {
        failed: 1,
        first_failed: Some((0, 1)),
        ..NOTHING
    };
    expect_evicted(&rt, &evicted, &[], failed);
    // The page's state word, its translation word and its fault word, and the owner word of its frame.
    let left = [(0, 7), (1, DIRTY_IN_0), (2, 1), (OWNER_OF_0, 1)];
    expect_words(&rt, &words, &left);
    mark_first(&rt, &words, &mut pass);
    let evicted = evict_first(&words, &mut pass);
    let freed = Report {
        freed: 1,
        written: 1,
        ..NOTHING
    };
    expect_evicted(&rt, &evicted, &[0], freed);
    expect_words(&rt, &words, &[(0, EVICTED_AT_8), (1, 0), (OWNER_OF_0, 0)]);
    let word = last_in_block(&rt, &words, &mut pass);
    assert_eq!(rt; word, 5);
    Ok(())
}

#[test]
fn a_page_that_is_marked_no_more_is_lost(rt: HostRuntime) -> Result<(), Fail> {
    let (words, mut pass) = one_page(&rt, rt.alloc(), &[])?;
    let evicted = evict_first(&words, &mut pass);
    expect_evicted(&rt, &evicted, &[], Report { lost: 1, ..NOTHING });
    expect_words(&rt, &words, &[(0, 7)]);
    Ok(())
}

#[test]
fn a_clean_page_that_is_marked_no_more_is_lost(rt: HostRuntime) -> Result<(), Fail> {
    let (words, mut pass) = one_page(&rt, rt.alloc(), &[])?;
    flush_all(&words, &mut pass);
    let evicted = evict_first(&words, &mut pass);
    expect_evicted(&rt, &evicted, &[], Report { lost: 1, ..NOTHING });
    expect_words(&rt, &words, &[(0, 7)]);
    Ok(())
}

#[test]
fn a_clean_page_is_evicted_unwritten(rt: HostRuntime) -> Result<(), Fail> {
    let (words, mut pass) = one_page(&rt, rt.alloc(), &[])?;
    flush_all(&words, &mut pass);
    mark_first(&rt, &words, &mut pass);
    let evicted = evict_first(&words, &mut pass);
    let freed = Report {
        freed: 1,
        ..NOTHING
    };
    expect_evicted(&rt, &evicted, &[0], freed);
    expect_words(&rt, &words, &[(0, EVICTED_AT_8)]);
    Ok(())
}
