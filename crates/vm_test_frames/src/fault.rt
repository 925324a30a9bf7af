//! Fault-in over small tables of evicted pages, with ample memory. The values are worked out by hand from the rules, and not
//! taken from a run.
ghost use Rattle.std.specs.Prelude.{◌<◌, ◌≡◌, ◌≤◌, IfOk, None, true};
ghost use Rattle.vm_event.specs.Prelude.{MAX_VERSION};
ghost use Rattle.vm_page.specs.Sizes.{IsSize};
ghost use Rattle.vm_rule.specs.Prelude.{has};
ghost use Rattle.vm_step.specs.Prelude.{GoesOn, IsReadyOn, view};

use std::alloc::Global;
use std::process::Abort;
use std::test::Fail;
use vm_block::{Block, MemBlock};
use vm_fault::{Fetch, fault_in};
use vm_owner::Bare;
use vm_page::{LARGE, PageBuf, WORDS};
use vm_rule::words::{Pass, Words};
use vm_step::{At, Saw, Took};
use vm_supply::take;
use vm_test_tables::resident::resident;

/// The word of an evicted page at version 1.
const EVICTED_AT_1: u64 = 0xff00_0000_0000_0001;

/// A table of one evicted page of `N` words at this version, whose word `i` is 5, with a block of this plan, and its first pass.
fn one_page<const N: usize>(
    alloc: Global,
    i: usize,
    version: u64,
    plan: &[u64],
) -> Result<(Words<Bare, MemBlock<N>>, Pass<Bare>), Fail>
    requires sized { IsSize N }
    requires place { i < N }
    requires version { version ≤ MAX_VERSION }
    ensures size { IfOk result (λ made. made.0.table.shared.key.size ≡ N) }
    ensures pages { IfOk result (λ made. made.0.table.shared.key.pages ≡ 1) }
    ensures frames { IfOk result (λ made. made.0.table.shared.key.frames ≡ 2) }
    ensures ready { IfOk result (λ made. IsReadyOn made.0 ⟦<MemBlock<N> as Block>⟧.tells made.1) }
    ensures out { IfOk result (λ made. (view made.1).out ≡ None) }
{
    let mut page = PageBuf::<N>::zero();
    page.set(i, 5);
    let mut blocks = Vec::new(alloc);
    blocks.push(MemBlock::new(alloc, page, plan)?)?;
    Ok(Words::started(alloc, N, 2, 1, version, blocks, &[], &[])?)
}

/// Takes both frames.
fn take_both<B: Block>(rt: &impl Abort, words: &Words<Bare, B>, pass: &mut Pass<Bare>)
    requires ready { IsReadyOn words.now B.tells pass.old }
    requires frames { words.now.table.shared.key.frames ≡ 2 }
    requires out { (view pass.old).out ≡ None }
    ensures goes { GoesOn words.now B.tells pass.old pass.new }
    ensures holds { (has 0 (view pass.new).frames ≡ true) × (has 1 (view pass.new).frames ≡ true) }
    ensures out { (view pass.new).out ≡ None }
{
    match take(words, pass, 0, 3, 3) {
        Took::Taken => {}
        Took::Lost(_) => panic!(rt; "the frames are free"),
    }
}

/// The table has these words at these places.
fn expect_words<B: Block>(rt: &impl Abort, words: &Words<Bare, B>, wanted: &[(usize, u64)]) {
    let count = words.table.word_count();
    for &(at, word) in wanted {
        assert!(rt; at < count, "word {at} of {count}");
        assert_eq!(rt; words.table.shared.peek(at), word, "word {at}");
    }
}

/// A page of `N` words, whose word `i` is 5, is brought into frame 0, and no second time.
fn brought_once<R: Abort, const N: usize>(rt: &R, alloc: Global, i: usize) -> Result<(), Fail>
    requires sized { IsSize N }
    requires place { i < N }
{
    let (words, mut pass) = one_page::<N>(alloc, i, 0, &[])?;
    take_both(rt, &words, &mut pass);
    let Fetch::Brought = fault_in::<Bare, MemBlock<N>, N>(&words, &mut pass, 0, 0) else {
        panic!(rt; "the page can be read");
    };
    // Word `i` of frame 0, behind a state word, a translation word and a fault word.
    expect_words(rt, &words, &[(3 + i, 5)]);
    let again = fault_in::<Bare, MemBlock<N>, N>(&words, &mut pass, 0, 1);
    let saw = Saw {
        at: At::Page(0),
        first: EVICTED_AT_1,
        seen: 1,
    };
    assert_eq!(rt; again, Fetch::Again { frame: 1, saw });
    Ok(())
}

#[test]
fn a_page_is_brought_once(rt: HostRuntime) -> Result<(), Fail> {
    brought_once::<HostRuntime, WORDS>(&rt, rt.alloc(), 63)
}

#[test]
fn a_large_page_is_brought_once(rt: HostRuntime) -> Result<(), Fail> {
    brought_once::<HostRuntime, LARGE>(&rt, rt.alloc(), 511)
}

#[test]
fn a_page_whose_block_failed_is_brought_later(rt: HostRuntime) -> Result<(), Fail> {
    let (words, mut pass) = one_page::<WORDS>(rt.alloc(), 63, 0, &[1])?;
    take_both(&rt, &words, &mut pass);
    assert_eq!(rt;
        fault_in::<Bare, MemBlock<WORDS>, WORDS>(&words, &mut pass, 0, 0),
        Fetch::Device {
            frame: 0,
            pid: 0,
            count: 1,
        }
    );
    assert_eq!(rt;
        fault_in::<Bare, MemBlock<WORDS>, WORDS>(&words, &mut pass, 0, 0),
        Fetch::Brought
    );
    expect_words(&rt, &words, &[(66, 5)]);
    Ok(())
}

#[test]
fn a_page_at_the_last_version_is_worn(rt: HostRuntime) -> Result<(), Fail> {
    let (words, mut pass) = one_page::<WORDS>(rt.alloc(), 63, 0xff_ffff_ffff_ffff, &[])?;
    take_both(&rt, &words, &mut pass);
    let worn = fault_in::<Bare, MemBlock<WORDS>, WORDS>(&words, &mut pass, 0, 1);
    assert_eq!(rt; worn, Fetch::Worn { frame: 1, pid: 0 });
    Ok(())
}

#[test]
fn a_table_of_resident_pages_has_its_words_by_the_layout(rt: HostRuntime) -> Result<(), Fail> {
    let alloc = rt.alloc();
    let mut last = PageBuf::zero();
    last.set(63, 9);
    let mut blocks = Vec::new(alloc);
    blocks.push(MemBlock::new(alloc, PageBuf::zero(), &[])?)?;
    blocks.push(MemBlock::new(alloc, last, &[])?)?;
    let (words, _pass) = resident::<MemBlock<WORDS>, WORDS>(alloc, blocks, 7)?;
    // Two state words, two translations, two fault words, 128 words of frames, a bundle, the next word, the hand, two owner words, a free-number word.
    assert_eq!(rt; words.table.word_count(), 140);
    let wanted = [
        (0, 7),
        (1, 7),
        (2, 1),
        (3, 2),
        (4, 0),
        (132, 0),
        (133, 9),
        (134, 0),
        (135, 2),
        (136, 0),
        (137, 1),
        (138, 2),
        (139, 0),
    ];
    expect_words(&rt, &words, &wanted);
    Ok(())
}

/// Its last word stands in the last word of its frame, and what comes behind the frames, behind that.
#[test]
fn a_table_of_a_large_page_has_its_words_by_the_layout(rt: HostRuntime) -> Result<(), Fail> {
    let alloc = rt.alloc();
    let mut page = PageBuf::<LARGE>::zero();
    page.set(511, 9);
    let mut blocks = Vec::new(alloc);
    blocks.push(MemBlock::new(alloc, page, &[])?)?;
    let (words, _pass) = resident::<MemBlock<LARGE>, LARGE>(alloc, blocks, 7)?;
    // A state word, a translation, a fault word, 512 words of the frame, a bundle, the next word, the hand, an owner word, a
    // free-number word.
    assert_eq!(rt; words.table.word_count(), 520);
    let wanted = [
        (0, 7),
        (1, 1),
        (2, 0),
        (513, 0),
        (514, 9),
        (515, 0),
        (516, 1),
        (517, 0),
        (518, 1),
        (519, 0),
    ];
    expect_words(&rt, &words, &wanted);
    Ok(())
}
