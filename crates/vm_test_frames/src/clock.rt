//! Walks over small tables, with ample memory. The values are worked out by hand from the rules, and not taken from a run.
ghost use Rattle.std.specs.Prelude.{IfOk};
ghost use Rattle.vm_step.specs.Prelude.{IsReadyOn};

use arrayvec::ArrayVec;
use std::alloc::Global;
use std::test::Fail;
use vm_block::{Block, MemBlock};
use vm_clock::candidates;
use vm_event::MAX_VERSION;
use vm_owner::Bare;
use vm_page::{PageBuf, WORDS};
use vm_rule::words::{Pass, Words};
use vm_step::{Candidates, Looks, Took, lock_shared_silently};
use vm_test_tables::resident::zero_pages;

/// The state word of a marked page at version 7.
const MARKED_7: u64 = 0xfe00_0000_0000_0007;

/// No look.
const NONE: Looks = Looks {
    found: 0,
    again: 0,
    marked: 0,
    lost: 0,
    held: 0,
    gone: 0,
    worn: 0,
    first_worn: None,
};

/// A table of one page that is evicted, and its first pass.
fn evicted_page(alloc: Global) -> Result<(Words<Bare, MemBlock<WORDS>>, Pass<Bare>), Fail>
    ensures ready { IfOk result (λ made. IsReadyOn made.0 ⟦<MemBlock<WORDS> as Block>⟧.tells made.1) }
{
    let mut blocks = Vec::new(alloc);
    blocks.push(MemBlock::new(alloc, PageBuf::zero(), &[])?)?;
    Ok(Words::started(alloc, WORDS, 1, 1, 7, blocks, &[], &[])?)
}

#[test]
fn both_pages_are_marked_and_the_first_is_chosen(rt: HostRuntime) -> Result<(), Fail> {
    let (words, mut pass) = zero_pages(rt.alloc(), 2, 7)?;
    let chosen = candidates(&words, &mut pass, 1);
    let mut list = ArrayVec::new();
    list.push((0, MARKED_7));
    let looks = Looks {
        found: 1,
        marked: 2,
        ..NONE
    };
    assert_eq!(rt; chosen, Candidates { list, looks });
    Ok(())
}

#[test]
fn a_shared_page_counts_as_held(rt: HostRuntime) -> Result<(), Fail> {
    let (words, mut pass) = zero_pages(rt.alloc(), 2, 7)?;
    let taken = matches!(lock_shared_silently(&words, &mut pass, 0, 7), Took::Taken);
    assert!(rt; taken);
    let chosen = candidates(&words, &mut pass, 1);
    let mut list = ArrayVec::new();
    list.push((1, MARKED_7));
    let looks = Looks {
        found: 1,
        marked: 1,
        held: 2,
        ..NONE
    };
    assert_eq!(rt; chosen, Candidates { list, looks });
    Ok(())
}

/// The hand was moved by 64 in between, and 64 is 1 beyond a multiple of 3.
#[test]
fn a_walk_makes_two_looks_at_each_frame(rt: HostRuntime) -> Result<(), Fail> {
    let (words, mut pass) = zero_pages(rt.alloc(), 3, 7)?;
    let first = candidates(&words, &mut pass, 64);
    let mut list = ArrayVec::new();
    list.push((0, MARKED_7));
    list.push((1, MARKED_7));
    list.push((2, MARKED_7));
    let looks = Looks {
        found: 3,
        marked: 3,
        ..NONE
    };
    assert_eq!(rt; first, Candidates { list, looks });
    let second = candidates(&words, &mut pass, 64);
    let mut list = ArrayVec::new();
    list.push((1, MARKED_7));
    list.push((2, MARKED_7));
    list.push((0, MARKED_7));
    let looks = Looks {
        found: 3,
        again: 3,
        ..NONE
    };
    assert_eq!(rt; second, Candidates { list, looks });
    Ok(())
}

#[test]
fn pages_at_the_last_version_are_not_chosen(rt: HostRuntime) -> Result<(), Fail> {
    let (words, mut pass) = zero_pages(rt.alloc(), 2, MAX_VERSION)?;
    let chosen = candidates(&words, &mut pass, 1);
    let list = ArrayVec::new();
    let looks = Looks {
        worn: 4,
        first_worn: Some(0),
        ..NONE
    };
    assert_eq!(rt; chosen, Candidates { list, looks });
    Ok(())
}

#[test]
fn frames_without_a_page_are_gone(rt: HostRuntime) -> Result<(), Fail> {
    let (words, mut pass) = evicted_page(rt.alloc())?;
    let chosen = candidates(&words, &mut pass, 1);
    let list = ArrayVec::new();
    let looks = Looks { gone: 2, ..NONE };
    assert_eq!(rt; chosen, Candidates { list, looks });
    Ok(())
}
