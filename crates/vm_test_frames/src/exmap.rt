//! Interfaces over a table whose frames are all free, with ample memory. The values are worked out by hand from the rules, and not taken
//! from a run.
ghost use Rattle.std.specs.Prelude.{◌≤◌, IfOk, true};
ghost use Rattle.vm_step.specs.Prelude.{AreHeld, IsReadyOn, view};

use std::alloc::Global;
use std::process::Abort;
use std::test::Fail;
use vm_block::{Block, MemBlock};
use vm_exmap::{Alloc, AllocOne, Interface};
use vm_owner::Bare;
use vm_page::{PageBuf, WORDS};
use vm_rule::words::{Pass, Words};

/// A table of one evicted page and so many free frames (1 to 65536), and its first pass.
fn free_frames(
    alloc: Global,
    frames: u32,
) -> Result<(Words<Bare, MemBlock<WORDS>>, Pass<Bare>), Fail>
    requires { (1 ≤ frames) × (frames ≤ 65536) }
    ensures { IfOk result (λ made. IsReadyOn made.0 true made.1) }
{
    let mut blocks = Vec::new(alloc);
    blocks.push(MemBlock::new(alloc, PageBuf::zero(), &[])?)?;
    Ok(Words::started(alloc, WORDS, frames, 1, 0, blocks, &[], &[])?)
}

#[test]
fn frames_that_one_interface_gives_back_another_takes(rt: HostRuntime) -> Result<(), Fail> {
    let (words, mut pass) = free_frames(rt.alloc(), 64)?;
    let mut first = Interface::new(0, 64);
    let mut second = Interface::new(0, 64);
    let Alloc::Batch(all) = first.alloc(&words, &mut pass, 64) else {
        panic!(rt; "all frames are free");
    };
    let count = all.len();
    assert_eq!(rt; count, 64);
    let Alloc::Dry = second.alloc(&words, &mut pass, 1) else {
        panic!(rt; "no frame is free");
    };
    first.free(&words, &mut pass, all);
    first.give_all(&words, &mut pass);
    let Alloc::Batch(again) = second.alloc(&words, &mut pass, 64) else {
        panic!(rt; "all frames are free again");
    };
    let count = again.len();
    assert_eq!(rt; count, 64);
    Ok(())
}

#[test]
fn a_walk_begins_at_its_home_and_takes_the_lowest_bits(rt: HostRuntime) -> Result<(), Fail> {
    let (words, mut pass) = free_frames(rt.alloc(), 128)?;
    let mut frames = Interface::new(3, 4);
    let Alloc::Batch(two) = frames.alloc(&words, &mut pass, 2) else {
        panic!(rt; "frames are free");
    };
    let lowest = two.as_slice() == [64, 65].as_slice();
    assert!(rt; lowest);
    let Alloc::Batch(others) = frames.alloc(&words, &mut pass, 8) else {
        panic!(rt; "frames are left");
    };
    let next = others.as_slice() == [66, 67].as_slice();
    assert!(rt; next);
    Ok(())
}

/// The interface gives one frame, which is this.
fn expect_one(
    rt: &impl Abort,
    words: &Words<Bare, MemBlock<WORDS>>,
    pass: &mut Pass<Bare>,
    iface: &mut Interface,
    wanted: u32,
)
    requires ready { IsReadyOn words.now true pass.old }
    requires frames { AreHeld iface.old.frames (view pass.old) }
    ensures ready { IsReadyOn words.now true pass.new }
    ensures frames { AreHeld iface.new.frames (view pass.new) }
{
    let AllocOne::Frame(frame) = iface.alloc_one(words, pass) else {
        panic!(rt; "frame {wanted} is free");
    };
    assert_eq!(rt; frame, wanted);
}

#[test]
fn one_frame_is_the_first_that_a_batch_would_have(rt: HostRuntime) -> Result<(), Fail> {
    let (words, mut pass) = free_frames(rt.alloc(), 128)?;
    let mut frames = Interface::new(3, 2);
    expect_one(&rt, &words, &mut pass, &mut frames, 64);
    // The interface has one more.
    expect_one(&rt, &words, &mut pass, &mut frames, 65);
    expect_one(&rt, &words, &mut pass, &mut frames, 66);
    let kept = frames.frames.as_slice() == [67].as_slice();
    assert!(rt; kept);
    Ok(())
}

#[test]
fn no_frame_is_left_after_the_only_one(rt: HostRuntime) -> Result<(), Fail> {
    let (words, mut pass) = free_frames(rt.alloc(), 1)?;
    let mut frames = Interface::new(0, 64);
    expect_one(&rt, &words, &mut pass, &mut frames, 0);
    let AllocOne::Dry = frames.alloc_one(&words, &mut pass) else {
        panic!(rt; "no frame is left");
    };
    Ok(())
}
