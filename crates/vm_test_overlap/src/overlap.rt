//! A call is made and answered while another worker's device is being read: no lock is round the calls, or round the tree.
ghost use Rattle.std.specs.Prelude.{◌≡◌, ◌≤◌, false, IfOk, length};
ghost use Rattle.vm_rule.specs.Prelude.{HoldsNoPage, IsWhole};
ghost use Rattle.vm_step.specs.Prelude.{IsReadyOn, view};

use std::alloc::Global;
use std::sync::atomic::{AtomicBool, Ordering};
use std::test::Fail;
use vm_block::{Block, Failed, MemBlock, PageBlock};
use vm_drive_callers::calls::two_lists;
use vm_drive_callers::drive::{Gate, Short, drive};
use vm_drive_callers::gates::wait_for;
use vm_drive_callers::trees::two_leaves;
use vm_image::{Image, blocks_of};
use vm_map::call::Call;
use vm_page::{PageBuf, WORDS};
use vm_pool::{Pool, Shape};
use vm_rule::words::Pass;
use vm_tree_rule::Tree;

/// What a block and a gate tell each other, and whether each saw what it waited for before its turns ended.
#[derive(Drop)]
struct Signals {
    is_reading: AtomicBool,
    is_answered: AtomicBool,
    gate_saw: AtomicBool,
    block_saw: AtomicBool,
}

impl Signals {
    fn new() -> Signals {
        Signals {
            is_reading: AtomicBool::new(false),
            is_answered: AtomicBool::new(false),
            gate_saw: AtomicBool::new(false),
            block_saw: AtomicBool::new(false),
        }
    }
}

/// The gate holds call 1 of worker 1 until the block is being read.
impl Gate for Signals {
    fn before(&self, worker: u32, call: u32) {
        if worker == 1 && call == 1 {
            wait_for(&self.is_reading, &self.gate_saw);
        }
    }

    fn after(&self, worker: u32, call: u32) {
        if worker == 1 && call == 1 {
            self.is_answered.store(true, Ordering::SeqCst);
        }
    }
}

/// A block in memory whose first read, where it has signals, is held until the gate saw call 1 of worker 1 answered. It tells contracts no
/// words.
#[derive(Drop)]
struct Held<'a> {
    inner: MemBlock<WORDS>,
    signals: Option<&'a Signals>,
}

impl<'a> Block for Held<'a> {
    ghost use Rattle.std.specs.Prelude.{false};
    ghost use Rattle.std.proofs.Common.{arith};
    ghost use Rattle.vm_rule.specs.Prelude.{stored_of};

    ghost tells = { false };

    ghost stored = { λ block. stored_of block.inner };

    fn reads(&self) -> u64 {
        self.inner.reads()
    }

    fn writes(&self) -> u64 {
        self.inner.writes()
    }

    fn faults(&self) -> u64 {
        self.inner.faults()
    }

    ghost bounded = { λ block. block.inner.plan.within };

    ghost capped = { λ block. Prim.omega arith };
}

impl<'a> PageBlock<WORDS> for Held<'a> {
    fn read(&mut self, into: &mut PageBuf<WORDS>) -> Result<(), Failed> {
        if let Some(signals) = self.signals {
            if self.inner.reads() == 0 {
                signals.is_reading.store(true, Ordering::SeqCst);
                wait_for(&signals.is_answered, &signals.block_saw);
            }
        }
        self.inner.read(into)
    }

    fn write(&mut self, words: &PageBuf<WORDS>) -> Result<(), Failed> {
        self.inner.write(words)
    }

    ghost whole = { λ block tells. cc };
}

/// A block for each page of the image; that of page 1 has the signals.
fn held_blocks<'a>(
    alloc: Global,
    image: &Image<WORDS>,
    signals: &'a Signals,
) -> Result<Vec<Held<'a>>, Fail>
    ensures { IfOk result (λ blocks. length blocks.items ≡ length image.now) }
{
    let mut blocks = Vec::new(alloc);
    for inner in blocks_of(alloc, image, &[])? {
        let signals = if blocks.len() == 1 {
            Some(signals)
        } else {
            None
        };
        blocks.push(Held { inner, signals })?;
    }
    Ok(blocks)
}

/// A pool over the image, with 64 frames, and its first pass; the block of page 1 has the signals.
fn open_held<'a>(
    alloc: Global,
    image: &Image<WORDS>,
    signals: &'a Signals,
) -> Result<(Pool<Tree, Held<'a>, WORDS>, Pass<Tree>), Fail>
    ensures pages { IfOk result (λ made. 1 ≤ made.0.words.table.shared.key.pages) }
    ensures frames { IfOk result (λ made. made.0.words.frames ≡ 64) }
    ensures ready { IfOk result (λ made. IsReadyOn made.0.words false made.1) }
    ensures whole { IfOk result (λ made. IsWhole (view made.1)) }
    ensures holds { IfOk result (λ made. HoldsNoPage (view made.1)) }
    ensures fresh { IfOk result (λ made. 2 ≤ length (view made.1).fresh) }
{
    let shape = Shape {
        pages: image.pages(),
        frames: 64,
        next: image.next(),
        first_version: 0,
    };
    let blocks = held_blocks(alloc, image, signals)?;
    Ok(Pool::start(alloc, shape, blocks, &[], &[])?)
}

/// Worker 0 puts on the leaf of page 1, whose read is held, and worker 1 on that of page 2.
#[test]
fn a_call_ends_while_a_page_is_read(rt: HostRuntime) -> Result<(), Fail> {
    let alloc = rt.alloc();
    let signals = Signals::new();
    let image = two_leaves(alloc)?;
    let (pool, mut pass) = open_held(alloc, &image, &signals)?;
    let first = Call::Put { key: 1, value: 10 };
    let second = Call::Put { key: 20, value: 9 };
    let lists = two_lists(alloc, &[first], &[second])?;
    let driven = drive(&rt, alloc, &pool, &mut pass, lists.as_slice(), &signals)?;
    let [first, second] = driven.kept.as_slice() else {
        return Err(Fail::from("two lists of replies"));
    };
    assert!(rt; first.short.as_slice() == [Short::Was(Some(1))].as_slice());
    assert!(rt; second.short.as_slice() == [Short::Was(Some(20))].as_slice());
    assert!(rt; signals.gate_saw.load(Ordering::SeqCst));
    assert!(rt; signals.block_saw.load(Ordering::SeqCst));
    Ok(())
}
