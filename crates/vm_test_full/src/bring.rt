//! Pages that are brought into a pool of two pages and one frame, with ample memory. The values are worked out by hand from the rules, and not
//! taken from a run.
ghost use Rattle.std.specs.Prelude.{◌≡◌, ◌≤◌, IfOk, None};
ghost use Rattle.vm_event.specs.Prelude.{MAX_VERSION};
ghost use Rattle.vm_step.specs.Prelude.{IsReadyOn, view};

use std::alloc::Global;
use std::process::Abort;
use std::test::Fail;
use vm_block::{Block, MemBlock};
use vm_exmap::Interface;
use vm_owner::Bare;
use vm_page::{PageBuf, WORDS};
use vm_pool::{Bring, Pool, Shape};
use vm_rule::words::Pass;
use vm_step::Looks;

/// The place of the last word of the frame, behind two state words, two translation words and two fault words.
const LAST: usize = 69;

/// A pool of two pages evicted at this version, whose last words are 5 and 6, with one frame; the block of the first page has this plan.
fn two_pages(
    alloc: Global,
    version: u64,
    plan: &[u64],
) -> Result<(Pool<Bare, MemBlock<WORDS>, WORDS>, Pass<Bare>), Fail>
    requires { version ≤ MAX_VERSION }
    ensures pages { IfOk result (λ made. made.0.words.table.shared.key.pages ≡ 2) }
    ensures ready { IfOk result (λ made. IsReadyOn made.0.words ⟦<MemBlock<WORDS> as Block>⟧.tells made.1) }
    ensures out { IfOk result (λ made. (view made.1).out ≡ None) }
{
    let mut first = PageBuf::zero();
    first.set(63, 5);
    let mut second = PageBuf::zero();
    second.set(63, 6);
    let mut blocks = Vec::new(alloc);
    blocks.push(MemBlock::new(alloc, first, plan)?)?;
    blocks.push(MemBlock::new(alloc, second, &[])?)?;
    let shape = Shape {
        pages: 2,
        frames: 1,
        next: 2,
        first_version: version,
    };
    Ok(Pool::start(alloc, shape, blocks, &[], &[])?)
}

/// The last word of the frame is this.
fn expect_last(rt: &impl Abort, pool: &Pool<Bare, MemBlock<WORDS>, WORDS>, word: u64) {
    let table = &pool.words().table;
    assert!(rt; LAST < table.word_count());
    assert_eq!(rt; table.shared.peek(LAST), word);
}

#[test]
fn a_page_takes_the_frame_of_another(rt: HostRuntime) -> Result<(), Fail> {
    let (pool, mut pass) = two_pages(rt.alloc(), 0, &[])?;
    let mut iface = Interface::new(0, 1);
    assert_eq!(rt; pool.bring(&mut pass, &mut iface, 0), Bring::Brought);
    expect_last(&rt, &pool, 5);
    assert_eq!(rt; iface.swept(), 0);
    assert_eq!(rt; pool.bring(&mut pass, &mut iface, 1), Bring::Brought);
    expect_last(&rt, &pool, 6);
    assert_eq!(rt; iface.swept(), 1);
    Ok(())
}

#[test]
fn a_frame_comes_back_from_a_read_that_failed(rt: HostRuntime) -> Result<(), Fail> {
    let (pool, mut pass) = two_pages(rt.alloc(), 0, &[1])?;
    let mut iface = Interface::new(0, 1);
    let failed = pool.bring(&mut pass, &mut iface, 0);
    assert_eq!(rt; failed, Bring::Device { pid: 0, count: 1 });
    let kept = iface.frames.len();
    assert_eq!(rt; kept, 1);
    assert_eq!(rt; pool.bring(&mut pass, &mut iface, 0), Bring::Brought);
    expect_last(&rt, &pool, 5);
    Ok(())
}

#[test]
fn a_count_of_faults_stands_still_at_its_last_value(rt: HostRuntime) -> Result<(), Fail> {
    let alloc = rt.alloc();
    let count = u64::MAX;
    let mut blocks = Vec::new(alloc);
    blocks.push(MemBlock::with_count(alloc, PageBuf::zero(), &[1], count)?)?;
    let shape = Shape {
        pages: 1,
        frames: 1,
        next: 1,
        first_version: 0,
    };
    let (pool, mut pass) = Pool::<Bare, MemBlock<WORDS>, WORDS>::start(
        alloc,
        shape,
        blocks,
        &[],
        &[],
    )?;
    let mut iface = Interface::new(0, 1);
    let failed = pool.bring(&mut pass, &mut iface, 0);
    assert_eq!(rt; failed, Bring::Device { pid: 0, count });
    Ok(())
}

#[test]
fn an_evicted_page_at_the_last_version_is_worn(rt: HostRuntime) -> Result<(), Fail> {
    let (pool, mut pass) = two_pages(rt.alloc(), 0xff_ffff_ffff_ffff, &[])?;
    let mut iface = Interface::new(0, 1);
    assert_eq!(rt; pool.bring(&mut pass, &mut iface, 1), Bring::Worn(1));
    Ok(())
}

#[test]
fn no_frame_is_free_while_another_interface_has_it(rt: HostRuntime) -> Result<(), Fail> {
    let (pool, mut pass) = two_pages(rt.alloc(), 0, &[])?;
    let mut other = Interface::new(0, 1);
    let all = other.alloc(pool.words(), &mut pass, 1);
    drop(all);
    let mut iface = Interface::new(0, 1);
    let looks = Looks {
        found: 0,
        again: 0,
        marked: 0,
        lost: 0,
        held: 0,
        gone: 2,
        worn: 0,
        first_worn: None,
    };
    let answer = pool.bring(&mut pass, &mut iface, 0);
    assert_eq!(rt; answer, Bring::Dry { looks });
    Ok(())
}
