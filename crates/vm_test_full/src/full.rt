//! A pool of 66 pages and 64 frames, where the first 64 pages have them all, with ample memory. The values are worked out by hand from the rules, and
//! not taken from a run.
ghost use Rattle.std.specs.Prelude.{◌≡◌, ◌≤◌, IfOk, None};
ghost use Rattle.vm_event.specs.Prelude.{MAX_VERSION};
ghost use Rattle.vm_step.specs.Prelude.{AreHeld, IsReadyOn, view};

use std::alloc::Global;
use std::process::Abort;
use std::test::Fail;
use vm_block::{Block, MemBlock, PageBlock};
use vm_clock::candidates;
use vm_event::MAX_VERSION;
use vm_evict::evict;
use vm_evict::report::Report;
use vm_exmap::Interface;
use vm_owner::Bare;
use vm_page::WORDS;
use vm_pool::{Bring, Pool, Shape};
use vm_rule::words::Pass;
use vm_step::{Looks, Took, lock_shared_silently};
use vm_test_pages::blocks::used_pages;
use vm_test_pages::pools::{brought, put};

/// No look.
const NONE: Looks = Looks {
    found: 0,
    again: 0,
    marked: 0,
    lost: 0,
    held: 0,
    gone: 0,
    worn: 0,
    first_worn: None,
};

/// The pool, whose pages are evicted at this version and all claimed, and its first pass.
fn pool_at(
    alloc: Global,
    version: u64,
) -> Result<(Pool<Bare, MemBlock<WORDS>, WORDS>, Pass<Bare>), Fail>
    requires { version ≤ MAX_VERSION }
    ensures pages { IfOk result (λ made. (made.0.words.table.shared.key.pages ≡ 66) × (made.0.words.table.shared.key.next ≡ 66)) }
    ensures ready { IfOk result (λ made. IsReadyOn made.0.words ⟦<MemBlock<WORDS> as Block>⟧.tells made.1) }
    ensures home { IfOk result (λ made. (view made.1).out ≡ None) }
{
    let shape = Shape {
        pages: 66,
        frames: 64,
        next: 66,
        first_version: version,
    };
    Ok(Pool::start(alloc, shape, used_pages::<WORDS>(alloc, 66)?, &[], &[])?)
}

/// Brings each of the first `n` pages, which are evicted.
fn bring_first<B: PageBlock<WORDS>>(
    pool: &Pool<Bare, B, WORDS>,
    pass: &mut Pass<Bare>,
    iface: &mut Interface,
    n: u32,
) -> Result<(), Fail>
    requires ready { IsReadyOn pool.now.words B.tells pass.old }
    requires home { (view pass.old).out ≡ None }
    requires held { AreHeld iface.old.frames (view pass.old) }
    requires pages { n ≤ pool.now.words.table.shared.key.pages }
    ensures ready { IfOk result (λ _. IsReadyOn pool.now.words B.tells pass.new) }
    ensures home { IfOk result (λ _. (view pass.new).out ≡ None) }
    ensures held { IfOk result (λ _. AreHeld iface.new.frames (view pass.new)) }
{
    if n == 0 {
        return Ok(());
    }
    bring_first(pool, pass, iface, n - 1)?;
    brought(pool, pass, iface, n - 1)?;
    Ok(())
}

/// Makes each of the first `n` pages dirty, which are resident, and not locked by anyone.
fn put_first<B: PageBlock<WORDS>>(
    pool: &Pool<Bare, B, WORDS>,
    pass: &mut Pass<Bare>,
    n: u32,
) -> Result<(), Fail>
    requires ready { IsReadyOn pool.now.words B.tells pass.old }
    requires home { (view pass.old).out ≡ None }
    requires pages { (n ≤ pool.now.words.table.shared.key.pages) × (n ≤ pool.now.words.table.shared.key.next) }
    ensures ready { IfOk result (λ _. IsReadyOn pool.now.words B.tells pass.new) }
    ensures home { IfOk result (λ _. (view pass.new).out ≡ None) }
{
    if n == 0 {
        return Ok(());
    }
    put_first(pool, pass, n - 1)?;
    put(pool, pass, n - 1, 5, 7)?;
    Ok(())
}

/// Takes a share of each of the first `n` pages, which is never given up.
fn share_first<B: PageBlock<WORDS>>(
    rt: &impl Abort,
    pool: &Pool<Bare, B, WORDS>,
    pass: &mut Pass<Bare>,
    n: u32,
)
    requires ready { IsReadyOn pool.now.words B.tells pass.old }
    requires home { (view pass.old).out ≡ None }
    requires pages { n ≤ pool.now.words.table.shared.key.pages }
    ensures ready { IsReadyOn pool.now.words B.tells pass.new }
    ensures home { (view pass.new).out ≡ None }
    ensures frames { (view pass.new).frames ≡ (view pass.old).frames }
{
    if n == 0 {
        return;
    }
    share_first(rt, pool, pass, n - 1);
    // Each page is unlocked at version 1, to which its fault-in brought it.
    match lock_shared_silently(&pool.words, pass, n - 1, 1) {
        Took::Taken => {}
        Took::Lost(_) => panic!(rt; "the page can be shared"),
    }
}

/// Two looks at each frame found its page held.
#[test]
fn no_frame_comes_free_of_shared_pages(rt: HostRuntime) -> Result<(), Fail> {
    let (pool, mut pass) = pool_at(rt.alloc(), 0)?;
    let mut iface = Interface::new(0, 1);
    bring_first(&pool, &mut pass, &mut iface, 64)?;
    share_first(&rt, &pool, &mut pass, 64);
    let looks = Looks { held: 128, ..NONE };
    let answer = pool.bring(&mut pass, &mut iface, 64);
    assert_eq!(rt; answer, Bring::Dry { looks });
    Ok(())
}

/// The first look at each frame marks its page and the second chooses it.
#[test]
fn dirty_pages_are_all_written_and_evicted(rt: HostRuntime) -> Result<(), Fail> {
    let (pool, mut pass) = pool_at(rt.alloc(), 0)?;
    let mut iface = Interface::new(0, 1);
    bring_first(&pool, &mut pass, &mut iface, 64)?;
    put_first(&pool, &mut pass, 64)?;
    let chosen = candidates(&pool.words, &mut pass, 64);
    let evicted = evict::<Bare, MemBlock<WORDS>, WORDS>(&pool.words, &mut pass, &chosen);
    let report = Report {
        freed: 64,
        written: 64,
        failed: 0,
        lost: 0,
        first_failed: None,
        looks: Looks {
            found: 64,
            marked: 64,
            ..NONE
        },
    };
    assert_eq!(rt; evicted.report, report);
    assert_eq!(rt; evicted.frames.len(), 64);
    Ok(())
}

/// Each page was brought at the last version but one, and stands at the last.
#[test]
fn no_frame_comes_free_of_worn_pages(rt: HostRuntime) -> Result<(), Fail> {
    let (pool, mut pass) = pool_at(rt.alloc(), MAX_VERSION - 1)?;
    let mut iface = Interface::new(0, 1);
    bring_first(&pool, &mut pass, &mut iface, 64)?;
    assert_eq!(rt; pool.bring(&mut pass, &mut iface, 64), Bring::Worn(0));
    Ok(())
}
