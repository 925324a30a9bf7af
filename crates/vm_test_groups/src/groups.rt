//! Groups of three pages, small and large ones, which a second pass reads before and after their release. The values are worked out by hand from the rules.
ghost use Rattle.std.specs.Prelude.{◌<◌, ◌≡◌, ◌≢◌, Bool, false, None, true, ℕ};
ghost use Rattle.vm_page.specs.{Pages.all_zero, Sizes.IsSize};
ghost use Rattle.vm_rule.specs.Prelude.{last_of};
ghost use Rattle.vm_step.specs.Prelude.{IsReadyOn, view};
ghost use Rattle.vm_guard.specs.Guards.{IsHolding};

use std::alloc::Global;
use std::process::Abort;
use std::test::Fail;
use vm_block::{Block, PageBlock};
use vm_exmap::Interface;
use vm_guard::{ExclusiveGuard, Group, read_word, release_group};
use vm_owner::Bare;
use vm_page::{LARGE, WORDS};
use vm_rule::words::{Pass, Words};
use vm_test_pages::blocks::used_pages;
use vm_test_pages::passes::two_passes;
use vm_test_pages::pool::{Bring, Pool};

/// The pages 0, 1 and 2, which are evicted, are brought in.
fn three_brought<B: PageBlock<N>, const N: usize>(
    rt: &impl Abort,
    pool: &Pool<Bare, B, N>,
    pass: &mut Pass<Bare>,
)
    requires ready { IsReadyOn pool.now.words B.tells pass.old }
    requires home { (view pass.old).out ≡ None }
    requires pages { pool.now.words.table.shared.key.pages ≡ 3 }
    ensures ready { IsReadyOn pool.now.words B.tells pass.new }
    ensures home { (view pass.new).out ≡ None }
{
    let mut iface = Interface::new(0, 1);
    assert_eq!(rt; pool.bring(pass, &mut iface, 0), Bring::Brought);
    assert_eq!(rt; pool.bring(pass, &mut iface, 1), Bring::Brought);
    assert_eq!(rt; pool.bring(pass, &mut iface, 2), Bring::Brought);
}

/// Word `i` of each of the pages 0, 1 and 2, or none where the page is locked.
fn expect_words<B: Block>(
    rt: &impl Abort,
    words: &Words<Bare, B>,
    pass: &mut Pass<Bare>,
    i: usize,
    wanted: (Option<u64>, Option<u64>, Option<u64>),
)
    requires ready { IsReadyOn words.now B.tells pass.old }
    requires pages { words.now.table.shared.key.pages ≡ 3 }
    requires place { i < words.now.table.shared.key.size }
    ensures ready { IsReadyOn words.now B.tells pass.new }
{
    let found = (
        read_word(words, pass, 0, i),
        read_word(words, pass, 1, i),
        read_word(words, pass, 2, i),
    );
    assert_eq!(rt; found, wanted);
}

/// The page, which is in use, with this word `i`. The other pages that the pass holds it holds on.
fn written<B: Block>(
    rt: &impl Abort,
    words: &Words<Bare, B>,
    pass: &mut Pass<Bare>,
    pid: u32,
    i: usize,
    word: u64,
) -> ExclusiveGuard
    requires ready { IsReadyOn words.now B.tells pass.old }
    requires home { (view pass.old).out ≡ None }
    requires page { pid < words.now.table.shared.key.pages }
    requires place { (i < words.now.table.shared.key.size) × (1 < words.now.table.shared.key.size) }
    ensures ready { IsReadyOn words.now B.tells pass.new }
    ensures home { (view pass.new).out ≡ None }
    ensures page { result.pid ≡ pid }
    ensures holds { IsHolding result.pid result.frame result.version result.dirty (view pass.new) }
    ensures used { B.tells ≡ true → all_zero (last_of (view pass.new) pid).words ≡ false }
    ensures others { (q f v : ℕ) (d : Bool) → q ≢ pid → IsHolding q f v d (view pass.old)
        → IsHolding q f v d (view pass.new) × (last_of (view pass.new) q ≡ last_of (view pass.old) q) }
{
    let Ok(mut guard) = ExclusiveGuard::take(words, pass, pid) else {
        panic!(rt; "the page is free");
    };
    if guard.read(words, pass, 1) == 0 {
        panic!(rt; "the page is in use");
    }
    guard.set(words, pass, i, word);
    guard
}

/// Releases the pages 2, 0 and 1 together, which are in use.
fn released<B: Block>(
    words: &Words<Bare, B>,
    pass: &mut Pass<Bare>,
    a: ExclusiveGuard,
    b: ExclusiveGuard,
    c: ExclusiveGuard,
)
    requires ready { IsReadyOn words.now B.tells pass.old }
    requires home { (view pass.old).out ≡ None }
    requires used { B.tells ≡ true → (all_zero (last_of (view pass.old) 2).words ≡ false) × (all_zero (last_of (view pass.old) 0).words ≡ false)
        × (all_zero (last_of (view pass.old) 1).words ≡ false) }
    requires pages { (a.pid ≡ 2) × (b.pid ≡ 0) × (c.pid ≡ 1) }
    requires first { IsHolding a.pid a.frame a.version a.dirty (view pass.old) }
    requires second { IsHolding b.pid b.frame b.version b.dirty (view pass.old) }
    requires third { IsHolding c.pid c.frame c.version c.dirty (view pass.old) }
    ensures ready { IsReadyOn words.now B.tells pass.new }
{
    release_group(words, pass, Group::Three(a, b, c), None);
}

/// A group of three pages of `N` words, of which only the second is not 0, is released with word `i` of each written.
fn group_of_three<R: Abort, const N: usize>(rt: &R, alloc: Global, i: usize) -> Result<(), Fail>
    requires sized { IsSize N }
    requires place { (i < N) × (1 < N) }
{
    let blocks = used_pages::<N>(alloc, 3)?;
    let (pool, mut pass, mut other) = two_passes(alloc, 64, 3, blocks, &[])?;
    three_brought(rt, &pool, &mut pass);
    let words = pool.words();
    let before = (Some(0), Some(0), Some(0));
    expect_words(rt, words, &mut other, i, before);
    let a = written(rt, words, &mut pass, 2, i, 12);
    let b = written(rt, words, &mut pass, 0, i, 10);
    // a page that is not locked yet has its old word
    let old = read_word(words, &mut other, 1, i);
    assert_eq!(rt; old, Some(0));
    let c = written(rt, words, &mut pass, 1, i, 11);
    let meanwhile = (None, None, None);
    expect_words(rt, words, &mut other, i, meanwhile);
    released(words, &mut pass, a, b, c);
    let after = (Some(10), Some(11), Some(12));
    expect_words(rt, words, &mut other, i, after);
    Ok(())
}

#[test]
fn a_group_of_three_is_seen_whole(rt: HostRuntime) -> Result<(), Fail> {
    group_of_three::<HostRuntime, WORDS>(&rt, rt.alloc(), 0)
}

/// Their last words.
#[test]
fn a_group_of_three_large_pages_is_seen_whole(rt: HostRuntime) -> Result<(), Fail> {
    group_of_three::<HostRuntime, LARGE>(&rt, rt.alloc(), 511)
}
