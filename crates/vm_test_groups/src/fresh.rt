//! Fresh pages, and groups of them, over a pool of a few evicted pages of zeros. The values are worked out by hand from the rules.
ghost use Rattle.std.specs.Prelude.{[], ◌<◌, ◌≡◌, ◌≢◌, ◌⊎◌, None};
ghost use Rattle.vm_step.specs.Prelude.{AreHeld, IsReadyOn, view};
ghost use Rattle.vm_guard.specs.Groups.{guards_of, MayReleaseAll};

use std::process::Abort;
use std::test::Fail;
use vm_block::Block;
use vm_guard::{Fresh, Group, fresh, read_word, release_group, write_two};
use vm_owner::{Bare, Owner};
use vm_page::WORDS;
use vm_rule::words::{Pass, Words};
use vm_step::Batch;
use vm_test_pages::passes::{free_frames, two_passes, zeros};

/// So many fresh pages (1 or 2), which are there.
fn given<B: Block>(
    rt: &impl Abort,
    words: &Words<Bare, B>,
    pass: &mut Pass<Bare>,
    frames: &mut Batch,
    n: u32,
) -> Group
    requires ready { IsReadyOn words.now B.tells pass.old }
    requires few { (n ≡ 1) ⊎ (n ≡ 2) }
    requires home { (view pass.old).out ≡ None }
    requires own { AreHeld frames.old (view pass.old) }
    ensures ready { IsReadyOn words.now B.tells pass.new }
    ensures home { (view pass.new).out ≡ None }
    ensures own { AreHeld frames.new (view pass.new) }
    ensures some { guards_of result ≢ [] }
    ensures may { MayReleaseAll ⟦<Bare as Owner>⟧.may_release (guards_of result) None (view pass.new) }
{
    if frames.len() < n as usize {
        panic!(rt; "there are frames");
    }
    match fresh(words, pass, frames, n) {
        Fresh::Pages(group) => group,
        Fresh::Again(_) => panic!(rt; "no page is locked"),
        Fresh::Worn(_) => panic!(rt; "no page is worn"),
        Fresh::Full { .. } => panic!(rt; "there are pages left"),
    }
}

/// The first page of a group of one or two.
fn first_page(group: &Group) -> Option<u32> {
    match group {
        Group::One(a) => Some(a.pid),
        Group::Two(a, _) => Some(a.pid),
        _ => None,
    }
}

/// Releases the group, while the pass has these frames.
fn released<B: Block>(words: &Words<Bare, B>, pass: &mut Pass<Bare>, frames: &Batch, group: Group)
    requires ready { IsReadyOn words.now B.tells pass.old }
    requires home { (view pass.old).out ≡ None }
    requires own { AreHeld frames.now (view pass.old) }
    requires some { guards_of group ≢ [] }
    requires may { MayReleaseAll ⟦<Bare as Owner>⟧.may_release (guards_of group) None (view pass.old) }
    ensures ready { IsReadyOn words.now B.tells pass.new }
    ensures home { (view pass.new).out ≡ None }
    ensures own { AreHeld frames.now (view pass.new) }
{
    release_group(words, pass, group, None);
}

/// A group of so many fresh pages, of which this is the first one, is claimed and released.
fn claimed<B: Block>(
    rt: &impl Abort,
    words: &Words<Bare, B>,
    pass: &mut Pass<Bare>,
    frames: &mut Batch,
    n: u32,
    first: u32,
)
    requires ready { IsReadyOn words.now B.tells pass.old }
    requires few { (n ≡ 1) ⊎ (n ≡ 2) }
    requires home { (view pass.old).out ≡ None }
    requires own { AreHeld frames.old (view pass.old) }
    ensures ready { IsReadyOn words.now B.tells pass.new }
    ensures home { (view pass.new).out ≡ None }
    ensures own { AreHeld frames.new (view pass.new) }
{
    let group = given(rt, words, pass, frames, n);
    assert_eq!(rt; first_page(&group), Some(first));
    released(words, pass, frames, group);
}

/// A call for so many pages (1 or 2) is refused: of so many pages, this is the next one.
fn is_full<B: Block>(
    rt: &impl Abort,
    words: &Words<Bare, B>,
    pass: &mut Pass<Bare>,
    frames: &mut Batch,
    n: u32,
    says: (u32, u32),
)
    requires ready { IsReadyOn words.now B.tells pass.old }
    requires few { (n ≡ 1) ⊎ (n ≡ 2) }
    requires home { (view pass.old).out ≡ None }
    requires own { AreHeld frames.old (view pass.old) }
    ensures ready { IsReadyOn words.now B.tells pass.new }
    ensures home { (view pass.new).out ≡ None }
    ensures own { AreHeld frames.new (view pass.new) }
{
    if frames.len() < n as usize {
        panic!(rt; "there are frames");
    }
    match fresh(words, pass, frames, n) {
        Fresh::Full { pages, next, need } => {
            assert_eq!(rt; (pages, next), says);
            assert_eq!(rt; need, n);
        }
        Fresh::Pages(_group) => panic!(rt; "no page is left"),
        Fresh::Again(_) => panic!(rt; "nobody else is there"),
        Fresh::Worn(_) => panic!(rt; "no page is worn"),
    }
}

#[test]
fn pages_are_given_until_none_is_left(rt: HostRuntime) -> Result<(), Fail> {
    let blocks = zeros::<WORDS>(rt.alloc(), 4)?;
    let (pool, mut pass, _other) = two_passes(rt.alloc(), 64, 1, blocks, &[])?;
    let words = pool.words();
    let mut frames = free_frames(words, &mut pass, 8)?;
    claimed(&rt, words, &mut pass, &mut frames, 1, 1);
    assert_eq!(rt; frames.len(), 7);
    claimed(&rt, words, &mut pass, &mut frames, 2, 2);
    assert_eq!(rt; frames.len(), 5);
    is_full(&rt, words, &mut pass, &mut frames, 1, (4, 4));
    is_full(&rt, words, &mut pass, &mut frames, 2, (4, 4));
    assert_eq!(rt; frames.len(), 5);
    Ok(())
}

#[test]
fn two_passes_claim_no_page_twice(rt: HostRuntime) -> Result<(), Fail> {
    let blocks = zeros::<WORDS>(rt.alloc(), 7)?;
    let (pool, mut pass, mut other) = two_passes(rt.alloc(), 64, 1, blocks, &[])?;
    let words = pool.words();
    let mut frames = free_frames(words, &mut pass, 8)?;
    let mut others = free_frames(words, &mut other, 8)?;
    let held = given(&rt, words, &mut pass, &mut frames, 1);
    assert_eq!(rt; first_page(&held), Some(1));
    // the other pass claims behind a page that is held
    claimed(&rt, words, &mut other, &mut others, 2, 2);
    released(words, &mut pass, &frames, held);
    claimed(&rt, words, &mut pass, &mut frames, 2, 4);
    // one page is left, and two are asked for
    is_full(&rt, words, &mut other, &mut others, 2, (7, 6));
    claimed(&rt, words, &mut other, &mut others, 1, 6);
    is_full(&rt, words, &mut pass, &mut frames, 1, (7, 7));
    is_full(&rt, words, &mut other, &mut others, 1, (7, 7));
    Ok(())
}

/// The page has this word at this place.
fn expect_word<B: Block>(
    rt: &impl Abort,
    words: &Words<Bare, B>,
    pass: &mut Pass<Bare>,
    page: u32,
    i: usize,
    word: u64,
)
    requires ready { IsReadyOn words.now B.tells pass.old }
    requires page { page < words.now.table.shared.key.pages }
    requires place { i < words.now.table.shared.key.size }
    ensures ready { IsReadyOn words.now B.tells pass.new }
{
    let found = read_word(words, pass, page, i);
    assert_eq!(rt; found, Some(word), "page {page} word {i}");
}

#[test]
fn a_group_is_read_back(rt: HostRuntime) -> Result<(), Fail> {
    let blocks = zeros::<WORDS>(rt.alloc(), 4)?;
    let (pool, mut pass, _other) = two_passes(rt.alloc(), 64, 2, blocks, &[])?;
    let words = pool.words();
    let mut frames = free_frames(words, &mut pass, 8)?;
    if frames.len() < 2 {
        panic!(rt; "there are frames");
    }
    let pages = write_two(words, &mut pass, &mut frames, 11, 12);
    assert_eq!(rt; pages, Some((2, 3)));
    expect_word(&rt, words, &mut pass, 2, 0, 11);
    expect_word(&rt, words, &mut pass, 3, 0, 12);
    expect_word(&rt, words, &mut pass, 3, 63, 0);
    Ok(())
}
