//! Flushes of a table of one dirty page. The values are worked out by hand from the rules, and not taken from a run.
ghost use Rattle.std.specs.Prelude.{◌≡◌, None};
ghost use Rattle.vm_step.specs.Prelude.{IsReadyOn, view};

use crate::evict::{DIRTY_IN_0, expect_words, one_page};
use std::process::Abort;
use std::test::Fail;
use vm_block::{Block, PageBlock};
use vm_evict::{Flushed, flush};
use vm_owner::Bare;
use vm_page::WORDS;
use vm_rule::words::{Pass, Words};
use vm_step::{Took, lock_exclusive};

/// The translation word of a clean page in frame 0.
const CLEAN_IN_0: u64 = 1;

/// Nothing was done.
const NOTHING: Flushed = Flushed {
    written: 0,
    failed: 0,
    busy: 0,
    first: None,
};

/// Flushes the table.
pub(crate) fn flush_all<B: PageBlock<WORDS>>(
    words: &Words<Bare, B>,
    pass: &mut Pass<Bare>,
) -> Flushed
    requires size { words.now.table.shared.key.size ≡ WORDS }
    requires ready { IsReadyOn words.now B.tells pass.old }
    requires out { (view pass.old).out ≡ None }
    ensures ready { IsReadyOn words.now B.tells pass.new }
    ensures out { (view pass.new).out ≡ None }
{
    flush::<Bare, B, WORDS>(words, pass)
}

/// Locks page 0 exclusively, which is unlocked at version 7.
fn lock_first<B: Block>(rt: &impl Abort, words: &Words<Bare, B>, pass: &mut Pass<Bare>)
    requires ready { IsReadyOn words.now B.tells pass.old }
    requires pages { words.now.table.shared.key.pages ≡ 1 }
    requires out { (view pass.old).out ≡ None }
    ensures ready { IsReadyOn words.now B.tells pass.new }
    ensures out { (view pass.new).out ≡ None }
{
    match lock_exclusive(words, pass, 0, 7) {
        Took::Taken => {}
        Took::Lost(_) => panic!(rt; "the page is unlocked"),
    }
}

#[test]
fn a_page_whose_write_failed_is_written_by_the_next_flush(rt: HostRuntime) -> Result<(), Fail> {
    let (words, mut pass) = one_page(&rt, rt.alloc(), &[2])?;
    let flushed = flush_all(&words, &mut pass);
    let failed = Flushed {
        failed: 1,
        first: Some(0),
        ..NOTHING
    };
    assert_eq!(rt; flushed, failed);
    // The page's state word, its translation word and its fault word.
    expect_words(&rt, &words, &[(0, 7), (1, DIRTY_IN_0), (2, 1)]);
    let flushed = flush_all(&words, &mut pass);
    assert_eq!(rt;
        flushed,
        Flushed {
            written: 1,
            ..NOTHING
        }
    );
    expect_words(&rt, &words, &[(0, 7), (1, CLEAN_IN_0)]);
    let flushed = flush_all(&words, &mut pass);
    assert_eq!(rt; flushed, NOTHING);
    Ok(())
}

#[test]
fn a_page_that_is_locked_is_busy(rt: HostRuntime) -> Result<(), Fail> {
    let (words, mut pass) = one_page(&rt, rt.alloc(), &[])?;
    lock_first(&rt, &words, &mut pass);
    let flushed = flush_all(&words, &mut pass);
    assert_eq!(rt; flushed, Flushed { busy: 1, ..NOTHING });
    expect_words(&rt, &words, &[(1, DIRTY_IN_0)]);
    Ok(())
}
