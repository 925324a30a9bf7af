//! A replay, and the words that a table begins with, with ample memory. The values are worked out by hand from the rules, and not taken from a run.

use std::alloc::Global;
use std::process::Abort;
use std::test::Fail;
use vm_block::MemBlock;
use vm_core::{Core, ReplayFault};
use vm_event::{CoreShape, Event, ReadIs, Seen};
use vm_owner::Bare;
use vm_page::{PageBuf, WORDS};
use vm_rule::replay_kept;
use vm_rule::words::Words;

/// The state word of an evicted page at version 0.
const EVICTED: u64 = 0xff00_0000_0000_0000;

/// An exchange that expected another word, and a look at the page.
const LOST: [Event; 2] = [
    Event::LockX {
        a: 0,
        p: 0,
        expects: EVICTED + 1,
    },
    Event::Look { a: 0, p: 0 },
];

const SEEN: [Seen; 2] = [
    Seen::Lost(EVICTED),
    Seen::Look {
        word: EVICTED,
        left: ReadIs::Closed,
    },
];

/// A page is released that nobody holds.
const ILLEGAL: [Event; 2] = [Event::Hand { a: 0 }, Event::Release { a: 0, p: 0 }];

#[test]
fn a_replay_sees_each_event_and_names_the_illegal_one(rt: HostRuntime) -> Result<(), Fail> {
    let alloc = rt.alloc();
    let mut core = Core::new(
        alloc,
        CoreShape {
            pages: 1,
            frames: 1,
            actors: 1,
            next: 1,
        },
        &[],
    )?;
    let seen = replay_kept(alloc, &mut core, &LOST)?;
    assert_eq!(rt; seen.as_slice(), SEEN.as_slice());
    let illegal = matches!(
        replay_kept(alloc, &mut core, &ILLEGAL),
        Err(ReplayFault::Illegal { index: 1 })
    );
    assert!(rt; illegal);
    Ok(())
}

/// The state word of an evicted page at version 7.
const EVICTED_AT_7: u64 = 0xff00_0000_0000_0007;

/// A table of 67 frames, whose two pages are evicted at version 7, with the number of page 1 free.
fn started(alloc: Global) -> Result<Words<Bare, MemBlock<WORDS>>, Fail> {
    let mut blocks = Vec::new(alloc);
    blocks.push(MemBlock::new(alloc, PageBuf::zero(), &[])?)?;
    blocks.push(MemBlock::new(alloc, PageBuf::zero(), &[])?)?;
    let (words, _pass) = Words::<Bare, MemBlock<WORDS>>::started(
        alloc,
        WORDS,
        67,
        2,
        7,
        blocks,
        &[1],
        &[],
    )?;
    Ok(words)
}

/// The table has these words at these places.
fn expect_words(rt: &impl Abort, words: &Words<Bare, MemBlock<WORDS>>, wanted: &[(usize, u64)]) {
    let count = words.table.word_count();
    for &(at, word) in wanted {
        assert!(rt; at < count, "word {at} of {count}");
        assert_eq!(rt; words.table.shared.peek(at), word, "word {at}");
    }
}

#[test]
fn a_started_table_has_its_words_by_the_layout(rt: HostRuntime) -> Result<(), Fail> {
    let words = started(rt.alloc())?;
    // Two state words, two translations, two fault words, 4288 words of frames, two bundles, the next word, the hand, 67 owner words, one
    // free-number word, in which the bit of page 1 is set.
    assert_eq!(rt; words.table.word_count(), 4366);
    let wanted = [
        (0, EVICTED_AT_7),
        (1, EVICTED_AT_7),
        (3, 0),
        (5, 0),
        (4293, 0),
        (4294, u64::MAX),
        (4295, 7),
        (4296, 2),
        (4297, 0),
        (4298, 0),
        (4364, 0),
        (4365, 2),
    ];
    expect_words(&rt, &words, &wanted);
    Ok(())
}
