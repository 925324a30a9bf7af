//! Scripts of events, with what each sees.

use super::{EVICTED, MARKED, Row, SHARE, core, plays, row};
use std::alloc::Global;
use std::process::Abort;
use std::test::Fail;
use vm_core::{Core, ReplayFault, replay};
use vm_event::{Event, ReadIs, Seen};

/// Actor 0 locks page 0 and reads its block.
const READS_PAGE_0: [Row; 3] = [
    row!(Seen::Taken; Take, a = 0, g = 0, expects = 3, mask = 1),
    row!(Seen::Taken; LockX, a = 0, p = 0, expects = EVICTED),
    row!(Seen::Done; Read, a = 0, p = 0),
];
/// It puts the frame that it has filled under the page, whose it is then, and releases it. Actor 1 begins an optimistic read.
const SHOWS_PAGE_0: [Row; 5] = [
    row!(Seen::Done; Install, a = 0, p = 0, f = 0),
    row!(Seen::Done; Own, a = 0, p = 0),
    row!(Seen::Done; Release, a = 0, p = 0),
    row!(saw 1, Opened; Look, a = 1, p = 0),
    row!(Seen::Word(1); TLoad, a = 1, p = 0),
];
/// Actor 0 evicts page 0, locks page 1 and reads its block.
const READS_PAGE_1: [Row; 6] = [
    row!(Seen::Taken; LockX, a = 0, p = 0, expects = 1),
    row!(Seen::Done; Disown, a = 0, p = 0),
    row!(Seen::Done; Clear, a = 0, p = 0),
    row!(Seen::Done; ReleaseE, a = 0, p = 0),
    row!(Seen::Taken; LockX, a = 0, p = 1, expects = EVICTED),
    row!(Seen::Done; Read, a = 0, p = 1),
];
/// It puts the same frame under page 1.
const SHOWS_PAGE_1: [Row; 3] = [
    row!(Seen::Done; Install, a = 0, p = 1, f = 0),
    row!(Seen::Done; Own, a = 0, p = 1),
    row!(Seen::Done; Release, a = 0, p = 1),
];
/// The open read of actor 1 ends.
const ENDS: [Row; 1] = [row!(saw EVICTED + 2, Closed; Look, a = 1, p = 0)];

/// The words of page `p`'s block are stored into frame 0.
fn fill(rows: &mut Vec<Row>, p: u8) -> Result<(), Fail> {
    for i in 0..64u32 {
        let w = 64 * u64::from(p) + u64::from(i);
        rows.push(row!(Seen::Done; Store, a = 0, f = 0, i = i, w = w))?;
    }
    Ok(())
}

/// A reader whose page was evicted loads the words of the page that has its frame now, and its next look closes the read.
#[test]
fn a_frame_is_reused_under_a_read(rt: HostRuntime) -> Result<(), Fail> {
    let alloc = rt.alloc();
    let mut rows = Vec::new(alloc);
    rows.extend_from_slice(&READS_PAGE_0)?;
    fill(&mut rows, 0)?;
    rows.extend_from_slice(&SHOWS_PAGE_0)?;
    rows.extend_from_slice(&READS_PAGE_1)?;
    fill(&mut rows, 1)?;
    rows.extend_from_slice(&SHOWS_PAGE_1)?;
    for i in 0..64u32 {
        rows.push(row!(Seen::Word(64 + u64::from(i)); Load, a = 1, p = 0, i = i))?;
    }
    rows.extend_from_slice(&ENDS)?;
    assert_eq!(rt; rows.len(), 210);
    let mut core = core(alloc, 2, 2, 2)?;
    plays(&rt, alloc, &mut core, &rows)
}

/// An exchange that expected another word changes nothing and sees the word found.
const LOSES: [Row; 2] = [
    row!(Seen::Lost(EVICTED); LockX, a = 0, p = 0, expects = EVICTED + 1),
    row!(saw EVICTED, Closed; Look, a = 0, p = 0),
];

/// A lost exchange and an event that may not happen change nothing.
#[test]
fn what_changes_nothing(rt: HostRuntime) -> Result<(), Fail> {
    let alloc = rt.alloc();
    let mut core = core(alloc, 1, 1, 1)?;
    let refused = replay(alloc, &mut core, &[Event::Release { a: 0, p: 0 }]);
    assert!(rt; matches!(refused, Err(ReplayFault::Illegal { index: 0 })));
    plays(&rt, alloc, &mut core, &LOSES)
}

/// Actor 0 brings page 1, whose block has zeros as the frame has, after a read that failed, and writes a word. Actor 1 shares its lock.
const WRITES: [Row; 14] = [
    row!(Seen::Word(3); BLoad, a = 1, g = 0),
    row!(Seen::Lost(3); Take, a = 0, g = 0, expects = 1, mask = 1),
    row!(Seen::Taken; Take, a = 0, g = 0, expects = 3, mask = 3),
    row!(Seen::Word(0); Give, a = 0, g = 0, mask = 2),
    row!(Seen::Taken; LockX, a = 0, p = 1, expects = EVICTED),
    row!(Seen::Word(1); RFail, a = 0, p = 1),
    row!(Seen::Done; Raise, a = 0, p = 1),
    row!(Seen::Done; Install, a = 0, p = 1, f = 0),
    row!(Seen::Done; Own, a = 0, p = 1),
    row!(Seen::Done; Dirty, a = 0, p = 1),
    row!(Seen::Done; Store, a = 0, f = 0, i = 9, w = 77),
    row!(Seen::Word(0x8000_0000_0000_0001); TLoad, a = 1, p = 1),
    row!(Seen::Done; Downgrade, a = 0, p = 1),
    row!(Seen::Taken; LockS, a = 1, p = 1, expects = SHARE + 1),
];
/// Both give up their shares. Actor 0 marks the page, writes it back after a write that failed, and upgrades.
const WRITES_BACK: [Row; 13] = [
    row!(Seen::Word(77); Load, a = 1, p = 1, i = 9),
    row!(Seen::Word(2 * SHARE + 1); UnlockS, a = 0, p = 1),
    row!(Seen::Word(SHARE + 1); UnlockS, a = 1, p = 1),
    row!(Seen::Taken; Mark, a = 0, p = 1, expects = 1),
    row!(Seen::Taken; Unmark, a = 1, p = 1, expects = MARKED + 1),
    row!(Seen::Taken; Mark, a = 0, p = 1, expects = 1),
    row!(Seen::Taken; LockW, a = 0, p = 1, expects = MARKED + 1),
    row!(Seen::Word(2); WFail, a = 0, p = 1),
    row!(Seen::Done; Raise, a = 0, p = 1),
    row!(Seen::Done; Write, a = 0, p = 1),
    row!(Seen::Done; Clean, a = 0, p = 1),
    row!(Seen::Taken; Upgrade, a = 0, p = 1, expects = SHARE + 1),
    row!(Seen::Word(1); TLoad, a = 1, p = 1),
];
/// It claims the page's number and releases the page. Actor 1 reads it twice, and once more after the next release.
const CLAIMS: [Row; 11] = [
    row!(Seen::Word(1); NLoad, a = 1),
    row!(Seen::Taken; Claim, a = 0, x = 1, n = 1),
    row!(Seen::Lost(2); Claim, a = 0, x = 1, n = 1),
    row!(Seen::Done; Release, a = 0, p = 1),
    row!(saw 2, Opened; Look, a = 1, p = 1),
    row!(saw 2, Same; Look, a = 1, p = 1),
    row!(Seen::Taken; LockX, a = 0, p = 1, expects = 2),
    row!(Seen::Done; Release, a = 0, p = 1),
    row!(saw 3, Moved; Look, a = 1, p = 1),
    row!(Seen::Word(0); Hand, a = 0),
    row!(Seen::Word(64); Hand, a = 1),
];

/// Actor 0 locks the page and says that the frame is no page's, and then that it is the page's. Both read that.
const OWNS: [Row; 8] = [
    row!(Seen::Word(2); OLoad, a = 1, f = 0),
    row!(Seen::Taken; LockX, a = 0, p = 1, expects = 3),
    row!(Seen::Done; Disown, a = 0, p = 1),
    row!(Seen::Word(0); OLoad, a = 1, f = 0),
    row!(Seen::Done; Own, a = 0, p = 1),
    row!(Seen::Word(2); OLoad, a = 1, f = 0),
    row!(Seen::Word(0); OLoad, a = 1, f = 1),
    row!(Seen::Word(2); OLoad, a = 0, f = 0),
];

/// It gives both pages' numbers, takes that of the page back, and releases the page, whose words are not all 0: so it holds its number no more,
/// and actor 1 may give it.
const NUMBERS: [Row; 7] = [
    row!(Seen::Word(0); PGive, a = 0, g = 0, mask = 3),
    row!(Seen::Word(3); PBLoad, a = 1, g = 0),
    row!(Seen::Taken; PTake, a = 0, g = 0, expects = 3, mask = 2),
    row!(Seen::Lost(1); PTake, a = 1, g = 0, expects = 3, mask = 1),
    row!(Seen::Done; Release, a = 0, p = 1),
    row!(Seen::Word(1); PGive, a = 1, g = 0, mask = 2),
    row!(Seen::Word(3); PBLoad, a = 0, g = 0),
];

/// The page is written and written back.
fn play_writes(rt: &impl Abort, alloc: Global, core: &mut Core) -> Result<(), Fail> {
    plays(rt, alloc, core, &WRITES)?;
    plays(rt, alloc, core, &WRITES_BACK)
}

/// Its number is claimed, its frame gets and loses it, and the numbers are given and taken.
fn play_numbers(rt: &impl Abort, alloc: Global, core: &mut Core) -> Result<(), Fail> {
    plays(rt, alloc, core, &CLAIMS)?;
    plays(rt, alloc, core, &OWNS)?;
    plays(rt, alloc, core, &NUMBERS)
}

/// Each event that the first script lacks.
#[test]
fn a_page_is_written_back(rt: HostRuntime) -> Result<(), Fail> {
    let alloc = rt.alloc();
    let mut core = core(alloc, 2, 2, 1)?;
    play_writes(&rt, alloc, &mut core)?;
    play_numbers(&rt, alloc, &mut core)?;
    assert_eq!(rt; core.shape().pages, 2);
    assert_eq!(rt; core.block_word(1, 9), 77);
    Ok(())
}

/// Actor 0 gives the number of page 1 and takes it again.
const TAKES_NUMBER: [Row; 3] = [
    row!(Seen::Word(0); PGive, a = 0, g = 0, mask = 2),
    row!(Seen::Taken; PTake, a = 0, g = 0, expects = 2, mask = 2),
    row!(Seen::Word(0); PBLoad, a = 1, g = 0),
];
/// It brings the page, whose block has zeros as the frame has, and releases it: it holds its number yet, and gives and takes it once more.
const LEAVES_ZEROS: [Row; 7] = [
    row!(Seen::Taken; Take, a = 0, g = 0, expects = 3, mask = 1),
    row!(Seen::Taken; LockX, a = 0, p = 1, expects = EVICTED),
    row!(Seen::Done; Install, a = 0, p = 1, f = 0),
    row!(Seen::Done; Own, a = 0, p = 1),
    row!(Seen::Done; Release, a = 0, p = 1),
    row!(Seen::Word(0); PGive, a = 0, g = 0, mask = 2),
    row!(Seen::Taken; PTake, a = 0, g = 0, expects = 2, mask = 2),
];
/// It writes a word and leaves the page with a share: it holds the number no more, and actor 1 may give it.
const LEAVES_A_WORD: [Row; 6] = [
    row!(Seen::Taken; LockX, a = 0, p = 1, expects = 1),
    row!(Seen::Done; Dirty, a = 0, p = 1),
    row!(Seen::Done; Store, a = 0, f = 0, i = 63, w = 1),
    row!(Seen::Done; Downgrade, a = 0, p = 1),
    row!(Seen::Word(0); PGive, a = 1, g = 0, mask = 2),
    row!(Seen::Word(2); PBLoad, a = 0, g = 0),
];

/// Actor 1 may not give the number of page 1, and the machine stays as it was.
fn another_may_not_give(alloc: Global, core: &mut Core) -> bool {
    let gives = [Event::PGive {
        a: 1,
        g: 0,
        mask: 2,
    }];
    matches!(
        replay(alloc, core, &gives),
        Err(ReplayFault::Illegal { index: 0 })
    )
}

/// Nobody else may give a number that an actor holds, until it leaves the page with words that are not all 0.
#[test]
fn a_number_is_held(rt: HostRuntime) -> Result<(), Fail> {
    let alloc = rt.alloc();
    let mut core = core(alloc, 2, 2, 1)?;
    plays(&rt, alloc, &mut core, &TAKES_NUMBER)?;
    let before = another_may_not_give(alloc, &mut core);
    assert!(rt; before);
    plays(&rt, alloc, &mut core, &LEAVES_ZEROS)?;
    let after = another_may_not_give(alloc, &mut core);
    assert!(rt; after);
    plays(&rt, alloc, &mut core, &LEAVES_A_WORD)
}
