//! Each way in which an event may not happen.

use super::{EVICTED, LAST, LOCKED, MARKED, SHARE, core, event};
use std::alloc::Global;
use std::process::Abort;
use std::test::Fail;
use vm_core::{ReplayFault, replay};
use vm_event::Event;

/// Actor 0 takes frame 0, locks page 1, whose block has zeros as the frame has, puts the frame under it, says that it is the page's, writes into it,
/// releases it, and has it under write-back at last. A case begins with so many of these events.
const WAY: [Event; 9] = [
    event!(Take, a = 0, g = 0, expects = 3, mask = 1),
    event!(LockX, a = 0, p = 1, expects = EVICTED),
    event!(Install, a = 0, p = 1, f = 0),
    event!(Own, a = 0, p = 1),
    event!(Dirty, a = 0, p = 1),
    event!(Store, a = 0, f = 0, i = 5, w = 7),
    event!(Release, a = 0, p = 1),
    event!(Mark, a = 0, p = 1, expects = 1),
    event!(LockW, a = 0, p = 1, expects = MARKED + 1),
];

/// Nothing has happened.
const NOTHING: usize = 0;
/// Actor 0 holds frame 0.
const FRAME: usize = 1;
/// It holds page 1 exclusively too.
const LOCK: usize = 2;
/// The frame is under the page.
const CLEAN: usize = 3;
/// The frame is the page's.
const OWNED: usize = 4;
/// The page is dirty.
const DIRTY: usize = 5;
/// The page is unlocked, with a word written.
const RELEASED: usize = 7;
/// The page is under write-back.
const WRITING: usize = 9;

/// How many events of the way come first, perhaps one more event, and the event that may not happen then.
type Case = (usize, Option<Event>, Event);

macro_rules! case {
    ($steps:expr; $name:ident, $($field:ident = $value:expr),*) => { ($steps, None, Event::$name { $($field: $value),* }) };
    ($steps:expr; $more:ident, $($with:ident = $of:expr),*; $name:ident, $($field:ident = $value:expr),*) => {
        ($steps, Some(Event::$more { $($with: $of),* }), Event::$name { $($field: $value),* })
    };
}

/// Events on a state word.
const ON_WORDS: [Case; 15] = [
    case!(NOTHING; LockX, a = 0, p = 0, expects = SHARE),
    case!(NOTHING; LockX, a = 0, p = 0, expects = LOCKED),
    case!(NOTHING; LockX, a = 0, p = 0, expects = EVICTED + LAST),
    case!(NOTHING; LockS, a = 0, p = 0, expects = 252 * SHARE),
    case!(NOTHING; LockS, a = 0, p = 0, expects = LOCKED),
    case!(NOTHING; LockS, a = 0, p = 0, expects = EVICTED),
    case!(NOTHING; UnlockS, a = 0, p = 0),
    case!(WRITING; WFail, a = 0, p = 1; UnlockS, a = 0, p = 1),
    case!(NOTHING; Mark, a = 0, p = 0, expects = SHARE),
    case!(NOTHING; Unmark, a = 0, p = 0, expects = 0),
    case!(NOTHING; LockW, a = 0, p = 0, expects = 0),
    case!(WRITING; Upgrade, a = 0, p = 1, expects = 2 * SHARE + 1),
    case!(WRITING; Upgrade, a = 0, p = 1, expects = SHARE + LAST),
    case!(RELEASED; LockS, a = 0, p = 1, expects = 1; Upgrade, a = 0, p = 1, expects = SHARE + 1),
    case!(WRITING; LockS, a = 0, p = 1, expects = SHARE + 1; Upgrade, a = 0, p = 1, expects = SHARE + 1),
];
/// The ends of an exclusive lock.
const ON_RELEASES: [Case; 14] = [
    case!(NOTHING; Release, a = 0, p = 0),
    case!(RELEASED; Release, a = 0, p = 1),
    case!(LOCK; Release, a = 0, p = 1),
    case!(OWNED; RFail, a = 0, p = 1; Release, a = 0, p = 1),
    case!(CLEAN; Release, a = 0, p = 1),
    case!(OWNED; Disown, a = 0, p = 1; Release, a = 0, p = 1),
    case!(NOTHING; ReleaseE, a = 0, p = 1),
    case!(CLEAN; ReleaseE, a = 0, p = 1),
    case!(LOCK; RFail, a = 0, p = 1; ReleaseE, a = 0, p = 1),
    case!(RELEASED; Downgrade, a = 0, p = 1),
    case!(LOCK; Downgrade, a = 0, p = 1),
    case!(OWNED; RFail, a = 0, p = 1; Downgrade, a = 0, p = 1),
    case!(CLEAN; Downgrade, a = 0, p = 1),
    case!(OWNED; Disown, a = 0, p = 1; Downgrade, a = 0, p = 1),
];
/// Events on a page's frame. The block of page 0 has other words than a frame of zeros.
const ON_FRAMES: [Case; 21] = [
    case!(FRAME; Install, a = 0, p = 1, f = 0),
    case!(LOCK; Install, a = 0, p = 1, f = 1),
    case!(CLEAN; Take, a = 0, g = 0, expects = 2, mask = 2; Install, a = 0, p = 1, f = 1),
    case!(FRAME; LockX, a = 0, p = 0, expects = EVICTED; Install, a = 0, p = 0, f = 0),
    case!(LOCK; Install, a = 0, p = 1, f = 2),
    case!(RELEASED; Clear, a = 0, p = 1),
    case!(LOCK; Clear, a = 0, p = 1),
    case!(DIRTY; Disown, a = 0, p = 1; Clear, a = 0, p = 1),
    case!(OWNED; Clear, a = 0, p = 1),
    case!(RELEASED; Dirty, a = 0, p = 1),
    case!(LOCK; Dirty, a = 0, p = 1),
    case!(CLEAN; Clean, a = 0, p = 1),
    case!(WRITING; Clean, a = 0, p = 1),
    case!(RELEASED; Load, a = 0, p = 1, i = 0),
    case!(RELEASED; Look, a = 0, p = 1; Load, a = 0, p = 1, i = 0),
    case!(LOCK; Load, a = 0, p = 1, i = 0),
    case!(CLEAN; Load, a = 0, p = 1, i = 64),
    case!(NOTHING; Store, a = 0, f = 0, i = 0, w = 1),
    case!(CLEAN; Store, a = 0, f = 0, i = 0, w = 1),
    case!(DIRTY; Store, a = 1, f = 0, i = 0, w = 1),
    case!(FRAME; Store, a = 0, f = 0, i = 64, w = 1),
];
/// Events on bundles and on the next word.
const ON_COUNTERS: [Case; 13] = [
    case!(NOTHING; BLoad, a = 0, g = 1),
    case!(NOTHING; Take, a = 0, g = 1, expects = 3, mask = 1),
    case!(NOTHING; Take, a = 0, g = 0, expects = 3, mask = 0),
    case!(NOTHING; Take, a = 0, g = 0, expects = 1, mask = 3),
    case!(FRAME; Give, a = 0, g = 1, mask = 1),
    case!(FRAME; Give, a = 0, g = 0, mask = 0),
    case!(FRAME; Give, a = 0, g = 0, mask = 3),
    case!(CLEAN; Claim, a = 0, x = 1, n = 0),
    case!(CLEAN; Claim, a = 0, x = 0, n = 3),
    case!(CLEAN; Claim, a = 0, x = 1, n = 2),
    case!(CLEAN; Claim, a = 0, x = 0, n = 2),
    case!(RELEASED; Claim, a = 0, x = 1, n = 1),
    case!(LOCK; Claim, a = 0, x = 1, n = 1),
];
/// Events on owner words: of a page that the actor does not hold exclusively, of one without a frame, of no frame.
const ON_OWNERS: [Case; 11] = [
    case!(NOTHING; Own, a = 0, p = 1),
    case!(LOCK; Own, a = 0, p = 1),
    case!(CLEAN; Own, a = 1, p = 1),
    case!(RELEASED; Own, a = 0, p = 1),
    case!(WRITING; Own, a = 0, p = 1),
    case!(NOTHING; Disown, a = 0, p = 1),
    case!(LOCK; Disown, a = 0, p = 1),
    case!(CLEAN; Disown, a = 1, p = 1),
    case!(RELEASED; Disown, a = 0, p = 1),
    case!(WRITING; Disown, a = 0, p = 1),
    case!(NOTHING; OLoad, a = 0, f = 2),
];
/// Events on free-number words: on a word that is not there, of no number, of one that is not among those expected, of one of no page, and of one
/// whose bit is set.
const ON_NUMBERS: [Case; 10] = [
    case!(NOTHING; PBLoad, a = 0, g = 1),
    case!(NOTHING; PTake, a = 0, g = 1, expects = 1, mask = 1),
    case!(NOTHING; PTake, a = 0, g = 0, expects = 1, mask = 0),
    case!(NOTHING; PTake, a = 0, g = 0, expects = 1, mask = 3),
    case!(NOTHING; PGive, a = 0, g = 1, mask = 1),
    case!(NOTHING; PGive, a = 0, g = 0, mask = 0),
    case!(NOTHING; PGive, a = 0, g = 0, mask = 4),
    case!(NOTHING; PGive, a = 0, g = 0, mask = 5),
    case!(NOTHING; PGive, a = 0, g = 0, mask = 0x8000_0000_0000_0000),
    case!(NOTHING; PGive, a = 0, g = 0, mask = 1; PGive, a = 1, g = 0, mask = 3),
];
/// Calls of the device.
const ON_DEVICES: [Case; 8] = [
    case!(RELEASED; Read, a = 0, p = 1),
    case!(RELEASED; RFail, a = 0, p = 1),
    case!(RELEASED; Write, a = 0, p = 1),
    case!(LOCK; Write, a = 0, p = 1),
    case!(RELEASED; WFail, a = 0, p = 1),
    case!(LOCK; WFail, a = 0, p = 1),
    case!(RELEASED; Raise, a = 0, p = 1),
    case!(FRAME; Store, a = 0, f = 2, i = 0, w = 1),
];
/// Each event by an actor that is not there.
const NO_ACTOR: [Event; 35] = [
    event!(Look, a = 2, p = 0),
    event!(LockX, a = 2, p = 0, expects = EVICTED),
    event!(LockS, a = 2, p = 0, expects = 0),
    event!(UnlockS, a = 2, p = 0),
    event!(Mark, a = 2, p = 0, expects = 0),
    event!(Unmark, a = 2, p = 0, expects = MARKED),
    event!(LockW, a = 2, p = 0, expects = MARKED),
    event!(Upgrade, a = 2, p = 0, expects = SHARE),
    event!(Release, a = 2, p = 0),
    event!(ReleaseE, a = 2, p = 0),
    event!(Downgrade, a = 2, p = 0),
    event!(TLoad, a = 2, p = 0),
    event!(Install, a = 2, p = 0, f = 0),
    event!(Clear, a = 2, p = 0),
    event!(Dirty, a = 2, p = 0),
    event!(Clean, a = 2, p = 0),
    event!(Load, a = 2, p = 0, i = 0),
    event!(Store, a = 2, f = 0, i = 0, w = 1),
    event!(BLoad, a = 2, g = 0),
    event!(Take, a = 2, g = 0, expects = 3, mask = 1),
    event!(Give, a = 2, g = 0, mask = 1),
    event!(Read, a = 2, p = 0),
    event!(RFail, a = 2, p = 0),
    event!(Write, a = 2, p = 0),
    event!(WFail, a = 2, p = 0),
    event!(Raise, a = 2, p = 0),
    event!(NLoad, a = 2),
    event!(Claim, a = 2, x = 0, n = 1),
    event!(Hand, a = 2),
    event!(Own, a = 2, p = 0),
    event!(Disown, a = 2, p = 0),
    event!(OLoad, a = 2, f = 0),
    event!(PBLoad, a = 2, g = 0),
    event!(PTake, a = 2, g = 0, expects = 3, mask = 1),
    event!(PGive, a = 2, g = 0, mask = 1),
];
/// Each event on a page that is not there.
const NO_PAGE: [Event; 24] = [
    event!(Look, a = 0, p = 2),
    event!(LockX, a = 0, p = 2, expects = EVICTED),
    event!(LockS, a = 0, p = 2, expects = 0),
    event!(UnlockS, a = 0, p = 2),
    event!(Mark, a = 0, p = 2, expects = 0),
    event!(Unmark, a = 0, p = 2, expects = MARKED),
    event!(LockW, a = 0, p = 2, expects = MARKED),
    event!(Upgrade, a = 0, p = 2, expects = SHARE),
    event!(Release, a = 0, p = 2),
    event!(ReleaseE, a = 0, p = 2),
    event!(Downgrade, a = 0, p = 2),
    event!(TLoad, a = 0, p = 2),
    event!(Install, a = 0, p = 2, f = 0),
    event!(Clear, a = 0, p = 2),
    event!(Dirty, a = 0, p = 2),
    event!(Clean, a = 0, p = 2),
    event!(Load, a = 0, p = 2, i = 0),
    event!(Read, a = 0, p = 2),
    event!(RFail, a = 0, p = 2),
    event!(Write, a = 0, p = 2),
    event!(WFail, a = 0, p = 2),
    event!(Raise, a = 0, p = 2),
    event!(Own, a = 0, p = 2),
    event!(Disown, a = 0, p = 2),
];

/// So many events of the way, and perhaps one more.
fn before(alloc: Global, steps: usize, more: Option<Event>) -> Result<Vec<Event>, Fail> {
    let mut events = Vec::new(alloc);
    for &event in WAY.iter().take(steps) {
        events.push(event)?;
    }
    if let Some(event) = more {
        events.push(event)?;
    }
    Ok(events)
}

/// Whether a core of two pages, frames and actors refuses just the last event of the case.
fn is_refused(alloc: Global, case: Case) -> Result<bool, Fail> {
    let (steps, more, last) = case;
    let mut events = before(alloc, steps, more)?;
    let index = events.len();
    events.push(last)?;
    let mut core = core(alloc, 2, 2, 1)?;
    match replay(alloc, &mut core, &events) {
        Err(fault) => Ok(fault == ReplayFault::Illegal { index }),
        Ok(_) => Ok(false),
    }
}

/// Just the last event of each of these cases is refused.
fn expect_refused(rt: &impl Abort, alloc: Global, on: &str, cases: &[Case]) -> Result<(), Fail> {
    for (at, &case) in cases.iter().enumerate() {
        assert!(rt; is_refused(alloc, case)?, "case {at} on {on}");
    }
    Ok(())
}

/// Each of these events is refused where nothing has happened.
fn expect_unstarted(
    rt: &impl Abort,
    alloc: Global,
    on: &str,
    events: &[Event],
) -> Result<(), Fail> {
    for (at, &event) in events.iter().enumerate() {
        assert!(rt;
            is_refused(alloc, (NOTHING, None, event))?,
            "event {at} on {on}"
        );
    }
    Ok(())
}

/// The cases on the words and on the frame of a page.
fn expect_refused_on_pages(rt: &impl Abort, alloc: Global) -> Result<(), Fail> {
    expect_refused(rt, alloc, "words", &ON_WORDS)?;
    expect_refused(rt, alloc, "releases", &ON_RELEASES)?;
    expect_refused(rt, alloc, "frames", &ON_FRAMES)
}

/// The other cases.
fn expect_refused_elsewhere(rt: &impl Abort, alloc: Global) -> Result<(), Fail> {
    expect_refused(rt, alloc, "counters", &ON_COUNTERS)?;
    expect_refused(rt, alloc, "owners", &ON_OWNERS)?;
    expect_refused(rt, alloc, "numbers", &ON_NUMBERS)?;
    expect_refused(rt, alloc, "devices", &ON_DEVICES)
}

#[test]
fn events_that_may_not_happen(rt: HostRuntime) -> Result<(), Fail> {
    let alloc = rt.alloc();
    expect_refused_on_pages(&rt, alloc)?;
    expect_refused_elsewhere(&rt, alloc)?;
    expect_unstarted(&rt, alloc, "no actor", &NO_ACTOR)?;
    expect_unstarted(&rt, alloc, "no page", &NO_PAGE)
}
