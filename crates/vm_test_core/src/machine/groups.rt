//! Pages 2 and 3 as a group, of four pages: page 2 is its head.

ghost use Rattle.std.specs.Prelude.{◌≤◌};

use super::{EVICTED, MARKED, Row, SHARE, event, plays, row};
use std::alloc::Global;
use std::test::Fail;
use vm_core::{Core, ReplayFault, replay};
use vm_event::{CoreShape, Event, Memory, ReadIs, Seen};

/// A core of four pages, with this next one.
fn core_of_group(alloc: Global, next: u32) -> Result<Core, Memory>
    requires { next ≤ 4 }
{
    let shape = CoreShape {
        pages: 4,
        frames: 4,
        actors: 2,
        next,
    };
    Core::new(alloc, shape, &[(2, 2)])
}

/// Actor 0 locks the group and reads both blocks.
const READS: [Row; 4] = [
    row!(Seen::Taken; Take, a = 0, g = 0, expects = 15, mask = 3),
    row!(Seen::Taken; LockX, a = 0, p = 2, expects = EVICTED),
    row!(Seen::Done; Read, a = 0, p = 2),
    row!(Seen::Done; Read, a = 0, p = 3),
];
/// It puts the frames that it has filled under the pages, and names the head in both owner words. It writes a word of page 3, and releases
/// the group.
const SHOWS: [Row; 9] = [
    row!(Seen::Done; Install, a = 0, p = 2, f = 0),
    row!(Seen::Done; Install, a = 0, p = 3, f = 1),
    row!(Seen::Done; Own, a = 0, p = 2),
    row!(Seen::Done; Own, a = 0, p = 3),
    row!(Seen::Word(3); OLoad, a = 1, f = 0),
    row!(Seen::Word(3); OLoad, a = 1, f = 1),
    row!(Seen::Done; Dirty, a = 0, p = 3),
    row!(Seen::Done; Store, a = 0, f = 1, i = 5, w = 77),
    row!(Seen::Done; Release, a = 0, p = 2),
];
/// Actor 1 reads both pages under one look.
const LOOKS: [Row; 7] = [
    row!(saw 1, Opened; Look, a = 1, p = 2),
    row!(Seen::Word(1); TLoad, a = 1, p = 2),
    row!(Seen::Word(0x8000_0000_0000_0002); TLoad, a = 1, p = 3),
    row!(Seen::Word(133); Load, a = 1, p = 2, i = 5),
    row!(Seen::Word(77); Load, a = 1, p = 3, i = 5),
    row!(Seen::Word(198); Load, a = 1, p = 3, i = 6),
    row!(saw 1, Same; Look, a = 1, p = 2),
];
/// Actor 0 writes both pages back under one share, and upgrades.
const WRITES_BACK: [Row; 7] = [
    row!(Seen::Taken; Mark, a = 0, p = 2, expects = 1),
    row!(Seen::Taken; LockW, a = 0, p = 2, expects = MARKED + 1),
    row!(Seen::Done; Write, a = 0, p = 2),
    row!(Seen::Done; Clean, a = 0, p = 2),
    row!(Seen::Done; Write, a = 0, p = 3),
    row!(Seen::Done; Clean, a = 0, p = 3),
    row!(Seen::Taken; Upgrade, a = 0, p = 2, expects = SHARE + 1),
];
/// It takes both pages out of their frames and gives these back. The open read of actor 1 ends.
const EVICTS: [Row; 8] = [
    row!(Seen::Done; Disown, a = 0, p = 3),
    row!(Seen::Done; Clear, a = 0, p = 3),
    row!(Seen::Done; Disown, a = 0, p = 2),
    row!(Seen::Done; Clear, a = 0, p = 2),
    row!(Seen::Done; ReleaseE, a = 0, p = 2),
    row!(Seen::Word(12); Give, a = 0, g = 0, mask = 3),
    row!(Seen::Word(0); OLoad, a = 1, f = 1),
    row!(saw EVICTED + 2, Closed; Look, a = 1, p = 2),
];

/// The words of the block of page `p` are stored into frame `f`.
fn fill(rows: &mut Vec<Row>, p: u8, f: u32) -> Result<(), Fail> {
    for i in 0..64u32 {
        let w = 64 * u64::from(p) + u64::from(i);
        rows.push(row!(Seen::Done; Store, a = 0, f = f, i = i, w = w))?;
    }
    Ok(())
}

/// Two pages are locked, brought, read, written back and evicted under one state word.
#[test]
fn a_group_has_one_state_word(rt: HostRuntime) -> Result<(), Fail> {
    let alloc = rt.alloc();
    let mut rows = Vec::new(alloc);
    rows.extend_from_slice(&READS)?;
    fill(&mut rows, 2, 0)?;
    fill(&mut rows, 3, 1)?;
    rows.extend_from_slice(&SHOWS)?;
    rows.extend_from_slice(&LOOKS)?;
    rows.extend_from_slice(&WRITES_BACK)?;
    rows.extend_from_slice(&EVICTS)?;
    let mut core = core_of_group(alloc, 4)?;
    plays(&rt, alloc, &mut core, &rows)?;
    assert_eq!(rt; core.shape().pages, 4);
    assert_eq!(rt; core.block_word(2, 5), 133);
    assert_eq!(rt; core.block_word(3, 5), 77);
    Ok(())
}

/// Actor 0 brings the pages one after another, whose blocks have zeros as the frames have. A case begins with so many of these events.
const WAY: [Event; 6] = [
    event!(Take, a = 0, g = 0, expects = 15, mask = 3),
    event!(LockX, a = 0, p = 2, expects = EVICTED),
    event!(Install, a = 0, p = 2, f = 0),
    event!(Own, a = 0, p = 2),
    event!(Install, a = 0, p = 3, f = 1),
    event!(Own, a = 0, p = 3),
];

/// Whether a core of zeros refuses just this event behind so many of the way.
fn is_refused(alloc: Global, steps: usize, last: Event) -> Result<bool, Fail> {
    let mut events = Vec::new(alloc);
    for &event in WAY.iter().take(steps) {
        events.push(event)?;
    }
    let index = events.len();
    events.push(last)?;
    let mut core = core_of_group(alloc, 1)?;
    match replay(alloc, &mut core, &events) {
        Err(fault) => Ok(fault == ReplayFault::Illegal { index }),
        Ok(_) => Ok(false),
    }
}

/// A page that is no head has no state word of its own.
#[test]
fn a_page_behind_its_head_is_not_looked_at(rt: HostRuntime) -> Result<(), Fail> {
    let refused = is_refused(rt.alloc(), 0, event!(Look, a = 0, p = 3))?;
    assert!(rt; refused);
    Ok(())
}

/// A group is not released while one of its pages stands in no frame, nor evicted while one stands in a frame.
#[test]
fn a_group_is_left_as_one(rt: HostRuntime) -> Result<(), Fail> {
    let alloc = rt.alloc();
    let released = is_refused(alloc, 4, event!(Release, a = 0, p = 2))?;
    assert!(rt; released);
    let evicted = is_refused(alloc, 4, event!(ReleaseE, a = 0, p = 2))?;
    assert!(rt; evicted);
    Ok(())
}

/// A group is not released while the owner word of one of its frames does not name the head. No event makes such a word name a page that is no
/// head: page 3 writes that of its head too.
#[test]
fn each_frame_of_a_group_names_the_head(rt: HostRuntime) -> Result<(), Fail> {
    let alloc = rt.alloc();
    let released = is_refused(alloc, 5, event!(Release, a = 0, p = 2))?;
    assert!(rt; released);
    let owned = is_refused(alloc, 6, event!(Release, a = 0, p = 2))?;
    assert!(rt; !owned);
    Ok(())
}
