//! Tests of what the definitions mean. The values are worked out by hand from the rules, and not taken from a run.

mod groups;
mod refusals;
mod scripts;
mod words;

ghost use Rattle.std.specs.Prelude.{◌≤◌};

use std::alloc::Global;
use std::process::Abort;
use std::test::Fail;
use vm_core::{Core, replay};
use vm_event::{CoreShape, Event, Memory, ReadIs, Seen};

/// State words at version 0, to which a version is added; an unlocked word is the version alone. One shared lock:
const SHARE: u64 = 0x0100_0000_0000_0000;
/// Locked exclusively:
const LOCKED: u64 = 0xfd00_0000_0000_0000;
/// Marked by the clock:
const MARKED: u64 = 0xfe00_0000_0000_0000;
/// Evicted:
const EVICTED: u64 = 0xff00_0000_0000_0000;
/// The last version.
const LAST: u64 = 0x00ff_ffff_ffff_ffff;

/// The event of a name with these fields.
macro_rules! event {
    ($name:ident, $($field:ident = $value:expr),*) => { Event::$name { $($field: $value),* } };
}

use event;

/// An event, and what it sees.
type Row = (Event, Seen);

/// What is seen, and the event that sees it. A look sees a word and what it leaves of the open read.
macro_rules! row {
    (saw $word:expr, $left:ident; $name:ident, $($field:ident = $value:expr),*) => {
        (Event::$name { $($field: $value),* }, Seen::Look { word: $word, left: ReadIs::$left })
    };
    ($seen:expr; $name:ident, $($field:ident = $value:expr),*) => { (Event::$name { $($field: $value),* }, $seen) };
}

use row;

/// The events see what they are to see.
fn plays(rt: &impl Abort, alloc: Global, core: &mut Core, rows: &[Row]) -> Result<(), Fail> {
    let mut events = Vec::new(alloc);
    let mut wanted = Vec::new(alloc);
    for &(event, seen) in rows {
        events.push(event)?;
        wanted.push(seen)?;
    }
    let seen = replay(alloc, core, &events)?;
    assert_eq!(rt; seen.as_slice(), wanted.as_slice());
    Ok(())
}

/// A core with as many actors as pages, whose pages are in no group.
fn core(alloc: Global, pages: u32, frames: u32, next: u32) -> Result<Core, Memory>
    requires { next ≤ pages }
{
    let actors = pages;
    let shape = CoreShape {
        pages,
        frames,
        actors,
        next,
    };
    Core::new(alloc, shape, &[])
}
