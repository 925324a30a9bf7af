//! Event lists: the shape of a core, its groups of pages and the events that it is to run.

ghost use Rattle.std.specs.Prelude.{◌≡◌};
ghost use Rattle.vm_script.specs.Events.{ReadsEvents};
ghost use Rattle.vm_script.specs.declared.events.EventsFault.TheVariants.{Memory};

use crate::event_line::EventLine;
use crate::event_words::shape_of;
use crate::list_line::{ListLine, list_line_of};
use crate::script::{MOST_BYTES, line_of};
use std::alloc::{AllocFailed, Global};
use thiserror::Error;
use vm_event::CoreShape;

/// Why an event list was not read.
#[derive(Clone, Copy, Debug, PartialEq, Eq, Error)]
pub enum EventsFault {
    #[error("the event list is too long")]
    Long,
    #[error("line {0} is refused")]
    Line(u32),
    #[error("out of memory")]
    Memory,
}

impl<T: Drop> From<AllocFailed<T>> for EventsFault {
    ghost from_gives = { λ _ fault. fault ≡ Memory };

    fn from(_: AllocFailed<T>) -> Self {
        EventsFault::Memory
    }
}

/// What an event list spells.
#[derive(Drop)]
pub struct EventList {
    pub shape: CoreShape,
    /// Each group by its first page and its number of pages.
    pub groups: Vec<(u32, u32)>,
    pub lines: Vec<EventLine>,
}

/// The most lines of an event list, its shape line among them.
pub const MOST_EVENT_LINES: u32 = 100_000;

/// The shape, the groups and the event lines that an event list spells.
///
/// The first line is `shape P F A X`: 1 to 64 pages, 1 to 256 frames, 1 to 64 actors, and a next page number of 1 to P.
/// Then lines `group H G` may stand, of pages H to H + G - 1: G is 2, 4 or 8, H a multiple of it, and each page is of the
/// shape and in one group at most. Each further line is an event, or one of the short forms `fill a p f` and `loads a p`,
/// whose numbers are within the shape.
///
/// # Errors
///
/// `Long` where the list has more than 16,777,216 bytes. Else `Line` with the number, from 1, of the first line that is
/// refused, or 100,001 where all lines before it are good. `Memory` where memory was refused.
pub fn read_events(alloc: Global, bytes: &[u8]) -> Result<EventList, EventsFault>
    ensures { ReadsEvents (λ v. (v.shape, v.groups.items, v.lines.items)) bytes.now result }
{
    if bytes.len() > MOST_BYTES {
        return Err(EventsFault::Long);
    }
    let (first, mut rest) = line_of(bytes);
    let Some(shape) = shape_of(first) else {
        return Err(EventsFault::Line(1));
    };
    let mut groups = Vec::new(alloc);
    let mut lines = Vec::new(alloc);
    let mut number = 1;
    'lines: while !rest.is_empty() {
        number += 1;
        if number > MOST_EVENT_LINES {
            return Err(EventsFault::Line(number));
        }
        let (line, behind) = line_of(rest);
        match list_line_of(line, &shape, &groups, &lines) {
            Some(ListLine::Group(group)) => groups.push(group)?,
            Some(ListLine::Event(event)) => lines.push(event)?,
            None => return Err(EventsFault::Line(number)),
        }
        rest = behind;
    }
    Ok(EventList {
        shape,
        groups,
        lines,
    })
}
