//! The lines of an event list, played one after another on a core of their shape.

ghost use Rattle.std.specs.List.{AllByRecursion};
ghost use Rattle.std.specs.Prelude.{◌++◌, ◌+◌, ◌≡◌, ◌≤◌, IfOk, length};
ghost use Rattle.vm_event.specs.Groups.{GroupsFit};
ghost use Rattle.vm_script.specs.{EventLines.IsEventLine, Events.most_event_lines};
ghost use Rattle.vm_replay.specs.Played.{end_line, PlayedFromStart};

use crate::line::{LineTurn, play_line};
use std::alloc::{AllocError, Global};
use vm_core::Core;
use vm_event::{CoreShape, Memory};
use vm_script::event_line::EventLine;

/// What is told of a replay.
#[derive(Drop)]
pub struct Played {
    /// A line for each event line that was done, and then `end COUNT` with the number of events, or `illegal NUMBER` with that of the
    /// line of which an event may not happen. Each ends with a line feed.
    pub text: Vec<u8>,
    /// Whether every event might happen.
    pub is_legal: bool,
}

// Appends how many events there were.
fn end_text(alloc: Global, count: u32, out: &mut Vec<u8>) -> Result<(), AllocError>
    ensures { IfOk result (λ _. out.new.items ≡ out.old.items ++ end_line count) }
{
    let line = format!(in alloc; "end {count}\n")?;
    out.extend_from_slice(line.as_bytes())
}

/// Plays the event lines in order on a core of this shape and these groups, each its first page and its number of pages, from its start.
///
/// The lines are numbered on behind the shape's, which is line 1, and those of the groups. A short form counts as 64 events; `fill` stores the words that the page's
/// block has at that time. The first line of which an event may not happen is the last one played: nothing of it is told but its number.
///
/// # Errors
///
/// `Memory` where memory was refused.
pub fn play(
    alloc: Global,
    shape: CoreShape,
    groups: &[(u32, u32)],
    lines: &[EventLine],
) -> Result<Played, Memory>
    requires next { shape.next ≤ shape.pages }
    requires groups { GroupsFit shape.pages groups.now }
    requires each { AllByRecursion (IsEventLine shape) lines.now }
    requires few { length groups.now + length lines.now + 1 ≤ most_event_lines }
    ensures { IfOk result (λ played. PlayedFromStart shape groups.now lines.now played.text.items played.is_legal) }
{
    let mut core = Core::new(alloc, shape, groups)?;
    let mut text = Vec::new(alloc);
    let mut number = groups.len() as u32 + 2;
    let mut count = 0;
    for line in lines {
        match play_line(alloc, &mut core, number, line, &mut text)? {
            LineTurn::Done(events) => count += events,
            LineTurn::Illegal => {
                return Ok(Played {
                    text,
                    is_legal: false,
                });
            }
        }
        number += 1;
    }
    end_text(alloc, count, &mut text)?;
    Ok(Played {
        text,
        is_legal: true,
    })
}
