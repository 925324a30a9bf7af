//! One line of an event list: its events, and its turn on the core.

ghost use Rattle.std.specs.Prelude.{◌++◌, ◌<◌, ◌≡◌, IfOk};
ghost use Rattle.vm_core.specs.Prelude.{core_of};
ghost use Rattle.vm_script.specs.EventLines.{IsEventLine};
ghost use Rattle.vm_replay.specs.Played.{events_of as events_in, illegal_line, loads, stores};
ghost use Rattle.vm_replay.specs.Turns.{Turned};

use std::alloc::{AllocError, Global};
use vm_core::{Core, ReplayFault};
use vm_event::{Event, Memory};
use vm_page::WORDS;
use vm_rule::replay_kept;
use vm_script::event_line::EventLine;
use vm_script::seen::seen_text;

// How a line's turn ended.
#[derive(Clone, Copy)]
pub(crate) enum LineTurn {
    // All its events were done, so many.
    Done(u32),
    // One of them may not happen.
    Illegal,
}

// The stores of the words of page `p`'s block into frame `f`.
fn stores_of(alloc: Global, core: &Core, a: u32, p: u32, f: u32) -> Result<Vec<Event>, AllocError>
    requires { p < (core_of core.now).shape.pages }
    ensures { IfOk result (λ events. events.items ≡ stores a f ((core_of core.now).pages p).block) }
{
    let mut events = Vec::new(alloc);
    for i in 0..WORDS as u32 {
        let w = core.block_word(p, i);
        events.push(Event::Store { a, f, i, w })?;
    }
    Ok(events)
}

// The loads of the words of page `p`.
fn loads_of(alloc: Global, a: u32, p: u32) -> Result<Vec<Event>, AllocError>
    ensures { IfOk result (λ events. events.items ≡ loads a p) }
{
    let mut events = Vec::new(alloc);
    for i in 0..WORDS as u32 {
        events.push(Event::Load { a, p, i })?;
    }
    Ok(events)
}

// The events of a line: one, or the 64 of a short form.
fn events_of(alloc: Global, core: &Core, line: &EventLine) -> Result<Vec<Event>, AllocError>
    requires { IsEventLine (core_of core.now).shape line.now }
    ensures { IfOk result (λ events. events.items ≡ events_in (core_of core.now) line.now) }
{
    match *line {
        EventLine::One(event) => vec![in alloc; event; 1],
        EventLine::Fill { a, p, f } => stores_of(alloc, core, a, p, f),
        EventLine::Loads { a, p } => loads_of(alloc, a, p),
    }
}

// Appends that this line is illegal.
fn illegal_text(alloc: Global, number: u32, out: &mut Vec<u8>) -> Result<(), AllocError>
    ensures { IfOk result (λ _. out.new.items ≡ out.old.items ++ illegal_line number) }
{
    let line = format!(in alloc; "illegal {number}\n")?;
    out.extend_from_slice(line.as_bytes())
}

// Plays the line of this number on the core, and appends what its events saw, or that one of them may not happen.
pub(crate) fn play_line(
    alloc: Global,
    core: &mut Core,
    number: u32,
    line: &EventLine,
    out: &mut Vec<u8>,
) -> Result<LineTurn, Memory>
    requires { IsEventLine (core_of core.now).shape line.now }
    ensures { IfOk result (λ turn. Turned (core_of core.old) number line.now out.old.items turn (core_of core.new) out.new.items) }
{
    let events = events_of(alloc, core, line)?;
    match replay_kept(alloc, core, &events) {
        Ok(seen) => {
            seen_text(alloc, number, line, &seen, out)?;
            Ok(LineTurn::Done(events.len() as u32))
        }
        Err(ReplayFault::Illegal { .. }) => {
            illegal_text(alloc, number, out)?;
            Ok(LineTurn::Illegal)
        }
        Err(ReplayFault::Memory) => Err(Memory),
    }
}
