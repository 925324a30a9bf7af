//! Lists of events, played on a machine.

ghost use Rattle.std.specs.Prelude.{IfErr, IfOk};
ghost use Rattle.vm_core.specs.Prelude.{core_of, Replayed};

use crate::machine::Core;
use std::alloc::Global;
use thiserror::Error;
use vm_event::{Event, Seen};

/// Why a replay ended early.
#[derive(Clone, Copy, Debug, Error, PartialEq)]
pub enum ReplayFault {
    /// The event at this index is the first that may not happen; the machine is as the events before it left it.
    #[error("event {index} may not happen")]
    Illegal { index: usize },
    /// There was not enough memory for what the events see; the machine is as it was.
    #[error("out of memory")]
    Memory,
}

/// The events in order, up to the first illegal one, and what each sees. The memory for the answer is taken before the first event.
pub fn replay(alloc: Global, core: &mut Core, events: &[Event]) -> Result<Vec<Seen>, ReplayFault>
    ensures ok { IfOk result (λ seen. Replayed (core_of core.old) events.now (Ok seen.items) (core_of core.new)) }
    ensures err { IfErr result (λ fault. Replayed (core_of core.old) events.now (Err fault) (core_of core.new)) }
{
    let mut seen = match vec![in alloc; Seen::Done; events.len()] {
        Ok(seen) => seen,
        Err(_) => return Err(ReplayFault::Memory),
    };
    for index in 0..events.len() {
        match core.step(events[index]) {
            Ok(s) => seen[index] = s,
            Err(_) => return Err(ReplayFault::Illegal { index }),
        }
    }
    Ok(seen)
}
