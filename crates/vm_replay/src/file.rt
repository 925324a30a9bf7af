//! A file's bytes, read as an event list and played.

ghost use Rattle.vm_replay.specs.Told.{TellsReplay};

use crate::playing::{Played, play};
use std::alloc::Global;
use thiserror::Error;
use vm_script::events::{EventsFault, read_events};

/// Why nothing was played.
#[derive(Clone, Copy, Debug, Error)]
pub enum ReplayStop {
    /// The file has more than 16,777,216 bytes.
    #[error("the event list is too long")]
    Long,
    /// The first line that is refused, from 1: it is no shape or no event line of the shape, or it is line 100,001.
    #[error("line {0} is refused")]
    Line(u32),
    /// Memory was refused.
    #[error("out of memory")]
    Memory,
}

/// Reads the bytes as an event list, whole, and plays it from the start of a core of its shape and groups.
///
/// # Errors
///
/// `Long` and `Line` where the bytes are no event list; no event has then been played. `Memory` where memory was refused. An event that
/// may not happen is no error: what was told so far is answered, with `is_legal` false.
pub fn replay_file(alloc: Global, bytes: &[u8]) -> Result<Played, ReplayStop>
    ensures { TellsReplay (λ played. (played.text.items, played.is_legal)) bytes.now result }
{
    let list = match read_events(alloc, bytes) {
        Ok(list) => list,
        Err(EventsFault::Long) => return Err(ReplayStop::Long),
        Err(EventsFault::Line(number)) => return Err(ReplayStop::Line(number)),
        Err(EventsFault::Memory) => return Err(ReplayStop::Memory),
    };
    play(alloc, list.shape, &list.groups, &list.lines).map_err(|_| ReplayStop::Memory)
}
