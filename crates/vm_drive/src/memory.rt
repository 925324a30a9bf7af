//! The memory for all lists' answers and ranges, taken before the first call is made.

ghost use Rattle.std.specs.Prelude.{IfOk};
ghost use Rattle.vm_calls.specs.Compact.{KeepsAnswers, room_in};
ghost use Rattle.vm_drive.specs.{Drives.items_of, Lists.HaveMemory, Lists.HaveRoom, Rooms.RoomFor, Rooms.SpansFor};

use std::alloc::{AllocError, Global};
use vm_calls::compact::{Replies, windows_in};
use vm_calls::kind::OfSize;
use vm_calls::spans::{ranges_among, spans_of};
use vm_map::call::Call;
use vm_map::span::Span;

/// For each list, room for an answer to each of its calls, and for a window or a range's pairs to each that asks for them.
pub fn rooms_for(alloc: Global, lists: &[Vec<Call>]) -> Result<Vec<Replies>, AllocError>
    ensures { IfOk result (λ rooms. HaveRoom KeepsAnswers (RoomFor room_in) rooms.items (items_of lists.now)) }
{
    let mut rooms = Vec::with_capacity(alloc, lists.len())?;
    'lists: for calls in lists {
        let short = Vec::with_capacity(alloc, calls.len())?;
        let windows = Vec::with_capacity(alloc, windows_in(calls.as_slice()))?;
        let spans = Vec::with_capacity(alloc, ranges_among(calls.as_slice()))?;
        rooms.push(Replies {
            short,
            windows,
            spans,
        })?;
    }
    Ok(rooms)
}

/// For each list a span for each of its calls that asks for a range, with room for the pairs of as many leaves as can be held together.
pub fn spans_for<S: OfSize<N>, const N: usize>(
    alloc: Global,
    lists: &[Vec<Call>],
) -> Result<Vec<Vec<Span>>, AllocError>
    ensures { IfOk result (λ spans. HaveMemory (SpansFor N) (items_of lists.now) spans.items) }
{
    let mut all = Vec::with_capacity(alloc, lists.len())?;
    'lists: for calls in lists {
        let own = spans_of::<S, N>(alloc, calls.as_slice())?;
        all.push(own)?;
    }
    Ok(all)
}
