//! The memory for the ranges among calls, taken before the first call is made: a worker takes none.

ghost use Rattle.std.specs.Prelude.{◌≡◌, IfOk};
ghost use Rattle.vm_calls.specs.Spans.{HasSpans, ranges_asked};

use std::alloc::{AllocError, Global};
use vm_map::call::Call;
use vm_map::span::Span;
use vm_tree_range::LEAVES;
use vm_tree_range::kind::{OfSize, Ranges, WordKeys};

/// How many of the calls ask for a range.
pub fn ranges_among(calls: &[Call]) -> usize
    ensures { result ≡ ranges_asked calls.now }
{
    let mut count = 0;
    'calls: for call in calls {
        if let Call::Range { .. } = call {
            count += 1;
        }
    }
    count
}

/// A span for each of the calls that asks for a range, with room for the pairs of as many leaves as can be held together.
pub fn spans_of<S: OfSize<N>, const N: usize>(
    alloc: Global,
    calls: &[Call],
) -> Result<Vec<Span>, AllocError>
    ensures { IfOk result (λ spans. HasSpans N calls.now spans.items) }
{
    let count = ranges_among(calls);
    let room = WordKeys::<S, N>::most_pairs() * LEAVES as usize;
    let mut spans = Vec::with_capacity(alloc, count)?;
    'spans: for _span in 0..count {
        spans.push(Span::with_room(alloc, room)?)?;
    }
    Ok(spans)
}
