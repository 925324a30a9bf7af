//! What windows and ranges show.

ghost use Rattle.std.specs.Prelude.{[], ◌≡◌, ◌≤◌, length, min};
ghost use Rattle.vm_map.specs.declared.call.Call.TheVariants.{Range as ForRange, Window as ForWindow};
ghost use Rattle.vm_map.specs.declared.window.Bound.TheVariants.{End};
ghost use Rattle.vm_c.specs.{Fits.IsFitHand, Shows.ArePairsShown, Shows.bound_asked, Shows.FitsIn, Shows.FitsReply};
ghost use Rattle.vm_c.specs.Shows.{HasShown, shown_for, Shows, ShowsReply};

use crate::answers::{CallTold, answer_of};
use crate::opened::OpenHand;
use vm_face::tree_rule::TreeFault;
use vm_map::call::{Pair, Reply};
use vm_map::span::Span;
use vm_map::window::Bound;

/// The most pairs of a range: those of sixteen leaves.
pub const MOST_IN_RANGE: usize = 448;

/// A key with its value.
#[repr(C)]
#[derive(Clone, Copy, Drop)]
pub struct KeyValue {
    pub key: u64,
    pub value: u64,
}

/// How many pairs are shown, which are all below the bound; or all to the last, where it ends.
#[repr(C)]
#[derive(Clone, Copy, Drop)]
pub struct ShownPairs {
    pub bound: u64,
    pub count: u32,
    pub ends: u32,
}

/// The bound of a range that C asks for.
pub fn bound_of(high: u64, to_end: u32) -> Bound
    ensures { result ≡ bound_asked high to_end }
{
    if to_end == 0 {
        Bound::Key(high)
    } else {
        Bound::End
    }
}

/// Asks the hand for the first pairs from a key on, at most so many, and shows them: there is room for them.
pub fn window(
    hand: &mut OpenHand,
    start: u64,
    most: u32,
    rounds: u32,
    pairs: &mut [KeyValue],
    shown: &mut ShownPairs,
) -> (u32, CallTold)
    requires hand { IsFitHand hand.old }
    requires most { 1 ≤ most }
    requires room { min most 28 ≤ length pairs.old }
    ensures hand { IsFitHand hand.new }
    ensures shows { HasShown (ForWindow start most) End hand.old hand.new result.0 result.1 pairs.old pairs.new shown.old shown.new }
{
    let answer = hand.hand.window(start, most, rounds);
    show(&answer, Bound::End, pairs, shown);
    answer_of(answer)
}

/// Asks the hand for all pairs from a key on and below a bound, and shows them: there is room for them.
pub fn range(
    hand: &mut OpenHand,
    low: u64,
    bound: Bound,
    mut out: Span,
    rounds: u32,
    pairs: &mut [KeyValue],
    shown: &mut ShownPairs,
) -> (u32, CallTold)
    requires hand { IsFitHand hand.old }
    requires empty { out.0 ≡ [] }
    requires out { 448 ≤ out.1 }
    requires room { 448 ≤ length pairs.old }
    ensures hand { IsFitHand hand.new }
    ensures shows { HasShown (ForRange low bound) bound hand.old hand.new result.0 result.1 pairs.old pairs.new shown.old shown.new }
{
    let answer = hand.hand.range(low, bound, &mut out, rounds);
    show(&answer, bound, pairs, shown);
    answer_of(answer)
}

// Shows the pairs of the answer to a window, or to a range below this bound. There is room for them.
fn show(
    answer: &Result<Option<Reply>, TreeFault>,
    bound: Bound,
    pairs: &mut [KeyValue],
    shown: &mut ShownPairs,
)
    requires { FitsIn (length pairs.old) answer.now }
    ensures { Shows bound answer.now pairs.old pairs.new shown.old shown.new }
{
    match answer {
        Ok(Some(reply)) => show_reply(reply, bound, pairs, shown),
        Ok(None) => {}
        Err(_) => {}
    }
}

fn show_reply(reply: &Reply, bound: Bound, pairs: &mut [KeyValue], shown: &mut ShownPairs)
    requires { FitsReply (length pairs.old) reply.now }
    ensures { ShowsReply bound reply.now pairs.old pairs.new shown.old shown.new }
{
    match reply {
        Reply::Win(window) => {
            show_pairs(window.pairs.as_slice(), pairs);
            *shown = shown_of(window.bound, window.pairs.len());
        }
        Reply::Many(span) => {
            show_pairs(span.as_slice(), pairs);
            *shown = shown_of(bound, span.len());
        }
        Reply::Got(_) => {}
        Reply::Was(_) => {}
        Reply::Gone(_) => {}
        Reply::Swapped(_) => {}
        Reply::Wide(_) => {}
    }
}

fn shown_of(bound: Bound, count: usize) -> ShownPairs
    requires { count ≤ 448 }
    ensures { result ≡ shown_for bound count }
{
    let count = count as u32;
    match bound {
        Bound::Key(bound) => ShownPairs {
            bound,
            count,
            ends: 0,
        },
        Bound::End => ShownPairs {
            bound: 0,
            count,
            ends: 1,
        },
    }
}

fn show_pairs(from: &[Pair], pairs: &mut [KeyValue])
    requires { length from.now ≤ length pairs.old }
    ensures { ArePairsShown from.now pairs.old pairs.new }
{
    for i in 0..from.len() {
        let pair = from[i];
        pairs[i] = KeyValue {
            key: pair.key,
            value: pair.value,
        };
    }
}
