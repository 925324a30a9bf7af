//! Calls with word keys, as a script's lines have them.

ghost use Rattle.vm_script.specs.Calls.{ReadsBound, ReadsPair, ReadsRange, ReadsThree};
ghost use Rattle.vm_script.specs.Scripts.{word_grammar};

use crate::number::number_of;
use crate::script::{CallSyntax, cut};
use vm_map::call::Call;
use vm_map::window::{Bound, MOST_PAIRS};

/// The calls with word keys.
pub struct WordCalls;

impl CallSyntax for WordCalls {
    type Call = Call;

    ghost grammar = { word_grammar };

    fn call_of(bytes: &[u8]) -> Option<Call> {
        let (verb, rest) = cut(bytes, b' ')?;
        if verb == b"get".as_slice() {
            let key = number_of(rest)?;
            return Some(Call::Get { key });
        }
        if verb == b"del".as_slice() {
            let key = number_of(rest)?;
            return Some(Call::Del { key });
        }
        if verb == b"put".as_slice() {
            let (key, value) = pair_of(rest)?;
            return Some(Call::Put { key, value });
        }
        if verb == b"swap".as_slice() {
            let (key, want, value) = three_of(rest)?;
            return Some(Call::Swap { key, want, value });
        }
        if verb == b"range".as_slice() {
            let (low, bound) = range_of(rest)?;
            return Some(Call::Range { low, bound });
        }
        if verb == b"scan".as_slice() {
            let (start, most) = pair_of(rest)?;
            if 1 <= most && most <= MOST_PAIRS as u64 {
                return Some(Call::Window {
                    start,
                    most: most as u32,
                });
            }
        }
        None
    }

    fn is_range(call: &Call) -> bool {
        matches!(call, Call::Range { .. })
    }

    fn texts_tell_calls() {}
}

// Two numbers with a space between them.
fn pair_of(bytes: &[u8]) -> Option<(u64, u64)>
    ensures { ReadsPair bytes.now result }
{
    let Some((key, value)) = cut(bytes, b' ') else {
        return None;
    };
    let Some(key) = number_of(key) else {
        return None;
    };
    let Some(value) = number_of(value) else {
        return None;
    };
    Some((key, value))
}

// Three numbers with spaces between them.
fn three_of(bytes: &[u8]) -> Option<(u64, u64, u64)>
    ensures { ReadsThree bytes.now result }
{
    let Some((first, rest)) = cut(bytes, b' ') else {
        return None;
    };
    let Some(first) = number_of(first) else {
        return None;
    };
    let Some((second, third)) = pair_of(rest) else {
        return None;
    };
    Some((first, second, third))
}

// A number, or `end`.
fn bound_of(bytes: &[u8]) -> Option<Bound>
    ensures { ReadsBound bytes.now result }
{
    if bytes == b"end".as_slice() {
        return Some(Bound::End);
    }
    let key = number_of(bytes)?;
    Some(Bound::Key(key))
}

// A number and a bound above it, with a space between them.
fn range_of(bytes: &[u8]) -> Option<(u64, Bound)>
    ensures { ReadsRange bytes.now result }
{
    let Some((low, bound)) = cut(bytes, b' ') else {
        return None;
    };
    let Some(low) = number_of(low) else {
        return None;
    };
    let Some(bound) = bound_of(bound) else {
        return None;
    };
    if bound.is_above(low) {
        Some((low, bound))
    } else {
        None
    }
}
