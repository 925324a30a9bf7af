//! Reads scripts: lines `WORKER CALL`, single spaces, each line ended by a line feed. How a call is written is a matter of its kind.

ghost use Rattle.std.specs.Prelude.{[], ◌≡◌, ◌≤◌, All, IfOk, length, map, MatchOption};
ghost use Rattle.vm_script.specs.Calls.{ReadsOrder};
ghost use Rattle.vm_script.specs.Cuts.{IsCut, IsLine, Lacks};
ghost use Rattle.vm_script.specs.declared.script.ScriptFault.TheVariants.{Memory};
ghost use Rattle.vm_script.specs.Orders.{lists_of, most_lines, ReadsScript as Reads};
ghost use Rattle.vm_script.specs.Scripts.{ReadsScript};

use crate::calls::WordCalls;
use crate::number::number_of;
use std::alloc::{AllocError, AllocFailed, Global};
use thiserror::Error;
use vm_map::call::Call;

/// A kind of calls, as a script's lines have them. It is no value: a type stands for it.
pub trait CallSyntax {
    type Call: Drop;

    ghost use Rattle.std.specs.Prelude.{◌≡◌};
    ghost use Rattle.vm_script.specs.EventWords.{ReadsAs};
    ghost use Rattle.vm_script.specs.Orders.{Grammar, TellsCalls};

    // Which calls a script may have, how each is written, and which are ranges.
    ghost grammar: { Grammar Self.Call };

    /// The call that the bytes spell. `None` exactly where they spell none.
    fn call_of(bytes: &[u8]) -> Option<Self::Call>
        ensures { ReadsAs grammar.is_call grammar.text bytes.now result };

    /// Whether the call is a range, of which a script may have fewer than lines.
    fn is_range(call: &Self::Call) -> bool
        ensures { result ≡ grammar.is_range call.now };

    /// A call is written on one line, and a text is that of one call.
    fn texts_tell_calls()
        ensures { TellsCalls grammar };
}

/// A line of a script: a call, and the worker that makes it.
#[derive(Drop)]
pub struct Order<C> {
    pub worker: u32,
    pub call: C,
}

/// Why a script was not read.
#[derive(Clone, Copy, Debug, PartialEq, Eq, Error)]
pub enum ScriptFault {
    /// It has more than `MOST_BYTES`.
    #[error("the script is too long")]
    Long,
    /// The first line, counted from 1, that is refused, or is one more than `MOST_LINES` or one range more than `MOST_RANGES`.
    #[error("line {0} is refused")]
    Line(u32),
    #[error("out of memory")]
    Memory,
}

impl From<AllocError> for ScriptFault {
    ghost from_gives = { λ _ fault. fault ≡ Memory };

    fn from(_: AllocError) -> Self {
        ScriptFault::Memory
    }
}

impl<T: Drop> From<AllocFailed<T>> for ScriptFault {
    ghost from_gives = { λ _ fault. fault ≡ Memory };

    fn from(_: AllocFailed<T>) -> Self {
        ScriptFault::Memory
    }
}

/// How many bytes a script may have.
pub const MOST_BYTES: usize = 16_777_216;

/// How many lines a script may have.
pub const MOST_LINES: u32 = 1_000_000;

/// How many lines of a script may be ranges.
pub const MOST_RANGES: u32 = 1_000;

/// The bytes before the first `at`, and those behind it.
pub fn cut(bytes: &[u8], at: u8) -> Option<(&[u8], &[u8])>
    ensures { MatchOption result (Lacks at bytes.now) (λ x. IsCut bytes.now at x.0.now x.1.now) }
{
    for (i, byte) in bytes.iter().enumerate() {
        if *byte == at {
            return Some((&bytes[..i], &bytes[i + 1..]));
        }
    }
    None
}

// The first line, and what stands behind it.
pub(crate) fn line_of(bytes: &[u8]) -> (&[u8], &[u8])
    ensures { IsLine bytes.now result.0.now result.1.now }
{
    match cut(bytes, b'\n') {
        Some((line, rest)) => (line, rest),
        None => (bytes, &[]),
    }
}

// The order that a line spells.
fn order_of<K: CallSyntax>(line: &[u8], workers: u32) -> Option<Order<K::Call>>
    ensures { ReadsOrder K.grammar workers line.now result }
{
    let Some((worker, rest)) = cut(line, b' ') else {
        return None;
    };
    let Some(worker) = number_of(worker) else {
        return None;
    };
    let Some(call) = K::call_of(rest) else {
        return None;
    };
    if worker < u64::from(workers) {
        Some(Order {
            worker: worker as u32,
            call,
        })
    } else {
        None
    }
}

// A list for each worker, with no call yet.
fn empty_lists<C: Drop>(alloc: Global, workers: u32) -> Result<Vec<Vec<C>>, AllocError>
    ensures { IfOk result (λ v. map (λ calls. calls.items) v.items ≡ lists_of workers []) }
{
    let mut lists = Vec::new(alloc);
    'workers: for _worker in 0..workers {
        lists.push(Vec::new(alloc))?;
    }
    Ok(lists)
}

/// Reads a script of calls of a kind: the calls of each worker below `workers`, in the script's order. Each line is `WORKER CALL`; the last line
/// feed may be missing, and no bytes are no lines.
///
/// # Errors
/// `Long` exactly over `MOST_BYTES`. Else `Line` exactly where a line is refused, or is one too
/// many or a range too many, with the first such. `Memory` where there is none.
pub fn read_lists<K: CallSyntax>(
    alloc: Global,
    bytes: &[u8],
    workers: u32,
) -> Result<Vec<Vec<K::Call>>, ScriptFault>
    ensures reading { Reads K.grammar (λ v. map (λ calls. calls.items) v.items) workers bytes.now result }
    ensures count { IfOk result (λ v. length v.items ≡ workers) }
    ensures few { IfOk result (λ v. All (λ calls. length calls.items ≤ most_lines) v.items) }
{
    if bytes.len() > MOST_BYTES {
        return Err(ScriptFault::Long);
    }
    // Nothing is done, but where a line is no call none begins there, and the line of a call is that of one call.
    K::texts_tell_calls();
    let mut lists = empty_lists(alloc, workers)?;
    let mut rest = bytes;
    let mut number = 0;
    let mut ranges = 0;
    'lines: while !rest.is_empty() {
        number += 1;
        if number > MOST_LINES {
            return Err(ScriptFault::Line(number));
        }
        let (line, behind) = line_of(rest);
        let Some(order) = order_of::<K>(line, workers) else {
            return Err(ScriptFault::Line(number));
        };
        ranges += u32::from(K::is_range(&order.call));
        if ranges > MOST_RANGES {
            return Err(ScriptFault::Line(number));
        }
        lists[order.worker as usize].push(order.call)?;
        rest = behind;
    }
    Ok(lists)
}

/// Reads a script of calls with word keys: `get K`, `put K V`, `del K`, `swap K OLD NEW`, `scan K N` or `range A B` in canonical decimals below
/// 2^64, N from 1 to 28, B above A or the word `end`.
///
/// # Errors
/// Those of `read_lists`.
pub fn read_script(alloc: Global, bytes: &[u8], workers: u32) -> Result<Vec<Vec<Call>>, ScriptFault>
    ensures reading { ReadsScript (λ v. map (λ calls. calls.items) v.items) workers bytes.now result }
    ensures count { IfOk result (λ v. length v.items ≡ workers) }
    ensures few { IfOk result (λ v. All (λ calls. length calls.items ≤ most_lines) v.items) }
{
    read_lists::<WordCalls>(alloc, bytes, workers)
}
