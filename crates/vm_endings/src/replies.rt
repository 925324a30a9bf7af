//! The text of what workers were answered, and of rows.

ghost use Rattle.std.specs.List.{AllByRecursion};
ghost use Rattle.std.specs.Prelude.{[], ◌+◌, ◌++◌, ◌<◌, ◌^◌, ◌∷◌, ◌≡◌, ◌≤◌, length, OnOk};
ghost use Rattle.vm_serve.specs.from_vm_calls.Compact.{all_replies, HasContents, ranges_in, replies_in, told_in, wins_in};
ghost use Rattle.vm_serve.specs.from_vm_drive.Drives.{AreFew, items_of};
ghost use Rattle.vm_script.specs.Texts.{replies_text, rows_text, worker_replies};
ghost use Rattle.vm_endings.specs.Replies.{all_lines, AreMatched, lines_in};

use std::alloc::{AllocError, Global};
use vm_bytes_replies::line_of;
use vm_map::call::{Call, Pair, Reply};
use vm_map::span::Span;
use vm_map::window::Window;
use vm_script::text::{gathered_text, reply_text, row_text, said_text, shown_text};
use vm_serve::drive::{Replies, Short};

// Appends the line of one call. A window is the first of those that are left, and so are the pairs of a range.
fn add_answer(
    alloc: Global,
    worker: u32,
    number: u32,
    call: &Call,
    short: &Short,
    windows: &[Window],
    spans: &[Span],
    out: &mut Vec<u8>,
) -> Result<(), AllocError>
    requires windows { wins_in (short.now ∷ []) ≤ length windows.now }
    requires spans { ranges_in (short.now ∷ []) ≤ length spans.now }
    ensures { OnOk result (out.new.items ≡ out.old.items ++ replies_text worker number (lines_in (call.now ∷ []) (told_in (short.now ∷ []) windows.now spans.now))) }
{
    match short {
        Short::Got(found) => said_text(alloc, worker, number, call, &Reply::Got(*found), out),
        Short::Was(old) => said_text(alloc, worker, number, call, &Reply::Was(*old), out),
        Short::Gone(old) => said_text(alloc, worker, number, call, &Reply::Gone(*old), out),
        Short::Swapped(outcome) => {
            said_text(alloc, worker, number, call, &Reply::Swapped(*outcome), out)
        }
        Short::Win => shown_text(alloc, worker, number, call, &windows[0], out),
        Short::Many => gathered_text(alloc, worker, number, call, &spans[0], out),
        Short::Wide(reach) => said_text(alloc, worker, number, call, &Reply::Wide(*reach), out),
        Short::Fault(fault) => reply_text(alloc, worker, number, &line_of(*fault), out),
    }
}

// How many windows were told with this answer.
fn shown_with(shown: usize, short: &Short) -> usize
    requires { shown < 2 ^ 32 }
    ensures { result ≡ shown + wins_in (short.now ∷ []) }
{
    match short {
        Short::Win => shown + 1,
        Short::Got(_)
        | Short::Was(_)
        | Short::Gone(_)
        | Short::Swapped(_)
        | Short::Many
        | Short::Wide(_)
        | Short::Fault(_) => shown,
    }
}

// How many ranges' pairs were told with this answer.
fn gathered_with(gathered: usize, short: &Short) -> usize
    requires { gathered < 2 ^ 32 }
    ensures { result ≡ gathered + ranges_in (short.now ∷ []) }
{
    match short {
        Short::Many => gathered + 1,
        Short::Got(_)
        | Short::Was(_)
        | Short::Gone(_)
        | Short::Swapped(_)
        | Short::Win
        | Short::Wide(_)
        | Short::Fault(_) => gathered,
    }
}

// Appends the lines of one worker, numbered from 1.
fn add_answers(
    alloc: Global,
    worker: u32,
    calls: &[Call],
    answers: &Replies,
    out: &mut Vec<u8>,
) -> Result<(), AllocError>
    requires same { length (replies_in answers.now) ≡ length calls.now }
    requires contents { HasContents answers.now }
    requires few { length calls.now ≤ 1000000 }
    ensures { OnOk result (out.new.items ≡ out.old.items ++ replies_text worker 1 (lines_in calls.now (replies_in answers.now))) }
{
    let windows = answers.windows.as_slice();
    let spans = answers.spans.as_slice();
    let mut number = 0u32;
    let mut shown = 0usize;
    let mut gathered = 0usize;
    'answers: for short in answers.short.as_slice() {
        let call = calls[number as usize];
        number += 1;
        let (windows, spans) = (&windows[shown..], &spans[gathered..]);
        add_answer(alloc, worker, number, &call, short, windows, spans, out)?;
        shown = shown_with(shown, short);
        gathered = gathered_with(gathered, short);
    }
    Ok(())
}

/// Appends the lines of all workers, worker after worker.
pub fn add_replies(
    alloc: Global,
    lists: &[Vec<Call>],
    replies: &[Replies],
    out: &mut Vec<u8>,
) -> Result<(), AllocError>
    requires few { AreFew (items_of lists.now) }
    requires workers { length lists.now ≤ 64 }
    requires matched { AreMatched (items_of lists.now) (all_replies replies.now) }
    requires contents { AllByRecursion HasContents replies.now }
    ensures { OnOk result (out.new.items ≡ out.old.items ++ worker_replies 0 (all_lines (items_of lists.now) (all_replies replies.now))) }
{
    let mut worker = 0u32;
    'workers: for answers in replies {
        let calls = lists[worker as usize].as_slice();
        add_answers(alloc, worker, calls, answers, out)?;
        worker += 1;
    }
    Ok(())
}

/// Appends the rows.
pub fn add_rows(alloc: Global, rows: &[Pair], out: &mut Vec<u8>) -> Result<(), AllocError>
    ensures { OnOk result (out.new.items ≡ out.old.items ++ rows_text rows.now) }
{
    'rows: for row in rows {
        let Pair { key, value } = *row;
        row_text(alloc, key, value, out)?;
    }
    Ok(())
}
