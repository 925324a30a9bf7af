//! Writes the lines of what workers with byte keys were answered.

ghost use Rattle.std.specs.Prelude.{[], ◌+◌, ◌++◌, ◌<◌, ◌^◌, ◌∷◌, ◌≡◌, ◌≤◌, length, List, OnOk, Result};
ghost use Rattle.vm_bytes_laws.specs.declared.call.KeyReply.{KeyReply};
ghost use Rattle.vm_bytes_serve.specs.from_vm_bytes_calls.KeyAnswers.{KeepsKeyAnswers, key_told_in, key_wins_in};
ghost use Rattle.vm_bytes_serve.specs.from_vm_drive.{Drives.AreFew, Drives.items_of, Lists.AreKept};
ghost use Rattle.vm_bytes_serve.specs.from_vm_tree_rule.declared_fault_TreeFault.{TreeFault};
ghost use Rattle.vm_bytes_replies.specs.KeyLines.{AreAnswered, fault_line, key_lines, key_worker_lines};

use std::alloc::{AllocError, Global};
use vm_bytes_laws::call::{KeyCall, KeyReply};
use vm_bytes_node::window::KeyWindow;
use vm_bytes_script::text::{key_said_text, key_shown_text};
use vm_bytes_serve::tree_rule::TreeFault;
use vm_bytes_serve::{KeyReplies, KeyShort};
use vm_script::text::{Line, reply_text};

/// Why a call had no reply, as it is told.
pub fn line_of(fault: TreeFault) -> Line
    ensures { result ≡ fault_line fault }
{
    match fault {
        TreeFault::Device { pid, .. } => Line::Fault(pid),
        TreeFault::Full { .. } => Line::Full,
        TreeFault::Worn { pid } => Line::Worn(pid),
        TreeFault::Damaged { pid } => Line::Damaged(pid),
    }
}

// Appends the line of one call. A window is the first of those that are left.
fn add_answer(
    alloc: Global,
    worker: u32,
    number: u32,
    call: &KeyCall,
    short: &KeyShort,
    windows: &[KeyWindow],
    out: &mut Vec<u8>,
) -> Result<(), AllocError>
    requires { key_wins_in (short.now ∷ []) ≤ length windows.now }
    ensures { OnOk result (out.new.items ≡ out.old.items ++ key_lines worker number (call.now ∷ []) (key_told_in (short.now ∷ []) windows.now)) }
{
    let reply = match short {
        KeyShort::Got(found) => KeyReply::Got(*found),
        KeyShort::Was(old) => KeyReply::Was(*old),
        KeyShort::Gone(old) => KeyReply::Gone(*old),
        KeyShort::Swapped(outcome) => KeyReply::Swapped(*outcome),
        KeyShort::Win => return key_shown_text(alloc, worker, number, call, &windows[0], out),
        KeyShort::Fault(fault) => {
            return reply_text(alloc, worker, number, &line_of(*fault), out);
        }
    };
    key_said_text(alloc, worker, number, call, &reply, out)
}

// How many windows were told with this answer.
fn shown_with(shown: usize, short: &KeyShort) -> usize
    requires { shown < 2 ^ 32 }
    ensures { result ≡ shown + key_wins_in (short.now ∷ []) }
{
    match short {
        KeyShort::Win => shown + 1,
        KeyShort::Got(_)
        | KeyShort::Was(_)
        | KeyShort::Gone(_)
        | KeyShort::Swapped(_)
        | KeyShort::Fault(_) => shown,
    }
}

// Appends the lines of one worker, numbered from 1.
fn add_answers(
    alloc: Global,
    worker: u32,
    calls: &[KeyCall],
    answers: &KeyReplies,
    out: &mut Vec<u8>,
) -> Result<(), AllocError>
    requires same { length (key_told_in answers.now.short.items answers.now.windows.items) ≡ length calls.now }
    requires shown { key_wins_in answers.now.short.items ≡ length answers.now.windows.items }
    requires few { length calls.now ≤ 1000000 }
    ensures { OnOk result (out.new.items ≡ out.old.items ++ key_lines worker 1 calls.now (key_told_in answers.now.short.items answers.now.windows.items)) }
{
    let windows = answers.windows.as_slice();
    let mut number = 0u32;
    let mut shown = 0usize;
    'answers: for short in answers.short.as_slice() {
        let call = &calls[number as usize];
        number += 1;
        add_answer(alloc, worker, number, call, short, &windows[shown..], out)?;
        shown = shown_with(shown, short);
    }
    Ok(())
}

/// Appends the lines of all workers, worker after worker: `WORKER NUMBER REPLY` for each call, workers numbered from 0 and a worker's calls from 1. At most 64
/// workers have made lists of at most 1,000,000 calls each, and each call was answered.
///
/// # Errors
///
/// `AllocError` where memory was refused; `out` may then have some of the lines.
pub fn add_key_replies(
    alloc: Global,
    lists: &[Vec<KeyCall>],
    replies: &[KeyReplies],
    out: &mut Vec<u8>,
) -> Result<(), AllocError>
    requires few { AreFew (items_of lists.now) }
    requires workers { length lists.now ≤ 64 }
    requires answered { AreAnswered (items_of lists.now) replies.now }
    ensures { (told : List (List (Result KeyReply TreeFault))) → AreKept KeepsKeyAnswers replies.now told → OnOk result (out.new.items ≡ out.old.items ++ key_worker_lines 0 (items_of lists.now) told) }
{
    let mut worker = 0u32;
    'workers: for answers in replies {
        let calls = lists[worker as usize].as_slice();
        add_answers(alloc, worker, calls, answers, out)?;
        worker += 1;
    }
    Ok(())
}
