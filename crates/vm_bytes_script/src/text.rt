//! Writes the lines of what calls with byte keys were answered.

ghost use Rattle.std.specs.Prelude.{◌++◌, ◌≡◌, IfOk, if◌then◌else◌, is_ok, string_bytes};
ghost use Rattle.vm_bytes_laws.specs.declared.call.KeyReply.TheVariants.{Win};
ghost use Rattle.vm_bytes_script.specs.KeyReplies.{key_answer_text, key_bound_text, key_reply_line, key_shown_text as shown_in, key_window_text};

use std::alloc::{AllocError, Global};
use vm_bytes_laws::call::{KeyCall, KeyReply};
use vm_bytes_node::window::{KeyPair, KeyWindow};
use vm_bytes_text::key_text;
use vm_map::key::Key;
use vm_script::text::{swap_words, told_text, value_words};

// The key of a window's bound, or `end`.
fn bound(alloc: Global, bound: &Option<Key>) -> Result<String, AllocError>
    ensures { IfOk result (λ text. string_bytes text ≡ key_bound_text bound.now) }
{
    match bound {
        Some(key) => key_text(alloc, key),
        None => String::from_str(alloc, "end"),
    }
}

// The text ` k=v` for each pair.
fn shown(alloc: Global, pairs: &[KeyPair]) -> Result<String, AllocError>
    ensures { IfOk result (λ text. string_bytes text ≡ shown_in pairs.now) }
{
    let mut text = String::new(alloc);
    'pairs: for pair in pairs {
        let key = key_text(alloc, &pair.key)?;
        let value = pair.value;
        let shown = format!(in alloc; " {key}={value}")?;
        text.push_str(&shown)?;
    }
    Ok(text)
}

// The text `window K B` and the pairs, of a window from K on.
fn window_text(alloc: Global, start: &Key, window: &KeyWindow) -> Result<String, AllocError>
    ensures { IfOk result (λ text. string_bytes text ≡ key_window_text start.now window.now) }
{
    let start = key_text(alloc, start)?;
    let bound = bound(alloc, &window.bound)?;
    let shown = shown(alloc, window.pairs.as_slice())?;
    let text = format!(in alloc; "window {start} {bound}{shown}")?;
    Ok(text)
}

// The text of a window that a call was answered; none where the call asked for no window.
fn window_answer(alloc: Global, call: &KeyCall, window: &KeyWindow) -> Result<String, AllocError>
    ensures { IfOk result (λ text. string_bytes text ≡ key_answer_text call.now (Win window.now)) }
{
    match call {
        KeyCall::Window { start, .. } => window_text(alloc, start, window),
        KeyCall::Get { .. } | KeyCall::Put { .. } | KeyCall::Del { .. } | KeyCall::Swap { .. } =>
            Ok(String::new(alloc)),
    }
}

// The text of a reply to a call; none for a reply that is not of the call's kind.
fn answer(alloc: Global, call: &KeyCall, reply: &KeyReply) -> Result<String, AllocError>
    ensures { IfOk result (λ text. string_bytes text ≡ key_answer_text call.now reply.now) }
{
    match (call, reply) {
        (KeyCall::Get { .. }, KeyReply::Got(found)) => value_words(alloc, "some", "none", *found),
        (KeyCall::Put { .. }, KeyReply::Was(old)) => value_words(alloc, "was", "new", *old),
        (KeyCall::Del { .. }, KeyReply::Gone(old)) => value_words(alloc, "gone", "none", *old),
        (KeyCall::Window { .. }, KeyReply::Win(window)) => window_answer(alloc, call, window),
        (KeyCall::Swap { .. }, KeyReply::Swapped(outcome)) => swap_words(alloc, *outcome),
        _ => Ok(String::new(alloc)),
    }
}

/// Appends the line `WORKER NUMBER REPLY` of a call that was answered: `some V` or `none` to a get, `new` or `was V` to a put, `gone V` or `none`
/// to a del, `swapped`, `kept V` or `none` to a swap, `window K B` with ` k=v` for each pair to a window from K on, B being the key of its bound or
/// `end`. A reply that is not of its call's kind has no text.
///
/// # Errors
///
/// `AllocError` where memory was refused; `out` is then as before.
pub fn key_said_text(
    alloc: Global,
    worker: u32,
    number: u32,
    call: &KeyCall,
    reply: &KeyReply,
    out: &mut Vec<u8>,
) -> Result<(), AllocError>
    ensures { out.new.items ≡ (if is_ok result then out.old.items ++ key_reply_line worker number call.now reply.now else out.old.items) }
{
    let told = answer(alloc, call, reply)?;
    told_text(alloc, worker, number, &told, out)
}

/// Appends the line of a call that was answered by a window, as `key_said_text` does.
///
/// # Errors
///
/// `AllocError` where memory was refused; `out` is then as before.
pub fn key_shown_text(
    alloc: Global,
    worker: u32,
    number: u32,
    call: &KeyCall,
    window: &KeyWindow,
    out: &mut Vec<u8>,
) -> Result<(), AllocError>
    ensures { out.new.items ≡ (if is_ok result then out.old.items ++ key_reply_line worker number call.now (Win window.now) else out.old.items) }
{
    let told = window_answer(alloc, call, window)?;
    told_text(alloc, worker, number, &told, out)
}
