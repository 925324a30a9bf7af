//! Writes the lines of what calls were answered, of rows, of counters, of a tree's size, and of what was made, migrated and churned.

ghost use Rattle.std.specs.Prelude.{◌++◌, ◌≡◌, IfOk, if◌then◌else◌, is_ok, string_bytes};
ghost use Rattle.vm_map.specs.declared.call.Reply.TheVariants.{Gone, Got, Many, Swapped, Was, Wide, Win};
ghost use Rattle.vm_script.specs.declared.text.Line.TheVariants as lines;
ghost use Rattle.vm_script.specs.Texts.{answer_text, bound_text, churn_line, counters_line, made_line, migrated_line, outcome_text, range_text, reply_line};
ghost use Rattle.vm_script.specs.Texts.{row_line, shown_text, swap_text, told_line, tree_line, unflushed_line, value_text, window_text};

use std::alloc::{AllocError, Global};
use vm_map::call::{Call, Pair, Reply, Said, Swap};
use vm_map::span::Span;
use vm_map::window::{Bound, Window};

/// What a worker is told of one call: its reply, or why there is none.
#[derive(Drop)]
pub enum Line {
    /// The call with its reply.
    Said(Said),
    /// A call on the block of this page failed.
    Fault(u32),
    /// A node has to be split, and no page is left.
    Full,
    /// The word of this page stands at the last version.
    Worn(u32),
    /// The words of this page are not what the way to it says.
    Damaged(u32),
}

// The key of a window's bound, or `end`.
fn bound(alloc: Global, bound: Bound) -> Result<String, AllocError>
    ensures { IfOk result (λ text. string_bytes text ≡ bound_text bound) }
{
    match bound {
        Bound::Key(key) => format!(in alloc; "{key}"),
        Bound::End => String::from_str(alloc, "end"),
    }
}

// The text ` k=v` for each pair.
fn shown(alloc: Global, pairs: &[Pair]) -> Result<String, AllocError>
    ensures { IfOk result (λ text. string_bytes text ≡ shown_text pairs.now) }
{
    let mut text = String::new(alloc);
    'pairs: for pair in pairs {
        let Pair { key, value } = *pair;
        let shown = format!(in alloc; " {key}={value}")?;
        text.push_str(&shown)?;
    }
    Ok(text)
}

// The text `window K B` and the pairs, of a window from K on.
fn window_text(alloc: Global, start: u64, window: &Window) -> Result<String, AllocError>
    ensures { IfOk result (λ text. string_bytes text ≡ window_text start window.now) }
{
    let bound = bound(alloc, window.bound)?;
    let shown = shown(alloc, window.pairs.as_slice())?;
    let text = format!(in alloc; "window {start} {bound}{shown}")?;
    Ok(text)
}

// The text `range COUNT` and the pairs, of all pairs of a range.
fn range_text(alloc: Global, span: &Span) -> Result<String, AllocError>
    ensures { IfOk result (λ text. string_bytes text ≡ range_text span.now.0) }
{
    let shown = shown(alloc, span.as_slice())?;
    let count = span.len();
    let text = format!(in alloc; "range {count}{shown}")?;
    Ok(text)
}

/// A value behind its word, or the word for none.
pub fn value_words(
    alloc: Global,
    word: &str,
    none: &str,
    value: Option<u64>,
) -> Result<String, AllocError>
    ensures { IfOk result (λ text. string_bytes text ≡ value_text word.now none.now value) }
{
    match value {
        None => String::from_str(alloc, none),
        Some(value) => format!(in alloc; "{word} {value}"),
    }
}

/// What a swap did: `swapped`, `kept V` or `none`.
pub fn swap_words(alloc: Global, outcome: Swap) -> Result<String, AllocError>
    ensures { IfOk result (λ text. string_bytes text ≡ swap_text outcome) }
{
    match outcome {
        Swap::Done => String::from_str(alloc, "swapped"),
        Swap::Kept(value) => format!(in alloc; "kept {value}"),
        Swap::Missing => String::from_str(alloc, "none"),
    }
}

// The text of the value that was found for a get. A call of another kind has none, and so it is with each of these functions.
fn got_answer(alloc: Global, call: &Call, found: Option<u64>) -> Result<String, AllocError>
    ensures { IfOk result (λ text. string_bytes text ≡ answer_text call.now (Got found)) }
{
    match *call {
        Call::Get { .. } => value_words(alloc, "some", "none", found),
        Call::Put { .. }
        | Call::Del { .. }
        | Call::Window { .. }
        | Call::Swap { .. }
        | Call::Range { .. } => Ok(String::new(alloc)),
    }
}

// Of the value before a put.
fn was_answer(alloc: Global, call: &Call, old: Option<u64>) -> Result<String, AllocError>
    ensures { IfOk result (λ text. string_bytes text ≡ answer_text call.now (Was old)) }
{
    match *call {
        Call::Put { .. } => value_words(alloc, "was", "new", old),
        Call::Get { .. }
        | Call::Del { .. }
        | Call::Window { .. }
        | Call::Swap { .. }
        | Call::Range { .. } => Ok(String::new(alloc)),
    }
}

// Of the value before a del.
fn gone_answer(alloc: Global, call: &Call, old: Option<u64>) -> Result<String, AllocError>
    ensures { IfOk result (λ text. string_bytes text ≡ answer_text call.now (Gone old)) }
{
    match *call {
        Call::Del { .. } => value_words(alloc, "gone", "none", old),
        Call::Get { .. }
        | Call::Put { .. }
        | Call::Window { .. }
        | Call::Swap { .. }
        | Call::Range { .. } => Ok(String::new(alloc)),
    }
}

// Of a window.
fn window_answer(alloc: Global, call: &Call, window: &Window) -> Result<String, AllocError>
    ensures { IfOk result (λ text. string_bytes text ≡ answer_text call.now (Win window.now)) }
{
    match *call {
        Call::Window { start, .. } => window_text(alloc, start, window),
        Call::Get { .. }
        | Call::Put { .. }
        | Call::Del { .. }
        | Call::Swap { .. }
        | Call::Range { .. } => Ok(String::new(alloc)),
    }
}

// Of what a swap did.
fn swap_answer(alloc: Global, call: &Call, outcome: Swap) -> Result<String, AllocError>
    ensures { IfOk result (λ text. string_bytes text ≡ answer_text call.now (Swapped outcome)) }
{
    match *call {
        Call::Swap { .. } => swap_words(alloc, outcome),
        Call::Get { .. }
        | Call::Put { .. }
        | Call::Del { .. }
        | Call::Window { .. }
        | Call::Range { .. } => Ok(String::new(alloc)),
    }
}

// Of all pairs of a range.
fn range_answer(alloc: Global, call: &Call, span: &Span) -> Result<String, AllocError>
    ensures { IfOk result (λ text. string_bytes text ≡ answer_text call.now (Many span.now)) }
{
    match *call {
        Call::Range { .. } => range_text(alloc, span),
        Call::Get { .. }
        | Call::Put { .. }
        | Call::Del { .. }
        | Call::Window { .. }
        | Call::Swap { .. } => Ok(String::new(alloc)),
    }
}

// Of a range that is too wide.
fn wide_answer(alloc: Global, call: &Call, reach: u64) -> Result<String, AllocError>
    ensures { IfOk result (λ text. string_bytes text ≡ answer_text call.now (Wide reach)) }
{
    match *call {
        Call::Range { .. } => format!(in alloc; "wide {reach}"),
        Call::Get { .. }
        | Call::Put { .. }
        | Call::Del { .. }
        | Call::Window { .. }
        | Call::Swap { .. } => Ok(String::new(alloc)),
    }
}

// The text of a reply to a call; none for a reply that is not of the call's kind.
fn answer(alloc: Global, call: &Call, reply: &Reply) -> Result<String, AllocError>
    ensures { IfOk result (λ text. string_bytes text ≡ answer_text call.now reply.now) }
{
    match reply {
        Reply::Got(found) => got_answer(alloc, call, *found),
        Reply::Was(old) => was_answer(alloc, call, *old),
        Reply::Gone(old) => gone_answer(alloc, call, *old),
        Reply::Win(window) => window_answer(alloc, call, window),
        Reply::Swapped(outcome) => swap_answer(alloc, call, *outcome),
        Reply::Many(span) => range_answer(alloc, call, span),
        Reply::Wide(reach) => wide_answer(alloc, call, *reach),
    }
}

// The reply, or why there is none.
fn outcome(alloc: Global, line: &Line) -> Result<String, AllocError>
    ensures { IfOk result (λ text. string_bytes text ≡ outcome_text line.now) }
{
    match line {
        Line::Said(said) => answer(alloc, &said.call, &said.reply),
        Line::Fault(page) => format!(in alloc; "fault {page}"),
        Line::Full => String::from_str(alloc, "full"),
        Line::Worn(page) => format!(in alloc; "worn {page}"),
        Line::Damaged(page) => format!(in alloc; "damaged {page}"),
    }
}

/// Appends the line `WORKER NUMBER TOLD` of a worker's call, whatever is told of it.
///
/// # Errors
///
/// `AllocError` where memory was refused; `out` is then as before.
pub fn told_text(
    alloc: Global,
    worker: u32,
    number: u32,
    told: &str,
    out: &mut Vec<u8>,
) -> Result<(), AllocError>
    ensures { out.new.items ≡ (if is_ok result then out.old.items ++ told_line worker number told.now else out.old.items) }
{
    let line = format!(in alloc; "{worker} {number} {told}\n")?;
    out.extend_from_slice(line.as_bytes())
}

/// Appends the line `WORKER NUMBER REPLY` of a worker's call: `some V` or `none` to a get, `new` or `was V` to a put,
/// `gone V` or `none` to a del, `swapped`, `kept V` or `none` to a swap, `window K B` with ` k=v` for each pair to a window from K on, B being the key of its bound or
/// `end`, `range COUNT` with ` k=v` for each pair, or `wide R`, to a range; and `fault P`, `full`, `worn P` or `damaged P` where there is no reply. A reply that is not of its call's
/// kind has no text.
///
/// # Errors
///
/// `AllocError` where memory was refused; `out` is then as before.
pub fn reply_text(
    alloc: Global,
    worker: u32,
    number: u32,
    line: &Line,
    out: &mut Vec<u8>,
) -> Result<(), AllocError>
    ensures { out.new.items ≡ (if is_ok result then out.old.items ++ reply_line worker number line.now else out.old.items) }
{
    let told = outcome(alloc, line)?;
    told_text(alloc, worker, number, &told, out)
}

/// Appends the line of a call that was answered, as `reply_text` does.
///
/// # Errors
///
/// `AllocError` where memory was refused; `out` is then as before.
pub fn said_text(
    alloc: Global,
    worker: u32,
    number: u32,
    call: &Call,
    reply: &Reply,
    out: &mut Vec<u8>,
) -> Result<(), AllocError>
    ensures { out.new.items ≡ (if is_ok result then out.old.items ++ reply_line worker number (lines.Said (record { call = call.now; reply = reply.now })) else out.old.items) }
{
    let told = answer(alloc, call, reply)?;
    told_text(alloc, worker, number, &told, out)
}

/// Appends the line of a call that was answered by a window, as `reply_text` does.
///
/// # Errors
///
/// `AllocError` where memory was refused; `out` is then as before.
pub fn shown_text(
    alloc: Global,
    worker: u32,
    number: u32,
    call: &Call,
    window: &Window,
    out: &mut Vec<u8>,
) -> Result<(), AllocError>
    ensures { out.new.items ≡ (if is_ok result then out.old.items ++ reply_line worker number (lines.Said (record { call = call.now; reply = Win window.now })) else out.old.items) }
{
    let told = window_answer(alloc, call, window)?;
    told_text(alloc, worker, number, &told, out)
}

/// Appends the line of a call that was answered by all pairs of a range, as `reply_text` does.
///
/// # Errors
///
/// `AllocError` where memory was refused; `out` is then as before.
pub fn gathered_text(
    alloc: Global,
    worker: u32,
    number: u32,
    call: &Call,
    span: &Span,
    out: &mut Vec<u8>,
) -> Result<(), AllocError>
    ensures { out.new.items ≡ (if is_ok result then out.old.items ++ reply_line worker number (lines.Said (record { call = call.now; reply = Many span.now })) else out.old.items) }
{
    let told = range_answer(alloc, call, span)?;
    told_text(alloc, worker, number, &told, out)
}

/// Appends the line `row K V` of a pair.
///
/// # Errors
///
/// `AllocError` where memory was refused; `out` is then as before.
pub fn row_text(alloc: Global, key: u64, value: u64, out: &mut Vec<u8>) -> Result<(), AllocError>
    ensures { out.new.items ≡ (if is_ok result then out.old.items ++ row_line (key, value) else out.old.items) }
{
    let line = format!(in alloc; "row {key} {value}\n")?;
    out.extend_from_slice(line.as_bytes())
}

/// Appends the line `counters reads R writes X faults N evicted E`: device calls that answered and that failed, and pages
/// that were evicted.
///
/// # Errors
///
/// `AllocError` where memory was refused; `out` is then as before.
pub fn counters_text(
    alloc: Global,
    reads: u64,
    writes: u64,
    faults: u64,
    evicted: u64,
    out: &mut Vec<u8>,
) -> Result<(), AllocError>
    ensures { out.new.items ≡ (if is_ok result then out.old.items ++ counters_line reads writes faults evicted else out.old.items) }
{
    let line = format!(in alloc;
        "counters reads {reads} writes {writes} faults {faults} evicted {evicted}\n"
    )?;
    out.extend_from_slice(line.as_bytes())
}

/// Appends the line `unflushed P` of a page whose last write failed.
///
/// # Errors
///
/// `AllocError` where memory was refused; `out` is then as before.
pub fn unflushed_text(alloc: Global, page: u32, out: &mut Vec<u8>) -> Result<(), AllocError>
    ensures { out.new.items ≡ (if is_ok result then out.old.items ++ unflushed_line page else out.old.items) }
{
    let line = format!(in alloc; "unflushed {page}\n")?;
    out.extend_from_slice(line.as_bytes())
}

/// Appends the line `tree height H used U rows N` of a tree: the level of its root, its pages that are not all
/// zero, and its pairs.
///
/// # Errors
///
/// `AllocError` where memory was refused; `out` is then as before.
pub fn tree_text(
    alloc: Global,
    height: u64,
    used: u32,
    rows: u64,
    out: &mut Vec<u8>,
) -> Result<(), AllocError>
    ensures { out.new.items ≡ (if is_ok result then out.old.items ++ tree_line height used rows else out.old.items) }
{
    let line = format!(in alloc; "tree height {height} used {used} rows {rows}\n")?;
    out.extend_from_slice(line.as_bytes())
}

/// Appends the line `made P used U height H` of a page file that was built: its pages, those that are not all zero, and
/// the level of its root.
///
/// # Errors
///
/// `AllocError` where memory was refused; `out` is then as before.
pub fn made_text(
    alloc: Global,
    pages: u32,
    used: u32,
    height: u64,
    out: &mut Vec<u8>,
) -> Result<(), AllocError>
    ensures { out.new.items ≡ (if is_ok result then out.old.items ++ made_line pages used height else out.old.items) }
{
    let line = format!(in alloc; "made {pages} used {used} height {height}\n")?;
    out.extend_from_slice(line.as_bytes())
}

/// Appends the line `migrated P used U height H rows N` of a page file that was built of another one's pairs: its pages, those that are not all
/// zero, the level of its root, and its pairs.
///
/// # Errors
///
/// `AllocError` where memory was refused; `out` is then as before.
pub fn migrated_text(
    alloc: Global,
    pages: u32,
    used: u32,
    height: u64,
    rows: u64,
    out: &mut Vec<u8>,
) -> Result<(), AllocError>
    ensures { out.new.items ≡ (if is_ok result then out.old.items ++ migrated_line pages used height rows else out.old.items) }
{
    let line = format!(in alloc; "migrated {pages} used {used} height {height} rows {rows}\n")?;
    out.extend_from_slice(line.as_bytes())
}

/// What came of a churn: how many pairs it began with, how many calls it made, how many of them were a get that found a value,
/// a put of a new key and a del of one that was there, how many pairs were left, and the sum of their values.
#[derive(Clone, Copy)]
pub struct Churned {
    pub pairs: u32,
    pub calls: u64,
    pub some: u64,
    pub new: u64,
    pub gone: u64,
    pub rows: u64,
    pub sum: u64,
}

/// Appends the line `churn N calls C some A new B gone G rows R sum S`.
///
/// # Errors
///
/// `AllocError` where memory was refused; `out` is then as before.
pub fn churn_text(alloc: Global, churned: Churned, out: &mut Vec<u8>) -> Result<(), AllocError>
    ensures { out.new.items ≡ (if is_ok result
        then out.old.items ++ churn_line churned.pairs churned.calls churned.some churned.new churned.gone churned.rows churned.sum
        else out.old.items) }
{
    let Churned {
        pairs,
        calls,
        some,
        new,
        gone,
        rows,
        sum,
    } = churned;
    let line = format!(in alloc;
        "churn {pairs} calls {calls} some {some} new {new} gone {gone} rows {rows} sum {sum}\n"
    )?;
    out.extend_from_slice(line.as_bytes())
}
