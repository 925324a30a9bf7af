//! Readers of one line of an event list and of its parts.

ghost use Rattle.std.specs.Fmt.{decimal};
ghost use Rattle.std.specs.Prelude.{◌<◌, ◌^◌, ◌↔◌, ◌≤◌, IsTrue, length};
ghost use Rattle.vm_script.specs.EventLines.{AreFields, event_line_text, field_text, fields_text, IsEventLine, IsField, IsShape, shape_text};
ghost use Rattle.vm_script.specs.EventLines.{state_name, state_text};
ghost use Rattle.vm_script.specs.EventWords.{IsShareCount, ReadsAs, used_of};
ghost use Rattle.vm_script.specs.Verbs.{verb_name};

use crate::event_line::{EventLine, FieldKind, VERBS, Verb, kinds_of, line_with, name_of};
use crate::number::number_of;
use crate::script::cut;
use vm_event::{CoreShape, FRAMES, MAX_VERSION, StateWord};
use vm_page::WORDS;

// The verb that a word names.
fn verb_of(word: &[u8]) -> Option<Verb>
    ensures { ReadsAs (λ verb. Unit {0}) verb_name word.now result }
{
    'verbs: for verb in VERBS.iter() {
        if word == name_of(*verb) {
            return Some(*verb);
        }
    }
    None
}

// The number of shares that a decimal tells.
fn shares_of(name: &[u8]) -> Option<u8>
    ensures { ReadsAs IsShareCount decimal name.now result }
{
    let Some(shares) = number_of(name) else {
        return None;
    };
    if 1 <= shares && shares <= u64::from(StateWord::MAX_SHARES) {
        Some(shares as u8)
    } else {
        None
    }
}

// The state that stands before the colon of a state word.
fn state_of(name: &[u8]) -> Option<u8>
    ensures { ReadsAs (λ state. state < 256) state_name name.now result }
{
    if name == b"u".as_slice() {
        return Some(StateWord::UNLOCKED);
    }
    if name == b"x".as_slice() {
        return Some(StateWord::LOCKED);
    }
    if name == b"m".as_slice() {
        return Some(StateWord::MARKED);
    }
    if name == b"e".as_slice() {
        return Some(StateWord::EVICTED);
    }
    shares_of(name)
}

// The state word that `S:V` spells.
fn state_word_of(text: &[u8]) -> Option<u64>
    ensures { ReadsAs (λ word. word < 2 ^ 64) state_text text.now result }
{
    let Some((name, version)) = cut(text, b':') else {
        return None;
    };
    let Some(state) = state_of(name) else {
        return None;
    };
    let Some(version) = number_of(version) else {
        return None;
    };
    if version > MAX_VERSION {
        return None;
    }
    Some(StateWord::of(state, version))
}

// Whether a number may stand where this kind is wanted.
fn is_field(kind: FieldKind, shape: &CoreShape, value: u64) -> bool
    requires { IsShape shape.now }
    ensures { value < 2 ^ 64 → (IsTrue result ↔ IsField shape.now kind value) }
{
    match kind {
        FieldKind::Actor => value < u64::from(shape.actors),
        FieldKind::Page => value < u64::from(shape.pages),
        FieldKind::Frame => value < u64::from(shape.frames),
        FieldKind::Place => value < WORDS as u64,
        FieldKind::Bundle => value <= u64::from((shape.frames - 1) / FRAMES as u32),
        FieldKind::Spare => value <= u64::from((shape.pages - 1) / FRAMES as u32),
        FieldKind::Word | FieldKind::State => true,
        FieldKind::Count => value < 0x1_0000_0000,
    }
}

// The number of this kind that a word spells.
fn field_of(kind: FieldKind, shape: &CoreShape, word: &[u8]) -> Option<u64>
    requires { IsShape shape.now }
    ensures { ReadsAs (IsField shape.now kind) (field_text kind) word.now result }
{
    if let FieldKind::State = kind {
        return state_word_of(word);
    }
    let Some(value) = number_of(word) else {
        return None;
    };
    if is_field(kind, shape, value) {
        Some(value)
    } else {
        None
    }
}

// The numbers of these kinds that words with single spaces between them spell; those past the last kind are 0.
pub(crate) fn fields_of(
    kinds: &[FieldKind],
    shape: &CoreShape,
    text: &[u8],
) -> Option<(u64, u64, u64, u64)>
    requires shape { IsShape shape.now }
    requires some { 1 ≤ length kinds.now }
    requires few { length kinds.now ≤ 4 }
    ensures { ReadsAs (AreFields shape.now kinds.now) (fields_text kinds.now) text.now (used_of kinds.now result) }
{
    let Some((kind, more)) = kinds.split_first() else {
        return None;
    };
    if more.is_empty() {
        let Some(value) = field_of(*kind, shape, text) else {
            return None;
        };
        return Some((value, 0, 0, 0));
    }
    let Some((word, rest)) = cut(text, b' ') else {
        return None;
    };
    let Some(first) = field_of(*kind, shape, word) else {
        return None;
    };
    let Some((second, third, fourth, _)) = fields_of(more, shape, rest) else {
        return None;
    };
    Some((first, second, third, fourth))
}

// The line that the bytes spell.
pub(crate) fn event_line_of(line: &[u8], shape: &CoreShape) -> Option<EventLine>
    requires { IsShape shape.now }
    ensures { ReadsAs (IsEventLine shape.now) event_line_text line.now result }
{
    let Some((word, rest)) = cut(line, b' ') else {
        return None;
    };
    let Some(verb) = verb_of(word) else {
        return None;
    };
    let Some(values) = fields_of(kinds_of(verb), shape, rest) else {
        return None;
    };
    Some(line_with(verb, values))
}

// Whether a shape is within its limits.
fn is_shape(shape: &CoreShape) -> bool
    ensures { IsTrue result ↔ IsShape shape.now }
{
    let pages = 1 <= shape.pages && shape.pages <= 64;
    let frames = 1 <= shape.frames && shape.frames <= 256;
    let actors = 1 <= shape.actors && shape.actors <= 64;
    let next = 1 <= shape.next && shape.next <= shape.pages;
    pages && frames && actors && next
}

// A shape whose numbers may be counts.
pub(crate) const LARGEST: CoreShape = CoreShape {
    pages: 64,
    frames: 256,
    actors: 64,
    next: 64,
};

// The shape that the first line spells.
pub(crate) fn shape_of(line: &[u8]) -> Option<CoreShape>
    ensures { ReadsAs IsShape shape_text line.now result }
{
    let Some((word, rest)) = cut(line, b' ') else {
        return None;
    };
    if word != b"shape".as_slice() {
        return None;
    }
    let counts = [
        FieldKind::Count,
        FieldKind::Count,
        FieldKind::Count,
        FieldKind::Count,
    ];
    let Some((pages, frames, actors, next)) = fields_of(&counts, &LARGEST, rest) else {
        return None;
    };
    let shape = CoreShape {
        pages: pages as u32,
        frames: frames as u32,
        actors: actors as u32,
        next: next as u32,
    };
    if is_shape(&shape) { Some(shape) } else { None }
}
