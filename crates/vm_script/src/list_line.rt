//! A line of an event list behind the shape's: a group of pages, or an event.

ghost use Rattle.std.specs.List.{AllByRecursion};
ghost use Rattle.std.specs.Prelude.{[], ◌++◌, ◌∷◌, ◌↔◌, IsTrue};
ghost use Rattle.vm_event.specs.Groups.{ShareNoPage, GroupsFit, IsGroup};
ghost use Rattle.vm_script.specs.{EventLines.group_text, EventLines.IsShape, EventWords.AreSmall, EventWords.ReadsAs};
ghost use Rattle.vm_script.specs.ListLines.{IsNextLine, list_line_text};

use crate::event_line::{EventLine, FieldKind};
use crate::event_words::{LARGEST, event_line_of, fields_of};
use crate::script::cut;
use vm_event::CoreShape;

/// A line behind the shape's.
#[derive(Clone, Copy)]
pub(crate) enum ListLine {
    /// A group, by its first page and its number of pages.
    Group((u32, u32)),
    Event(EventLine),
}

// The two numbers of a group line.
fn group_of(line: &[u8]) -> Option<(u32, u32)>
    ensures { ReadsAs AreSmall group_text line.now result }
{
    let Some((word, rest)) = cut(line, b' ') else {
        return None;
    };
    if word != b"group".as_slice() {
        return None;
    }
    let counts = [FieldKind::Count, FieldKind::Count];
    let Some((head, size, _, _)) = fields_of(&counts, &LARGEST, rest) else {
        return None;
    };
    Some((head as u32, size as u32))
}

// Whether it is a group of so many pages.
fn is_group(pages: u32, group: (u32, u32)) -> bool
    ensures { IsTrue result ↔ IsGroup pages group }
{
    let (head, size) = group;
    (size == 2 || size == 4 || size == 8)
        && head % size == 0
        && u64::from(head) + u64::from(size) <= u64::from(pages)
}

// Whether two groups share no page.
fn are_apart(one: (u32, u32), other: (u32, u32)) -> bool
    ensures { IsTrue result ↔ ShareNoPage one other }
{
    u64::from(one.0) + u64::from(one.1) <= u64::from(other.0)
        || u64::from(other.0) + u64::from(other.1) <= u64::from(one.0)
}

// Whether a group shares no page with one of the others.
fn is_beside(groups: &[(u32, u32)], group: (u32, u32)) -> bool
    ensures { IsTrue result ↔ AllByRecursion (λ other. ShareNoPage other group) groups.now }
{
    for other in groups {
        if !are_apart(*other, group) {
            return false;
        }
    }
    true
}

// The group that a line says, where it fits beside the others.
fn next_group_of(line: &[u8], pages: u32, groups: &[(u32, u32)]) -> Option<(u32, u32)>
    requires { GroupsFit pages groups.now }
    ensures { ReadsAs (λ group. GroupsFit pages (groups.now ++ group ∷ [])) group_text line.now result }
{
    let Some(group) = group_of(line) else {
        return None;
    };
    if is_group(pages, group) && is_beside(groups, group) {
        Some(group)
    } else {
        None
    }
}

// The line that the bytes spell behind these groups and event lines.
pub(crate) fn list_line_of(
    line: &[u8],
    shape: &CoreShape,
    groups: &[(u32, u32)],
    lines: &[EventLine],
) -> Option<ListLine>
    requires shape { IsShape shape.now }
    requires groups { GroupsFit shape.now.pages groups.now }
    ensures { ReadsAs (IsNextLine shape.now groups.now lines.now) list_line_text line.now result }
{
    if lines.is_empty() {
        if let Some(group) = next_group_of(line, shape.pages, groups) {
            return Some(ListLine::Group(group));
        }
    }
    match event_line_of(line, shape) {
        Some(event) => Some(ListLine::Event(event)),
        None => None,
    }
}
