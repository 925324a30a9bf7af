//! The text of what the events of a line saw.

ghost use Rattle.std.specs.Prelude.{◌++◌, ◌≡◌, IfOk, if◌then◌else◌, is_ok, string_bytes};
ghost use Rattle.vm_script.specs.EventLines.{state_text};
ghost use Rattle.vm_script.specs.SeenTexts.{FitsLine, seen_line, sight_of as sight_in, told_text};
ghost use Rattle.vm_script.specs.Sights.{found_text, left_name, owner_text, seen_word, sight_text, translation_text, word_text};

use crate::event_line::EventLine;
use std::alloc::{AllocError, Global};
use vm_event::{DIRTY, Event, ReadIs, Seen, StateWord, TransWord};
use vm_page::WORDS;

// How what an event sees is told.
#[derive(Clone, Copy)]
pub(crate) enum Sight {
    Look,
    Exchange,
    NumberExchange,
    Translation,
    Loaded,
    Bits,
    Next,
    Place,
    Owner,
    State,
    Failed,
    Done,
}

// How what this event sees is told.
fn sight_of(event: &Event) -> Sight
    ensures { result ≡ sight_in event.now }
{
    match *event {
        Event::Look { .. } => Sight::Look,
        Event::LockX { .. }
        | Event::LockS { .. }
        | Event::Mark { .. }
        | Event::Unmark { .. }
        | Event::LockW { .. }
        | Event::Upgrade { .. } => Sight::Exchange,
        Event::UnlockS { .. } => Sight::State,
        Event::Release { .. }
        | Event::ReleaseE { .. }
        | Event::Downgrade { .. }
        | Event::Install { .. }
        | Event::Clear { .. }
        | Event::Dirty { .. }
        | Event::Clean { .. }
        | Event::Store { .. }
        | Event::Read { .. }
        | Event::Write { .. }
        | Event::Raise { .. }
        | Event::Own { .. }
        | Event::Disown { .. } => Sight::Done,
        Event::TLoad { .. } => Sight::Translation,
        Event::Load { .. } => Sight::Loaded,
        Event::BLoad { .. } | Event::Give { .. } | Event::PBLoad { .. } | Event::PGive { .. } => {
            Sight::Bits
        }
        Event::Take { .. } | Event::Claim { .. } | Event::PTake { .. } => Sight::NumberExchange,
        Event::RFail { .. } | Event::WFail { .. } => Sight::Failed,
        Event::NLoad { .. } => Sight::Next,
        Event::Hand { .. } => Sight::Place,
        Event::OLoad { .. } => Sight::Owner,
    }
}

// What became of an open read.
fn name_of(left: ReadIs) -> &'static str
    ensures { result.now ≡ left_name left }
{
    match left {
        ReadIs::Opened => "opened",
        ReadIs::Same => "same",
        ReadIs::Moved => "moved",
        ReadIs::Closed => "closed",
    }
}

// A state word as `S:V`.
fn state_string(alloc: Global, word: u64) -> Result<String, AllocError>
    ensures { IfOk result (λ text. string_bytes text ≡ state_text word) }
{
    let version = StateWord::version(word);
    match StateWord::state(word) {
        StateWord::UNLOCKED => format!(in alloc; "u:{version}"),
        StateWord::LOCKED => format!(in alloc; "x:{version}"),
        StateWord::MARKED => format!(in alloc; "m:{version}"),
        StateWord::EVICTED => format!(in alloc; "e:{version}"),
        shares => format!(in alloc; "{shares}:{version}"),
    }
}

// A translation word.
fn translation_string(alloc: Global, word: u64) -> Result<String, AllocError>
    ensures { IfOk result (λ text. string_bytes text ≡ translation_text word) }
{
    if word == TransWord::EMPTY {
        return String::from_str(alloc, "empty");
    }
    if word < DIRTY {
        let frame = word - 1;
        return format!(in alloc; "frame {frame} clean");
    }
    let frame = (word - DIRTY).saturating_sub(1);
    format!(in alloc; "frame {frame} dirty")
}

// The owner word of a frame.
fn owner_string(alloc: Global, word: u64) -> Result<String, AllocError>
    ensures { IfOk result (λ text. string_bytes text ≡ owner_text word) }
{
    if word == 0 {
        return String::from_str(alloc, "owner none");
    }
    let page = word - 1;
    format!(in alloc; "owner {page}")
}

// A word that was seen.
fn word_string(alloc: Global, sight: Sight, word: u64) -> Result<String, AllocError>
    ensures { IfOk result (λ text. string_bytes text ≡ word_text sight word) }
{
    match sight {
        Sight::Translation => translation_string(alloc, word),
        Sight::Loaded => format!(in alloc; "word {word}"),
        Sight::Bits => format!(in alloc; "bits {word}"),
        Sight::Next => format!(in alloc; "next {word}"),
        Sight::Place => format!(in alloc; "place {word}"),
        Sight::Owner => owner_string(alloc, word),
        Sight::State => state_string(alloc, word),
        Sight::Failed => format!(in alloc; "failed {word}"),
        Sight::Look | Sight::Exchange | Sight::NumberExchange | Sight::Done => {
            format!(in alloc; "{word}")
        }
    }
}

// The word that an exchange found.
fn found_string(alloc: Global, sight: Sight, word: u64) -> Result<String, AllocError>
    ensures { IfOk result (λ text. string_bytes text ≡ found_text sight word) }
{
    match sight {
        Sight::Exchange => state_string(alloc, word),
        Sight::NumberExchange
        | Sight::Look
        | Sight::Translation
        | Sight::Loaded
        | Sight::Bits
        | Sight::Next
        | Sight::Place
        | Sight::Owner
        | Sight::State
        | Sight::Failed
        | Sight::Done => format!(in alloc; "{word}"),
    }
}

// What one event saw.
fn sight_string(alloc: Global, sight: Sight, seen: &Seen) -> Result<String, AllocError>
    ensures { IfOk result (λ text. string_bytes text ≡ sight_text sight seen.now) }
{
    match *seen {
        Seen::Done => String::from_str(alloc, "done"),
        Seen::Word(seen) => word_string(alloc, sight, seen),
        Seen::Look { word, left: after } => {
            let word = state_string(alloc, word)?;
            let after = name_of(after);
            format!(in alloc; "{word} {after}")
        }
        Seen::Taken => String::from_str(alloc, "taken"),
        Seen::Lost(seen) => {
            let word = found_string(alloc, sight, seen)?;
            format!(in alloc; "lost {word}")
        }
    }
}

// The word that is seen, and 0 where none is.
fn word_of(seen: &Seen) -> u64
    ensures { result ≡ seen_word seen.now }
{
    match *seen {
        Seen::Word(word) => word,
        Seen::Done | Seen::Look { .. } | Seen::Taken | Seen::Lost(_) => 0,
    }
}

// What the events of a line saw.
fn told_string(alloc: Global, line: &EventLine, seen: &[Seen]) -> Result<String, AllocError>
    requires { FitsLine line.now seen.now }
    ensures { IfOk result (λ text. string_bytes text ≡ told_text line.now seen.now) }
{
    match *line {
        EventLine::One(event) => sight_string(alloc, sight_of(&event), &seen[0]),
        EventLine::Fill { .. } => String::from_str(alloc, "done"),
        EventLine::Loads { .. } => {
            let first = word_of(&seen[0]);
            let last = word_of(&seen[WORDS - 1]);
            format!(in alloc; "words {first} {last}")
        }
    }
}

/// Appends `NUMBER` and what the events of the line saw, as one line: `taken` or `lost` with the word found, the word seen
/// behind its name, or `done`. Of the words that `loads` saw the first and the last are told.
///
/// `seen` has what each event of the line saw: 64 for the short forms `fill` and `loads`, else one.
///
/// # Errors
///
/// `AllocError` where memory was refused; `out` is then as before.
pub fn seen_text(
    alloc: Global,
    number: u32,
    line: &EventLine,
    seen: &[Seen],
    out: &mut Vec<u8>,
) -> Result<(), AllocError>
    requires { FitsLine line.now seen.now }
    ensures { out.new.items ≡ (if is_ok result then out.old.items ++ seen_line number line.now seen.now else out.old.items) }
{
    let told = told_string(alloc, line, seen)?;
    let line = format!(in alloc; "{number} {told}\n")?;
    out.extend_from_slice(line.as_bytes())
}
