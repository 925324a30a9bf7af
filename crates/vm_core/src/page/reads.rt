//! Optimistic reads of a page: looks, the frame of an open read, and what a load reads.

ghost use Rattle.std.specs.Prelude.{◌&&◌, ◌<◌, ◌==◌, ◌||◌, ◌≡◌, if◌then◌else◌, is_some, length, nat_lt};
ghost use Rattle.vm_event.specs.Prelude.{frame_of, frame_read, framed, left_open, load_frame, looked, open_after};
ghost use Rattle.vm_event.specs.Prelude.{open_frame, trans_word};
ghost use Rattle.vm_core.specs.Prelude.{page_of};
ghost use Rattle.vm_event.specs.PageStep.{page_seen};
ghost use Rattle.vm_event.specs.declared.event.ReadIs.TheVariants.{Closed};

use crate::page::{PageCell, trans_word};
use vm_event::{Mapping, Open, PageAct, ReadIs, Seat, Seen, StateWord};

#[tactic(auto, using(vm_event::proofs::At::at_set, vm_event::proofs::At::seat_here))]
impl PageCell {
    /// A look, which sees the state word and what it leaves of the actor's open read.
    pub(super) fn look(&mut self, a: usize) -> Seen
        requires { a < length self.old.seats }
        ensures page { page_of self.new ≡ looked (page_of self.old) a }
        ensures sight { result ≡ page_seen (page_of self.old) a PageAct.Look }
        ensures seats { length self.new.seats ≡ length self.old.seats }
    {
        let word = self.word();
        let reading = self.seats[a].reading;
        let left = left_read(self.state, self.version, reading);
        self.seats[a].reading = reading_after(left, reading, self.version);
        Seen::Look { word, left }
    }

    /// A load of the translation word: an open read without a frame gets the page's.
    pub(super) fn load_translation(&mut self, a: usize) -> Seen
        requires { a < length self.old.seats }
        ensures page { page_of self.new ≡ frame_read (page_of self.old) a }
        ensures sight { result ≡ Seen.Word (trans_word self.old.trans) }
        ensures seats { length self.new.seats ≡ length self.old.seats }
    {
        let word = trans_word(self.trans);
        let reading = framed(self.seats[a].reading, self.trans);
        self.seats[a].reading = reading;
        Seen::Word(word)
    }

    /// The frame that a load of the actor reads: the page's under a lock of the actor, else that of its open read.
    pub fn load_frame(&self, a: usize) -> Option<u32>
        requires { a < length self.now.seats }
        ensures { result ≡ load_frame (page_of self.now) a }
    {
        let seat = self.seats[a];
        frame_read_by(seat, self.trans)
    }
}

/// What a look leaves of an open read.
fn left_read(state: u8, version: u64, reading: Option<Open>) -> ReadIs
    ensures { result ≡ (if nat_lt state 253 || state == 254 then left_open reading version else Closed) }
{
    if state < StateWord::LOCKED || state == StateWord::MARKED {
        match reading {
            None => ReadIs::Opened,
            Some(open) if open.version == version => ReadIs::Same,
            Some(_) => ReadIs::Moved,
        }
    } else {
        ReadIs::Closed
    }
}

/// The open read that a look leaves.
fn reading_after(left: ReadIs, reading: Option<Open>, version: u64) -> Option<Open>
    ensures { result ≡ open_after left reading version }
{
    match left {
        ReadIs::Same => reading,
        ReadIs::Opened | ReadIs::Moved => Some(Open {
            version,
            frame: None,
        }),
        ReadIs::Closed => None,
    }
}

/// The open read with the frame that it has, else the page's.
fn framed(reading: Option<Open>, trans: Option<Mapping>) -> Option<Open>
    ensures { result ≡ framed reading trans }
{
    match (reading, trans) {
        (None, _) => None,
        (Some(open), None) => Some(open),
        (Some(open), Some(mapping)) => match open.frame {
            Some(_) => Some(open),
            None => Some(Open {
                version: open.version,
                frame: Some(mapping.frame),
            }),
        },
    }
}

/// The frame that a load reads.
fn frame_read_by(seat: Seat, trans: Option<Mapping>) -> Option<u32>
    ensures { result ≡ (if (seat.exclusive || nat_lt 0 seat.shares) && is_some trans then frame_of trans else open_frame seat.reading) }
{
    match trans {
        Some(mapping) if seat.exclusive || seat.shares > 0 => Some(mapping.frame),
        _ => match seat.reading {
            Some(open) => open.frame,
            None => None,
        },
    }
}
