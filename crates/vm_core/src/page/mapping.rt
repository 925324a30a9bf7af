//! The frame under a page: put there, taken away, made dirty and clean.

ghost use Rattle.std.specs.Prelude.{◌<◌, ◌↔◌, ◌≡◌, IsTrue, length, true};
ghost use Rattle.vm_event.specs.Prelude.{cleared, HoldsAt, installed, MayClean, MayDirty, MayInstall};
ghost use Rattle.vm_core.specs.Prelude.{ClearFrame, HeldFrame, page_of};
ghost use Rattle.vm_event.specs.Prelude.{with_dirty};
ghost use Rattle.vm_core.specs.Prelude.{words_of_frames};

use crate::frames::frame_words;
use crate::page::PageCell;
use vm_event::{Mapping, Seen};
use vm_page::WORDS;

#[tactic(auto, using(vm_event::proofs::At::at_set, vm_event::proofs::At::seat_here))]
impl PageCell {
    /// Whether the actor may put a frame with these words under the page.
    pub fn may_install(&self, a: usize, words: &[u64; WORDS]) -> bool
        requires { a < length self.now.seats }
        ensures { IsTrue result ↔ MayInstall true (page_of self.now) a words.now }
    {
        if !self.seats[a].exclusive || self.trans.is_some() {
            return false;
        }
        words.as_slice() == self.block.as_slice()
    }

    /// The frame is put under the page, clean.
    pub fn install(&mut self, f: u32)
        ensures page { page_of self.new ≡ installed (page_of self.old) f }
        ensures seats { self.new.seats ≡ self.old.seats }
    {
        self.trans = Some(Mapping {
            frame: f,
            dirty: false,
        });
    }

    /// The frame of a page that the actor may clear: it holds the page exclusively, and the page is clean.
    pub fn clear_frame(&self, a: usize) -> Option<u32>
        requires { a < length self.now.seats }
        ensures { ClearFrame (page_of self.now) a result }
    {
        match self.trans {
            Some(mapping) if self.seats[a].exclusive && !mapping.dirty => Some(mapping.frame),
            _ => None,
        }
    }

    /// The frame of the page, where the actor holds it exclusively and it is resident.
    pub fn held_frame(&self, a: usize) -> Option<u32>
        requires { a < length self.now.seats }
        ensures { HeldFrame (page_of self.now) a result }
    {
        match self.trans {
            Some(mapping) if self.seats[a].exclusive => Some(mapping.frame),
            _ => None,
        }
    }

    /// Where the page stands.
    pub fn mapping(&self) -> Option<Mapping>
        ensures { result ≡ self.now.trans }
    {
        self.trans
    }

    /// The page is taken out of its frame.
    pub fn clear(&mut self)
        ensures page { page_of self.new ≡ cleared (page_of self.old) }
        ensures seats { self.new.seats ≡ self.old.seats }
    {
        self.trans = None;
    }

    /// Whether the actor holds the page exclusively, dirty, in this frame.
    pub fn writes_to(&self, a: usize, f: u32) -> bool
        requires { a < length self.now.seats }
        ensures { IsTrue result ↔ HoldsAt (page_of self.now) a f true }
    {
        match self.trans {
            Some(mapping) => self.seats[a].exclusive && mapping.frame == f && mapping.dirty,
            None => false,
        }
    }

    /// Whether the actor holds the page exclusively, and it is resident.
    pub fn may_dirty(&self, a: usize) -> bool
        requires { a < length self.now.seats }
        ensures { IsTrue result ↔ MayDirty (page_of self.now) a }
    {
        self.seats[a].exclusive && self.trans.is_some()
    }

    /// The translation is made dirty or clean.
    pub(super) fn set_dirty(&mut self, dirty: bool) -> Seen
        ensures page { page_of self.new
            ≡ record (page_of self.old) { trans = with_dirty dirty (page_of self.old).trans } }
        ensures sight { result ≡ Seen.Done }
        ensures seats { length self.new.seats ≡ length self.old.seats }
    {
        self.trans = with_dirty(dirty, self.trans);
        Seen::Done
    }

    /// Whether the actor writes the page back, and the block has the words of its frame.
    pub(super) fn may_clean(&self, a: usize, frames: &[[u64; WORDS]]) -> bool
        requires { a < length self.now.seats }
        ensures { IsTrue result ↔ MayClean true (words_of_frames frames.now) (page_of self.now) a }
    {
        if !self.seats[a].writing {
            return false;
        }
        match self.trans {
            None => false,
            Some(mapping) => {
                let words = frame_words(frames, mapping.frame);
                self.block.as_slice() == words.as_slice()
            }
        }
    }
}

/// The translation made dirty or clean.
fn with_dirty(dirty: bool, trans: Option<Mapping>) -> Option<Mapping>
    ensures { result ≡ with_dirty dirty trans }
{
    match trans {
        None => None,
        Some(mapping) => Some(Mapping { dirty, ..mapping }),
    }
}
