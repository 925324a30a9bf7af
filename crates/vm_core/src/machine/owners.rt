//! The events on owner words: who holds a page exclusively writes the page's head into the word of the page's frame, or
//! that the frame is no page's, and anyone loads such a word, to find the head of the page in a frame. A page that is
//! given up in its frame has its head named by it.

ghost use Rattle.std.specs.Prelude.{◌+◌, ◌<◌, ◌↔◌, ◌≡◌, IsTrue, ℕ};
ghost use Rattle.vm_event.specs.Prelude.{IsOwned, NamesActorAndPage, upd};
ghost use Rattle.vm_core.specs.Prelude.{core_of, Steps};
ghost use Rattle.vm_core.specs.CoreOf.{LeaveSteps, OwnedFrame};
ghost use Rattle.vm_event.specs.Step.{NamesActorAndFrame};

use crate::machine::Core;
use vm_event::{Event, Illegal, PageAct, Seen};

impl Core {
    /// The frame of a page that the actor holds exclusively, where it is resident.
    fn held_frame(&self, a: u32, p: u32) -> Option<u32>
        requires { NamesActorAndPage (core_of self.now) a p }
        ensures { OwnedFrame (core_of self.now) a p result }
    {
        self.pages[p as usize].held_frame(a as usize)
    }

    /// The frame whose owner word the actor may write for the page.
    fn owned_frame(&self, a: u32, p: u32) -> Option<u32>
        ensures { OwnedFrame (core_of self.now) a p result }
    {
        if !self.names(a, p) {
            return None;
        }
        self.held_frame(a, p)
    }

    /// Whether the owner word of the page's frame is this one, where the page stands in a frame.
    pub(super) fn is_owned(&self, p: u32, word: u64) -> bool
        requires { p < (core_of self.now).shape.pages }
        ensures { IsTrue result ↔ IsOwned (core_of self.now) p word }
    {
        match self.pages[p as usize].mapping() {
            Some(mapping) => self.owners[mapping.frame as usize] == word,
            None => true,
        }
    }

    /// Whether the owner word of the frame of each page under the head names the head.
    fn are_owned(&self, h: u32) -> bool
        requires { h < (core_of self.now).shape.pages }
        ensures { IsTrue result ↔ ((q : ℕ) → (core_of self.now).head q ≡ h → IsOwned (core_of self.now) q (h + 1)) }
    {
        for q in h..self.group_end(h) {
            if self.head(q) == h && !self.is_owned(q, u64::from(h) + 1) {
                return false;
            }
        }
        true
    }

    /// An event on a state word that gives up the pages under it and leaves each in its frame, whose owner word names
    /// the head.
    pub(super) fn leave(&mut self, a: u32, h: u32, act: PageAct) -> Result<Seen, Illegal>
        ensures { LeaveSteps self.old a h act result self.new }
    {
        if !self.may_over(a, h, act) || !self.are_owned(h) {
            return Err(Illegal);
        }
        self.end_holds(a, h);
        Ok(self.act_over(a, h, act))
    }

    /// The owner word of a frame is written.
    fn put_owner(&mut self, f: u32, w: u64)
        requires { f < self.old.shape.frames }
        ensures { core_of self.new ≡ record (core_of self.old) { owners = upd (core_of self.old).owners f w } }
    {
        self.owners[f as usize] = w;
    }

    /// The frame of a page is named as its head's, where the actor may say so.
    pub(super) fn own(&mut self, a: u32, p: u32) -> Result<Seen, Illegal>
        ensures { Steps self.old (Event.Own a p) result self.new }
    {
        let Some(f) = self.owned_frame(a, p) else {
            return Err(Illegal);
        };
        self.put_owner(f, u64::from(self.head(p)) + 1);
        Ok(Seen::Done)
    }

    /// The frame of a page is no page's, where the actor may say so.
    pub(super) fn disown(&mut self, a: u32, p: u32) -> Result<Seen, Illegal>
        ensures { Steps self.old (Event.Disown a p) result self.new }
    {
        let Some(f) = self.owned_frame(a, p) else {
            return Err(Illegal);
        };
        self.put_owner(f, 0);
        Ok(Seen::Done)
    }

    /// Whether the numbers name an actor and a frame.
    fn names_frame(&self, a: u32, f: u32) -> bool
        ensures { IsTrue result ↔ NamesActorAndFrame (core_of self.now) a f }
    {
        a < self.shape.actors && f < self.shape.frames
    }

    /// The owner word of a frame.
    fn owner(&self, f: u32) -> u64
        requires { f < self.now.shape.frames }
        ensures { result ≡ (core_of self.now).owners f }
    {
        self.owners[f as usize]
    }

    /// A load of an owner word.
    pub(super) fn owner_load(&mut self, a: u32, f: u32) -> Result<Seen, Illegal>
        ensures { Steps self.old (Event.OLoad a f) result self.new }
    {
        if !self.names_frame(a, f) {
            return Err(Illegal);
        }
        Ok(Seen::Word(self.owner(f)))
    }
}
