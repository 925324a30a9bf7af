//! The events on frames: a held frame goes under a page and comes back, and words are loaded and stored.

ghost use Rattle.std.specs.Prelude.{◌<◌, ◌↔◌, ◌≡◌, false, IsTrue, slice_index, true, ℕ};
ghost use Rattle.vm_event.specs.Prelude.{HoldsAt, load_frame, NamesActorAndPage, stored_at};
ghost use Rattle.vm_core.specs.Prelude.{ClearFrame, core_of, Steps};
ghost use Rattle.vm_event.specs.Step.{MayPut, MayStore, put_under, taken_out};

use crate::frames::frame_words;
use crate::machine::Core;
use vm_event::{Event, Illegal, Seen};
use vm_page::WORDS;

impl Core {
    /// Whether the actor holds the frame.
    fn holds(&self, a: u32, f: u32) -> bool
        requires actor { a < self.now.shape.actors }
        requires frame { f < self.now.shape.frames }
        ensures { result ≡ (core_of self.now).held a f }
    {
        self.held[a as usize].has(f)
    }

    /// Whether the actor may put its frame under the page: it holds both, and the words of the frame are the block's.
    fn may_install(&self, a: u32, p: u32, f: u32) -> bool
        ensures { IsTrue result ↔ MayPut (core_of self.now) a p f }
    {
        if !self.names(a, p) || f >= self.shape.frames || !self.holds(a, f) {
            return false;
        }
        let words = &self.frames[f as usize];
        self.pages[p as usize].may_install(a as usize, words)
    }

    /// A held frame goes under the page.
    fn map_frame(&mut self, a: u32, p: u32, f: u32)
        requires { MayPut (core_of self.old) a p f }
        ensures { core_of self.new ≡ put_under (core_of self.old) a p f }
    {
        let page = &mut self.pages[p as usize];
        page.install(f);
        let row = &mut self.held[a as usize];
        row.remove(f);
    }

    /// A held frame goes under the page, where it may.
    pub(super) fn install(&mut self, a: u32, p: u32, f: u32) -> Result<Seen, Illegal>
        ensures { Steps self.old (Event.Install a p f) result self.new }
    {
        if !self.may_install(a, p, f) {
            return Err(Illegal);
        }
        self.map_frame(a, p, f);
        Ok(Seen::Done)
    }

    /// The frame of a page that the actor may clear.
    fn clear_frame(&self, a: u32, p: u32) -> Option<u32>
        requires { NamesActorAndPage (core_of self.now) a p }
        ensures { ClearFrame ((core_of self.now).pages p) a result }
    {
        self.pages[p as usize].clear_frame(a as usize)
    }

    /// The page's frame goes to the actor.
    fn unmap_frame(&mut self, a: u32, p: u32, f: u32)
        requires names { NamesActorAndPage (core_of self.old) a p }
        requires holds { HoldsAt ((core_of self.old).pages p) a f false }
        ensures { core_of self.new ≡ taken_out (core_of self.old) a p }
    {
        let page = &mut self.pages[p as usize];
        page.clear();
        let row = &mut self.held[a as usize];
        row.insert(f);
    }

    /// The frame of a page goes to the actor, where it may: the frame's owner word names no page.
    pub(super) fn clear(&mut self, a: u32, p: u32) -> Result<Seen, Illegal>
        ensures { Steps self.old (Event.Clear a p) result self.new }
    {
        if !self.names(a, p) {
            return Err(Illegal);
        }
        let Some(f) = self.clear_frame(a, p) else {
            return Err(Illegal);
        };
        if !self.is_owned(p, 0) {
            return Err(Illegal);
        }
        self.unmap_frame(a, p, f);
        Ok(Seen::Done)
    }

    /// The frame that a load of the actor reads.
    fn load_frame(&self, a: u32, p: u32) -> Option<u32>
        requires { NamesActorAndPage (core_of self.now) a p }
        ensures { result ≡ load_frame ((core_of self.now).pages p) a }
    {
        self.pages[p as usize].load_frame(a as usize)
    }

    /// A word of a frame. A frame past the last reads as zeros.
    fn frame_word(&self, f: u32, i: u32) -> u64
        requires { i < WORDS }
        ensures { result ≡ slice_index ((core_of self.now).words f) i }
    {
        frame_words(&self.frames, f)[i as usize]
    }

    /// A load of a word, which changes nothing.
    pub(super) fn load(&mut self, a: u32, p: u32, i: u32) -> Result<Seen, Illegal>
        ensures { Steps self.old (Event.Load a p i) result self.new }
    {
        if !self.names(a, p) || i as usize >= WORDS {
            return Err(Illegal);
        }
        let Some(f) = self.load_frame(a, p) else {
            return Err(Illegal);
        };
        Ok(Seen::Word(self.frame_word(f, i)))
    }

    /// Whether the actor holds a dirty page exclusively in the frame.
    fn writes_to(&self, a: u32, f: u32) -> bool
        requires { a < self.now.shape.actors }
        ensures { IsTrue result ↔ ((p : ℕ) × (p < self.now.shape.pages) × HoldsAt ((core_of self.now).pages p) a f true) }
    {
        for p in 0..self.pages.len() {
            if self.pages[p].writes_to(a as usize, f) {
                return true;
            }
        }
        false
    }

    /// Whether the actor may store into the frame: it holds the frame itself, or a dirty page in it exclusively.
    fn may_store(&self, a: u32, f: u32, i: u32) -> bool
        ensures { IsTrue result ↔ MayStore (core_of self.now) a f i }
    {
        a < self.shape.actors
            && f < self.shape.frames
            && (i as usize) < WORDS
            && (self.holds(a, f) || self.writes_to(a, f))
    }

    /// A word of a frame is written.
    fn put_word(&mut self, f: u32, i: u32, w: u64)
        requires frame { f < self.old.shape.frames }
        requires place { i < WORDS }
        ensures { core_of self.new ≡ stored_at (core_of self.old) f i w }
    {
        let words = &mut self.frames[f as usize];
        words[i as usize] = w;
    }

    /// A store of a word, where it may be.
    pub(super) fn store(&mut self, a: u32, f: u32, i: u32, w: u64) -> Result<Seen, Illegal>
        ensures { Steps self.old (Event.Store a f i w) result self.new }
    {
        if !self.may_store(a, f, i) {
            return Err(Illegal);
        }
        self.put_word(f, i, w);
        Ok(Seen::Done)
    }
}
