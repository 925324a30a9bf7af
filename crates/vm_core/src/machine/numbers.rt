//! The events on free-number words: page numbers go to an actor and become free; and the hold of a number that ends.

ghost use Rattle.std.specs.Prelude.{◌*◌, ◌<◌, ◌↔◌, ◌≡◌, false, IsTrue, true, ℕ};
ghost use Rattle.vm_event.specs.Prelude.{in_mask, NamesActorAndPage, upd};
ghost use Rattle.vm_core.specs.Prelude.{core_of, Steps};
ghost use Rattle.vm_event.specs.Step.{keeps_number, MayGiveNumbers, MayTakeNumbers, NamesSpares, number_left};
ghost use Rattle.vm_event.specs.Step.{numbers_given, numbers_taken};

use crate::frames::frame_words;
use crate::machine::Core;
use vm_event::{Event, FRAMES, Illegal, Seen};
use vm_page::WORDS;

impl Core {
    /// Whether the numbers name an actor and a free-number word.
    fn names_spares(&self, a: u32, g: u32) -> bool
        ensures { IsTrue result ↔ NamesSpares (core_of self.now) a g }
    {
        a < self.shape.actors && (u64::from(g) * FRAMES as u64) < u64::from(self.shape.pages)
    }

    /// A free-number word.
    fn spare(&self, g: u32) -> u64
        requires { g * FRAMES < self.now.shape.pages }
        ensures { result ≡ (core_of self.now).spares g }
    {
        self.spares[g as usize]
    }

    /// A load of a free-number word.
    pub(super) fn spare_load(&mut self, a: u32, g: u32) -> Result<Seen, Illegal>
        ensures { Steps self.old (Event.PBLoad a g) result self.new }
    {
        if !self.names_spares(a, g) {
            return Err(Illegal);
        }
        Ok(Seen::Word(self.spare(g)))
    }

    /// Whether the mask is a part, not empty, of the expected word.
    fn may_take_numbers(&self, a: u32, g: u32, expects: u64, mask: u64) -> bool
        ensures { IsTrue result ↔ MayTakeNumbers (core_of self.now) a g expects mask }
    {
        self.names_spares(a, g) && mask != 0 && mask & expects == mask
    }

    /// The numbers of the mask go from their word to the actor.
    fn numbers_to_actor(&mut self, a: u32, g: u32, expects: u64, mask: u64)
        requires may { MayTakeNumbers (core_of self.old) a g expects mask }
        requires found { (core_of self.old).spares g ≡ expects }
        ensures { core_of self.new ≡ numbers_taken (core_of self.old) a g expects mask }
    {
        self.spares[g as usize] = expects ^ mask;
        let row = &mut self.numbers[a as usize];
        row.add(g as usize, mask);
    }

    /// The numbers of the mask go to the actor, where the free-number word is the expected one.
    pub(super) fn take_numbers(
        &mut self,
        a: u32,
        g: u32,
        expects: u64,
        mask: u64,
    ) -> Result<Seen, Illegal>
        ensures { Steps self.old (Event.PTake a g expects mask) result self.new }
    {
        if !self.may_take_numbers(a, g, expects, mask) {
            return Err(Illegal);
        }
        let word = self.spare(g);
        if word != expects {
            return Ok(Seen::Lost(word));
        }
        self.numbers_to_actor(a, g, expects, mask);
        Ok(Seen::Taken)
    }

    /// Whether the bits of the mask are of pages.
    fn are_pages(&self, g: u32, mask: u64) -> bool
        requires { g * FRAMES < self.now.shape.pages }
        ensures { IsTrue result ↔ ((p : ℕ) → in_mask g mask p ≡ true → p < (core_of self.now).shape.pages) }
    {
        let left = self.shape.pages - g * FRAMES as u32;
        left >= FRAMES as u32 || mask >> left == 0
    }

    /// Whether no other actor holds a number of the mask.
    fn nobody_else_holds(&self, a: u32, g: u32, mask: u64) -> bool
        requires { g * FRAMES < self.now.shape.pages }
        ensures { IsTrue result ↔ ((b p : ℕ) → (b ≡ a → ⊥) → in_mask g mask p ≡ true → (core_of self.now).numbers b p ≡ false) }
    {
        for b in 0..self.shape.actors {
            if b != a && self.numbers[b as usize].has_any(g as usize, mask) {
                return false;
            }
        }
        true
    }

    /// Whether the numbers of the mask may be given: they are of pages, none of their bits is set, and no other actor holds one.
    fn may_give_numbers(&self, a: u32, g: u32, mask: u64) -> bool
        ensures { IsTrue result ↔ MayGiveNumbers (core_of self.now) a g mask }
    {
        if !self.names_spares(a, g) || mask == 0 || !self.are_pages(g, mask) {
            return false;
        }
        self.spare(g) & mask == 0 && self.nobody_else_holds(a, g, mask)
    }

    /// The numbers of the mask become free.
    fn numbers_to_word(&mut self, a: u32, g: u32, mask: u64)
        requires { MayGiveNumbers (core_of self.old) a g mask }
        ensures { core_of self.new ≡ numbers_given (core_of self.old) a g mask }
    {
        self.spares[g as usize] |= mask;
        let row = &mut self.numbers[a as usize];
        row.remove_all(g as usize, mask);
    }

    /// The numbers of the mask become free, where they may.
    pub(super) fn give_numbers(&mut self, a: u32, g: u32, mask: u64) -> Result<Seen, Illegal>
        ensures { Steps self.old (Event.PGive a g mask) result self.new }
    {
        if !self.may_give_numbers(a, g, mask) {
            return Err(Illegal);
        }
        let word = self.spare(g);
        self.numbers_to_word(a, g, mask);
        Ok(Seen::Word(word))
    }

    /// Whether who leaves the page keeps its number: the page's words are all 0.
    fn keeps_number(&self, p: u32) -> bool
        requires { p < (core_of self.now).shape.pages }
        ensures { result ≡ keeps_number (core_of self.now) p }
    {
        match self.pages[p as usize].mapping() {
            Some(mapping) => frame_words(&self.frames, mapping.frame) == [0; WORDS],
            None => true,
        }
    }

    /// The actor holds the number of the page no more.
    fn end_hold(&mut self, a: u32, p: u32)
        requires { NamesActorAndPage (core_of self.old) a p }
        ensures { core_of self.new ≡ record (core_of self.old) { numbers = upd (core_of self.old).numbers a (upd ((core_of self.old).numbers a) p false) } }
    {
        let row = &mut self.numbers[a as usize];
        row.remove(p);
    }

    /// The actor holds the number of no page under the head but of those that it keeps.
    pub(super) fn end_holds(&mut self, a: u32, h: u32)
        requires { NamesActorAndPage (core_of self.old) a h }
        ensures { core_of self.new ≡ record (core_of self.old) { numbers = number_left (core_of self.old) a h } }
    {
        for q in h..self.group_end(h) {
            if self.head(q) == h && !self.keeps_number(q) {
                self.end_hold(a, q);
            }
        }
    }
}
