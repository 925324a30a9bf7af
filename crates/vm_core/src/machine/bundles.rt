//! The events on bundle words: free frames go to an actor and come back.

ghost use Rattle.std.specs.Prelude.{◌*◌, ◌<◌, ◌↔◌, ◌≡◌, IsTrue};
ghost use Rattle.vm_event.specs.Prelude.{NamesBundle, taken};
ghost use Rattle.vm_core.specs.Prelude.{core_of, Steps};
ghost use Rattle.vm_event.specs.Step.{given, MayGive, MayTake};

use crate::machine::Core;
use vm_event::{Event, FRAMES, Illegal, Seen};

impl Core {
    /// Whether the numbers name an actor and a bundle.
    fn names_bundle(&self, a: u32, g: u32) -> bool
        ensures { IsTrue result ↔ NamesBundle (core_of self.now) a g }
    {
        a < self.shape.actors && (u64::from(g) * FRAMES as u64) < u64::from(self.shape.frames)
    }

    /// A bundle word.
    fn bundle(&self, g: u32) -> u64
        requires { g * FRAMES < self.now.shape.frames }
        ensures { result ≡ (core_of self.now).bundles g }
    {
        self.bundles[g as usize]
    }

    /// A load of a bundle word.
    pub(super) fn bundle_load(&mut self, a: u32, g: u32) -> Result<Seen, Illegal>
        ensures { Steps self.old (Event.BLoad a g) result self.new }
    {
        if !self.names_bundle(a, g) {
            return Err(Illegal);
        }
        Ok(Seen::Word(self.bundle(g)))
    }

    /// Whether the mask is a part, not empty, of the expected word.
    fn may_take(&self, a: u32, g: u32, expects: u64, mask: u64) -> bool
        ensures { IsTrue result ↔ MayTake (core_of self.now) a g expects mask }
    {
        self.names_bundle(a, g) && mask != 0 && mask & expects == mask
    }

    /// The frames of the mask go from their bundle to the actor.
    fn move_to_actor(&mut self, a: u32, g: u32, expects: u64, mask: u64)
        requires may { MayTake (core_of self.old) a g expects mask }
        requires found { (core_of self.old).bundles g ≡ expects }
        ensures { core_of self.new ≡ taken (core_of self.old) a g expects mask }
    {
        self.bundles[g as usize] = expects ^ mask;
        let row = &mut self.held[a as usize];
        row.add(g as usize, mask);
    }

    /// The frames of the mask go to the actor, where the bundle word is the expected one.
    pub(super) fn take(&mut self, a: u32, g: u32, expects: u64, mask: u64) -> Result<Seen, Illegal>
        ensures { Steps self.old (Event.Take a g expects mask) result self.new }
    {
        if !self.may_take(a, g, expects, mask) {
            return Err(Illegal);
        }
        let word = self.bundle(g);
        if word != expects {
            return Ok(Seen::Lost(word));
        }
        self.move_to_actor(a, g, expects, mask);
        Ok(Seen::Taken)
    }

    /// Whether the mask is not empty and the actor holds its frames.
    fn may_give(&self, a: u32, g: u32, mask: u64) -> bool
        ensures { IsTrue result ↔ MayGive (core_of self.now) a g mask }
    {
        if !self.names_bundle(a, g) || mask == 0 {
            return false;
        }
        self.held[a as usize].has_all(g as usize, mask)
    }

    /// The frames of the mask go from the actor to their bundle.
    fn move_to_bundle(&mut self, a: u32, g: u32, mask: u64)
        requires { MayGive (core_of self.old) a g mask }
        ensures { core_of self.new ≡ given (core_of self.old) a g mask }
    {
        self.bundles[g as usize] |= mask;
        let row = &mut self.held[a as usize];
        row.remove_all(g as usize, mask);
    }

    /// The frames of the mask go back to their bundle, where the actor holds them.
    pub(super) fn give(&mut self, a: u32, g: u32, mask: u64) -> Result<Seen, Illegal>
        ensures { Steps self.old (Event.Give a g mask) result self.new }
    {
        if !self.may_give(a, g, mask) {
            return Err(Illegal);
        }
        let word = self.bundle(g);
        self.move_to_bundle(a, g, mask);
        Ok(Seen::Word(word))
    }
}
