//! The events on the next word, from which page numbers are claimed, and on the clock's hand.

ghost use Rattle.std.specs.Prelude.{◌↔◌, ◌≡◌, IsTrue};
ghost use Rattle.vm_event.specs.Prelude.{hand_more, MayDirty, NamesActorAndPage};
ghost use Rattle.vm_core.specs.Prelude.{core_of, Steps};
ghost use Rattle.vm_event.specs.Step.{MayClaim};

use crate::machine::Core;
use vm_event::{Event, Illegal, STRIDE, Seen};

impl Core {
    /// A load of the next word.
    pub(super) fn next_load(&mut self, a: u32) -> Result<Seen, Illegal>
        ensures { Steps self.old (Event.NLoad a) result self.new }
    {
        if a >= self.shape.actors {
            return Err(Illegal);
        }
        Ok(Seen::Word(self.next))
    }

    /// Whether the actor holds the page exclusively, and it is resident.
    fn may_dirty(&self, a: u32, p: u64) -> bool
        requires { NamesActorAndPage (core_of self.now) a p }
        ensures { IsTrue result ↔ MayDirty ((core_of self.now).pages p) a }
    {
        self.pages[p as usize].may_dirty(a as usize)
    }

    /// Whether there are one or two such pages from `x` on, and the actor holds them exclusively, resident.
    fn may_claim(&self, a: u32, x: u64, n: u32) -> bool
        ensures { IsTrue result ↔ MayClaim (core_of self.now) a x n }
    {
        let pages = u64::from(self.shape.pages);
        if a >= self.shape.actors || n == 0 || n > 2 || x > pages || x + u64::from(n) > pages {
            return false;
        }
        self.may_dirty(a, x) && (n == 1 || self.may_dirty(a, x + 1))
    }

    /// The pages from `x` on are claimed, where the next word is `x`.
    pub(super) fn claim(&mut self, a: u32, x: u64, n: u32) -> Result<Seen, Illegal>
        ensures { Steps self.old (Event.Claim a x n) result self.new }
    {
        if !self.may_claim(a, x, n) {
            return Err(Illegal);
        }
        if self.next != x {
            return Ok(Seen::Lost(self.next));
        }
        self.next = x + u64::from(n);
        Ok(Seen::Taken)
    }

    /// The hand moves on; what it was is seen.
    pub(super) fn hand(&mut self, a: u32) -> Result<Seen, Illegal>
        ensures { Steps self.old (Event.Hand a) result self.new }
    {
        if a >= self.shape.actors {
            return Err(Illegal);
        }
        let hand = self.hand;
        self.hand = hand_more(hand);
        Ok(Seen::Word(hand))
    }
}

/// The clock's next place: 64 pages on, wrapping.
#[tactic(auto, unfolding(vm_event::specs::Words::hand_more))]
fn hand_more(hand: u64) -> u64
    ensures { result ≡ hand_more hand }
{
    hand.wrapping_add(STRIDE)
}
