//! The acts on a state word: on each page that stands under it, which are those of a group, or the page alone.

ghost use Rattle.std.specs.Prelude.{◌<◌, ◌↔◌, ◌≡◌, ◌≤◌, IsTrue, true, ℕ};
ghost use Rattle.vm_event.specs.Prelude.{acted_over, MayActOver, NamesActorAndPage};
ghost use Rattle.vm_core.specs.Prelude.{core_of};
ghost use Rattle.vm_core.specs.CoreOf.{HeadSteps};
ghost use Rattle.vm_event.specs.PageStep.{page_seen, PageLegal};

use crate::machine::Core;
use vm_event::{Illegal, PageAct, Seen};

/// How many pages a group has at most.
const LONGEST: u32 = 8;

impl Core {
    /// The head of a page.
    pub(super) fn head(&self, p: u32) -> u32
        requires { p < (core_of self.now).shape.pages }
        ensures { result ≡ (core_of self.now).head p }
    {
        self.heads[p as usize]
    }

    /// Where the pages end that may stand under a page's word: they begin with the page.
    pub(super) fn group_end(&self, h: u32) -> u32
        requires { h < (core_of self.now).shape.pages }
        ensures inside { result ≤ (core_of self.now).shape.pages }
        ensures all { (q : ℕ) → (core_of self.now).head q ≡ h → (h ≤ q) × (q < result) }
    {
        if self.shape.pages - h < LONGEST {
            self.shape.pages
        } else {
            h + LONGEST
        }
    }

    /// Whether the act may happen at each page under the head.
    fn all_may(&self, a: u32, h: u32, act: PageAct) -> bool
        requires { NamesActorAndPage (core_of self.now) a h }
        ensures { IsTrue result ↔ ((q : ℕ) → (core_of self.now).head q ≡ h
            → PageLegal true (core_of self.now).words ((core_of self.now).pages q) a act) }
    {
        for q in h..self.group_end(h) {
            if self.head(q) == h && !self.may_at(a, q, act) {
                return false;
            }
        }
        true
    }

    /// Whether the page is a head, and the act may happen at each page under it.
    pub(super) fn may_over(&self, a: u32, h: u32, act: PageAct) -> bool
        ensures { IsTrue result ↔ MayActOver (core_of self.now) a h act }
    {
        self.names(a, h) && self.head(h) == h && self.all_may(a, h, act)
    }

    /// The act happens at each page under the head; what it sees there is answered.
    pub(super) fn act_over(&mut self, a: u32, h: u32, act: PageAct) -> Seen
        requires { MayActOver (core_of self.old) a h act }
        ensures next { core_of self.new ≡ acted_over (core_of self.old) a h act }
        ensures sight { result ≡ page_seen ((core_of self.old).pages h) a act }
    {
        let end = self.group_end(h);
        let seen = self.act_at(a, h, act);
        for q in h + 1..end {
            if self.head(q) == h {
                self.act_at(a, q, act);
            }
        }
        seen
    }

    /// An event on a state word.
    pub(super) fn on_head(&mut self, a: u32, h: u32, act: PageAct) -> Result<Seen, Illegal>
        ensures { HeadSteps self.old a h act result self.new }
    {
        if !self.may_over(a, h, act) {
            return Err(Illegal);
        }
        Ok(self.act_over(a, h, act))
    }
}
