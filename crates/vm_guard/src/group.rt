// Groups of guards: pages whose drafts become their last words at one point, the first release of the group.
ghost use Rattle.std.specs.Prelude.{[], ◌++◌, ◌<◌, ◌∷◌, ◌≡◌, ◌≢◌, IfSome, length, None, option_map, Some};
ghost use Rattle.vm_step.specs.Prelude.{GoesOn, IsReadyOn, view};
ghost use Rattle.vm_guard.specs.Groups.{guards_of, IsGroupReleased, MayReleaseAll};

use crate::exclusive::ExclusiveGuard;
use std::mem;
use vm_block::Block;
use vm_owner::Ungrouped;
use vm_rule::words::{Pass, Words};

/// At most four guards, in the order in which they were added.
///
/// It is spent by `release_group`, or guard by guard by `take_last` and then by `end`.
pub enum Group {
    Empty,
    One(ExclusiveGuard),
    Two(ExclusiveGuard, ExclusiveGuard),
    Three(ExclusiveGuard, ExclusiveGuard, ExclusiveGuard),
    Four(ExclusiveGuard, ExclusiveGuard, ExclusiveGuard, ExclusiveGuard),
}

impl Group {
    /// No guard.
    pub fn new() -> Group
        ensures { guards_of result ≡ [] }
    {
        Group::Empty
    }

    /// Ends an empty group.
    pub fn end(self)
        requires { guards_of self ≡ [] }
    {
        match self {
            Group::Empty => {}
            Group::One(_a) => unreachable!(),
            Group::Two(_a, _b) => unreachable!(),
            Group::Three(_a, _b, _c) => unreachable!(),
            Group::Four(_a, _b, _c, _d) => unreachable!(),
        }
    }

    /// Adds a guard behind the others, of which there are at most three.
    pub fn add(&mut self, guard: ExclusiveGuard)
        requires { length (guards_of self.old) < 4 }
        ensures { guards_of self.new ≡ guards_of self.old ++ guard ∷ [] }
    {
        let more = match mem::replace(self, Group::Empty) {
            Group::Empty => Group::One(guard),
            Group::One(a) => Group::Two(a, guard),
            Group::Two(a, b) => Group::Three(a, b, guard),
            Group::Three(a, b, c) => Group::Four(a, b, c, guard),
            Group::Four(_a, _b, _c, _d) => unreachable!(),
        };
        mem::replace(self, more).end();
    }

    /// Takes the guard that was added last, if there is one.
    pub fn take_last(&mut self) -> Option<ExclusiveGuard>
        ensures some { IfSome result (λ g. guards_of self.old ≡ guards_of self.new ++ g ∷ []) }
        ensures none { result ≡ None → (guards_of self.old ≡ []) × (guards_of self.new ≡ []) }
    {
        let (fewer, last) = match mem::replace(self, Group::Empty) {
            Group::Empty => return None,
            Group::One(a) => (Group::Empty, a),
            Group::Two(a, b) => (Group::One(a), b),
            Group::Three(a, b, c) => (Group::Two(a, b), c),
            Group::Four(a, b, c, d) => (Group::Three(a, b, c), d),
        };
        mem::replace(self, fewer).end();
        Some(last)
    }
}

/// Releases pages together: at the first release the drafts of all of them are logical, and what is said becomes an entry. The others are
/// released one by one then. Each page's draft is its next version.
pub fn release_group<U: Ungrouped, B: Block>(
    words: &Words<U, B>,
    pass: &mut Pass<U>,
    guards: Group,
    said: Option<&U::Said>,
)
    requires ready { IsReadyOn words.now B.tells pass.old }
    requires some { guards_of guards ≢ [] }
    requires may { MayReleaseAll U.may_release (guards_of guards) (option_map (λ b. b.now) said) (view pass.old) }
    ensures goes { GoesOn words.now B.tells pass.old pass.new }
    ensures released { IsGroupReleased U.keeps (guards_of guards) (option_map (λ b. b.now) said.entry) (view pass.old) (view pass.new) }
{
    match guards {
        Group::Empty => unreachable!(),
        Group::One(a) => a.release_first(words, pass, &[], said),
        Group::Two(a, b) => {
            a.release_first(words, pass, &[b.pid], said);
            b.release_later(words, pass);
        }
        Group::Three(a, b, c) => {
            a.release_first(words, pass, &[b.pid, c.pid], said);
            b.release_later(words, pass);
            c.release_later(words, pass);
        }
        Group::Four(a, b, c, d) => {
            a.release_first(words, pass, &[b.pid, c.pid, d.pid], said);
            b.release_later(words, pass);
            c.release_later(words, pass);
            d.release_later(words, pass);
        }
    }
}
