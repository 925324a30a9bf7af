//! The shares of a page, its clock mark, and the lock for write-back.

ghost use Rattle.std.specs.Prelude.{◌<◌, ◌↔◌, ◌≡◌, ◌≤◌, ◌⊎◌, if◌then◌else◌, IsTrue, length};
ghost use Rattle.vm_event.specs.Prelude.{finds, MARKED, marked, MayShare, MayUnlock, one_share_more, page_word, shared};
ghost use Rattle.vm_core.specs.Prelude.{page_of};
ghost use Rattle.vm_event.specs.Prelude.{state_of, UNLOCKED, unlocked, unmarked, unshared, write_locked};
ghost use Rattle.vm_event.specs.PageStep.{exchange_seen};

use crate::page::PageCell;
use vm_event::{Seat, Seen, StateWord};

#[tactic(auto, using(vm_event::proofs::At::at_set, vm_event::proofs::At::seat_here))]
impl PageCell {
    /// One share more, where the word is the expected one.
    pub(super) fn exchange_share(&mut self, a: usize, expects: u64) -> Seen
        requires seat { a < length self.old.seats }
        requires may { MayShare expects }
        ensures page { page_of self.new
            ≡ (if finds (page_of self.old) expects then shared (page_of self.old) a else page_of self.old) }
        ensures sight { result ≡ exchange_seen (page_of self.old) expects }
        ensures seats { length self.new.seats ≡ length self.old.seats }
    {
        if !self.finds(expects) {
            return Seen::Lost(self.word());
        }
        self.lock_shared(a);
        Seen::Taken
    }

    /// One share more. It closes the open read of the actor.
    fn lock_shared(&mut self, a: usize)
        requires seat { a < length self.old.seats }
        requires state { (self.old.state ≤ 251) ⊎ (self.old.state ≡ MARKED) }
        ensures page { page_of self.new ≡ shared (page_of self.old) a }
        ensures seats { length self.new.seats ≡ length self.old.seats }
    {
        self.state = one_more(self.state);
        let seat = &mut self.seats[a];
        seat.shares += 1;
        seat.reading = None;
    }

    /// Whether the actor has a share; the last one of a write-back is given up only once the faults of the block are
    /// told.
    pub(super) fn may_unlock(&self, a: usize) -> bool
        requires { a < length self.now.seats }
        ensures { IsTrue result ↔ MayUnlock (page_of self.now) a }
    {
        let seat = self.seats[a];
        seat.shares > 0 && (!seat.writing || seat.shares != 1 || self.fault == self.count)
    }

    /// A share is given up. A write-back ends with the last one.
    pub(super) fn unlock(&mut self, a: usize) -> Seen
        requires seat { a < length self.old.seats }
        requires may { MayUnlock (page_of self.old) a }
        ensures page { page_of self.new ≡ unlocked (page_of self.old) a }
        ensures sight { result ≡ Seen.Word (page_word (page_of self.old)) }
        ensures seats { length self.new.seats ≡ length self.old.seats }
    {
        let word = self.word();
        self.state -= 1;
        self.seats[a] = unshared(self.seats[a]);
        Seen::Word(word)
    }

    /// The mark of the clock, where the word is the expected one.
    pub(super) fn exchange_mark(&mut self, expects: u64) -> Seen
        requires { state_of expects ≡ UNLOCKED }
        ensures page { page_of self.new
            ≡ (if finds (page_of self.old) expects then marked (page_of self.old) else page_of self.old) }
        ensures sight { result ≡ exchange_seen (page_of self.old) expects }
        ensures seats { length self.new.seats ≡ length self.old.seats }
    {
        if !self.finds(expects) {
            return Seen::Lost(self.word());
        }
        self.mark();
        Seen::Taken
    }

    /// The mark is set.
    fn mark(&mut self)
        requires { self.old.state ≡ UNLOCKED }
        ensures page { page_of self.new ≡ marked (page_of self.old) }
        ensures seats { length self.new.seats ≡ length self.old.seats }
    {
        self.state = StateWord::MARKED;
    }

    /// The mark is taken away, where the word is the expected one.
    pub(super) fn exchange_unmark(&mut self, expects: u64) -> Seen
        requires { state_of expects ≡ MARKED }
        ensures page { page_of self.new
            ≡ (if finds (page_of self.old) expects then unmarked (page_of self.old) else page_of self.old) }
        ensures sight { result ≡ exchange_seen (page_of self.old) expects }
        ensures seats { length self.new.seats ≡ length self.old.seats }
    {
        if !self.finds(expects) {
            return Seen::Lost(self.word());
        }
        self.unmark();
        Seen::Taken
    }

    /// The mark is taken away.
    fn unmark(&mut self)
        requires { self.old.state ≡ MARKED }
        ensures page { page_of self.new ≡ unmarked (page_of self.old) }
        ensures seats { length self.new.seats ≡ length self.old.seats }
    {
        self.state = StateWord::UNLOCKED;
    }

    /// The lock for write-back, where the word is the expected one.
    pub(super) fn exchange_write_lock(&mut self, a: usize, expects: u64) -> Seen
        requires seat { a < length self.old.seats }
        requires may { state_of expects ≡ MARKED }
        ensures page { page_of self.new
            ≡ (if finds (page_of self.old) expects then write_locked (page_of self.old) a else page_of self.old) }
        ensures sight { result ≡ exchange_seen (page_of self.old) expects }
        ensures seats { length self.new.seats ≡ length self.old.seats }
    {
        if !self.finds(expects) {
            return Seen::Lost(self.word());
        }
        self.write_lock(a);
        Seen::Taken
    }

    /// A marked page gets one share, and its write-back begins. It closes the open read of the actor.
    fn write_lock(&mut self, a: usize)
        requires seat { a < length self.old.seats }
        requires state { self.old.state ≡ MARKED }
        ensures page { page_of self.new ≡ write_locked (page_of self.old) a }
        ensures seats { length self.new.seats ≡ length self.old.seats }
    {
        self.state = 1;
        let seat = &mut self.seats[a];
        seat.shares = 1;
        seat.writing = true;
        seat.reading = None;
    }
}

/// Whether the state word has room for a share: at most 251 shares and no other lock, or the mark.
pub(super) fn may_share(expects: u64) -> bool
    ensures { IsTrue result ↔ MayShare expects }
{
    let state = StateWord::state(expects);
    state < StateWord::MAX_SHARES || state == StateWord::MARKED
}

/// The state with one share more.
fn one_more(state: u8) -> u8
    requires { state < 255 }
    ensures { result ≡ one_share_more state }
{
    if state == StateWord::MARKED {
        1
    } else {
        state + 1
    }
}

/// The seat with one share less.
fn unshared(seat: Seat) -> Seat
    requires { 1 ≤ seat.shares }
    ensures { result ≡ unshared seat }
{
    Seat {
        shares: seat.shares - 1,
        writing: seat.shares != 1 && seat.writing,
        ..seat
    }
}
