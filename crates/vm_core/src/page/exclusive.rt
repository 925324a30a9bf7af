//! The exclusive lock of a page: taken, upgraded from a write-back, and given up at the next version.

ghost use Rattle.std.specs.Prelude.{◌<◌, ◌↔◌, ◌≡◌, ◌⊎◌, if◌then◌else◌, IsTrue, length};
ghost use Rattle.vm_event.specs.Prelude.{EVICTED, finds, locked, MARKED, MayEmpty, MayLock, MayReleaseLock, MayUpgrade};
ghost use Rattle.vm_core.specs.Prelude.{page_of};
ghost use Rattle.vm_event.specs.Prelude.{state_of, UNLOCKED, upgraded, version_of};
ghost use Rattle.vm_event.specs.PageStep.{exchange_seen};
ghost use Rattle.vm_event.specs.StateActs.{downgraded, emptied, released};

use crate::page::PageCell;
use vm_event::{MAX_VERSION, Seat, Seen, StateWord};

#[tactic(auto, using(vm_event::proofs::At::at_set, vm_event::proofs::At::seat_here))]
impl PageCell {
    /// The exclusive lock, where the word is the expected one.
    pub(super) fn exchange_lock(&mut self, a: usize, expects: u64) -> Seen
        requires seat { a < length self.old.seats }
        requires may { MayLock expects }
        ensures page { page_of self.new
            ≡ (if finds (page_of self.old) expects then locked (page_of self.old) a else page_of self.old) }
        ensures sight { result ≡ exchange_seen (page_of self.old) expects }
        ensures seats { length self.new.seats ≡ length self.old.seats }
    {
        if !self.finds(expects) {
            return Seen::Lost(self.word());
        }
        self.lock_exclusive(a);
        Seen::Taken
    }

    /// The exclusive lock is taken. It closes the open read of the actor.
    fn lock_exclusive(&mut self, a: usize)
        requires seat { a < length self.old.seats }
        requires state { (self.old.state ≡ UNLOCKED) ⊎ ((self.old.state ≡ MARKED) ⊎ (self.old.state ≡ EVICTED)) }
        requires version { self.old.version < MAX_VERSION }
        ensures page { page_of self.new ≡ locked (page_of self.old) a }
        ensures seats { length self.new.seats ≡ length self.old.seats }
    {
        self.state = StateWord::LOCKED;
        let seat = &mut self.seats[a];
        seat.exclusive = true;
        seat.reading = None;
    }

    /// Whether the actor writes the page back under its one share, and expects just that share below the last version.
    pub(super) fn may_upgrade(&self, a: usize, expects: u64) -> bool
        requires { a < length self.now.seats }
        ensures { IsTrue result ↔ MayUpgrade (page_of self.now) a expects }
    {
        let seat = self.seats[a];
        StateWord::state(expects) == 1
            && StateWord::version(expects) < MAX_VERSION
            && seat.writing
            && seat.shares == 1
    }

    /// The share of a write-back becomes the exclusive lock, where the word is the expected one.
    pub(super) fn exchange_upgrade(&mut self, a: usize, expects: u64) -> Seen
        requires seat { a < length self.old.seats }
        requires may { MayUpgrade (page_of self.old) a expects }
        ensures page { page_of self.new
            ≡ (if finds (page_of self.old) expects then upgraded (page_of self.old) a else page_of self.old) }
        ensures sight { result ≡ exchange_seen (page_of self.old) expects }
        ensures seats { length self.new.seats ≡ length self.old.seats }
    {
        if !self.finds(expects) {
            return Seen::Lost(self.word());
        }
        self.upgrade(a, expects);
        Seen::Taken
    }

    /// A write-back becomes an exclusive lock: the share, the write-back and an open read of the actor end.
    fn upgrade(&mut self, a: usize, expects: u64)
        requires seat { a < length self.old.seats }
        requires may { MayUpgrade (page_of self.old) a expects }
        requires state { self.old.state ≡ state_of expects }
        requires version { self.old.version ≡ version_of expects }
        ensures page { page_of self.new ≡ upgraded (page_of self.old) a }
        ensures seats { length self.new.seats ≡ length self.old.seats }
    {
        self.state = StateWord::LOCKED;
        self.seats[a] = Seat {
            shares: 0,
            exclusive: true,
            writing: false,
            reading: None,
        };
    }

    /// Whether the actor holds the page exclusively, it is resident, and the faults of its block are told.
    pub(super) fn may_release(&self, a: usize) -> bool
        requires { a < length self.now.seats }
        ensures { IsTrue result ↔ MayReleaseLock (page_of self.now) a }
    {
        self.seats[a].exclusive && self.trans.is_some() && self.fault == self.count
    }

    /// The exclusive lock of a resident page is given up, at the next version, once the faults of its block are told.
    pub(super) fn release(&mut self, a: usize) -> Seen
        requires seat { a < length self.old.seats }
        requires may { MayReleaseLock (page_of self.old) a }
        ensures page { page_of self.new ≡ released (page_of self.old) a }
        ensures sight { result ≡ Seen.Done }
        ensures seats { length self.new.seats ≡ length self.old.seats }
    {
        self.state = StateWord::UNLOCKED;
        self.version += 1;
        self.seats[a].exclusive = false;
        Seen::Done
    }

    /// Whether the actor holds the page exclusively, it has no frame, and the faults of its block are told.
    pub(super) fn may_empty(&self, a: usize) -> bool
        requires { a < length self.now.seats }
        ensures { IsTrue result ↔ MayEmpty (page_of self.now) a }
    {
        self.seats[a].exclusive && self.trans.is_none() && self.fault == self.count
    }

    /// The exclusive lock of a page without a frame is given up: the page is evicted, at the next version.
    pub(super) fn release_evicted(&mut self, a: usize) -> Seen
        requires seat { a < length self.old.seats }
        requires may { MayEmpty (page_of self.old) a }
        ensures page { page_of self.new ≡ emptied (page_of self.old) a }
        ensures sight { result ≡ Seen.Done }
        ensures seats { length self.new.seats ≡ length self.old.seats }
    {
        self.state = StateWord::EVICTED;
        self.version += 1;
        self.seats[a].exclusive = false;
        Seen::Done
    }

    /// The exclusive lock of a resident page becomes a share, at the next version.
    pub(super) fn downgrade(&mut self, a: usize) -> Seen
        requires seat { a < length self.old.seats }
        requires may { MayReleaseLock (page_of self.old) a }
        ensures page { page_of self.new ≡ downgraded (page_of self.old) a }
        ensures sight { result ≡ Seen.Done }
        ensures seats { length self.new.seats ≡ length self.old.seats }
    {
        self.state = 1;
        self.version += 1;
        let seat = &mut self.seats[a];
        seat.shares = 1;
        seat.exclusive = false;
        Seen::Done
    }
}

/// Whether the exclusive lock may expect this state word: unlocked, marked or evicted, below the last version.
pub(super) fn may_lock(expects: u64) -> bool
    ensures { IsTrue result ↔ MayLock expects }
{
    let state = StateWord::state(expects);
    (state == StateWord::UNLOCKED || state == StateWord::MARKED || state == StateWord::EVICTED)
        && StateWord::version(expects) < MAX_VERSION
}
