//! One page of the machine: its words, its block, and what each actor has of it.
//!
//! The acts on it stand in the child modules: the exclusive lock, shares and write-back, optimistic reads, the frame
//! under the page, its device. Whether an act may happen is told apart from the act, since that on a state word happens
//! at all pages under it or at none.

ghost use Rattle.std.specs.Prelude.{◌<◌, ◌↔◌, ◌≡◌, IfOk, IsTrue, length, None, slice_index, true};
ghost use Rattle.vm_event.specs.Prelude.{at, core_block, evicted_page, finds, LocksInv, no_seat, page_after, page_word};
ghost use Rattle.vm_event.specs.Prelude.{trans_word};
ghost use Rattle.vm_core.specs.Prelude.{page_of, PageData, words_of_frames};
ghost use Rattle.vm_event.specs.PageStep.{page_seen, PageLegal};

mod device;
mod exclusive;
mod mapping;
mod reads;
mod shared;

use crate::initial::core_block;
use crate::page::exclusive::may_lock;
use crate::page::shared::may_share;
use std::alloc::{AllocError, Global};
use std::marker::Model;
use vm_event::{CoreShape, Mapping, PageAct, Seat, Seen, StateWord, TransWord};
use vm_page::WORDS;

/// One page: its state word in its two parts, its translation, its fault word, its block's count of faults and words, and a seat for each
/// actor.
#[derive(Drop)]
pub struct PageCell {
    state: u8,
    version: u64,
    trans: Option<Mapping>,
    fault: u64,
    count: u64,
    block: [u64; WORDS],
    seats: Vec<Seat>,
}

impl Model for PageCell {
    ghost Value = { PageData };

    ghost view = { λ r. record { state = r.state; version = r.version; trans = r.trans; fault = r.fault; count = r.count; block = r.block; seats = r.seats.items } };

    ghost invariant = { λ r. LocksInv (length r.seats.items) r.state r.version (at no_seat r.seats.items) };
}

#[tactic(auto, using(vm_event::proofs::At::at_set, vm_event::proofs::At::seat_here))]
impl PageCell {
    /// A page at the start: evicted at version 0, with its block.
    pub fn new(alloc: Global, shape: CoreShape, p: u32) -> Result<Self, AllocError>
        ensures page { IfOk result (λ r. page_of r ≡ evicted_page 0 (core_block shape.next p) 0) }
        ensures seats { IfOk result (λ r. length r.seats ≡ shape.actors) }
        ensures empty { IfOk result (λ r. r.trans ≡ None) }
    {
        let seats = vec![in alloc; Seat {
            shares: 0,
            exclusive: false,
            writing: false,
            reading: None
        }; shape.actors as usize]?;
        Ok(PageCell {
            state: StateWord::EVICTED,
            version: 0,
            trans: None,
            fault: 0,
            count: 0,
            block: core_block(shape.next, p),
            seats,
        })
    }

    /// Word `i` of the block.
    pub fn block_word(&self, i: u32) -> u64
        requires { i < WORDS }
        ensures { result ≡ slice_index self.now.block i }
    {
        self.block[i as usize]
    }

    /// Whether an act of an actor may happen at the page, beside the words of all frames.
    pub fn may(&self, a: usize, act: PageAct, frames: &[[u64; WORDS]]) -> bool
        requires { a < length self.now.seats }
        ensures { IsTrue result ↔ PageLegal true (words_of_frames frames.now) (page_of self.now) a act }
    {
        match act {
            PageAct::Look => true,
            PageAct::LockX(expects) => may_lock(expects),
            PageAct::LockS(expects) => may_share(expects),
            PageAct::UnlockS => self.may_unlock(a),
            PageAct::Mark(expects) => StateWord::state(expects) == StateWord::UNLOCKED,
            PageAct::Unmark(expects) => StateWord::state(expects) == StateWord::MARKED,
            PageAct::LockW(expects) => StateWord::state(expects) == StateWord::MARKED,
            PageAct::Upgrade(expects) => self.may_upgrade(a, expects),
            PageAct::Release => self.may_release(a),
            PageAct::ReleaseE => self.may_empty(a),
            PageAct::Downgrade => self.may_release(a),
            PageAct::TLoad => true,
            PageAct::Dirty => self.may_dirty(a),
            PageAct::Clean => self.may_clean(a, frames),
            PageAct::Read => self.owns(a),
            PageAct::RFail => self.owns(a),
            PageAct::Write => self.may_write(a),
            PageAct::WFail => self.may_write(a),
            PageAct::Raise => self.may_call(a),
        }
    }

    /// An act of an actor on the page, beside the words of all frames: exactly as its row says, and what it sees.
    pub fn act(&mut self, a: usize, act: PageAct, frames: &[[u64; WORDS]]) -> Seen
        requires seat { a < length self.old.seats }
        requires may { PageLegal true (words_of_frames frames.now) (page_of self.old) a act }
        ensures page { page_of self.new ≡ page_after (words_of_frames frames.now) (page_of self.old) a act }
        ensures sight { result ≡ page_seen (page_of self.old) a act }
        ensures seats { length self.new.seats ≡ length self.old.seats }
    {
        match act {
            PageAct::Look => self.look(a),
            PageAct::LockX(expects) => self.exchange_lock(a, expects),
            PageAct::LockS(expects) => self.exchange_share(a, expects),
            PageAct::UnlockS => self.unlock(a),
            PageAct::Mark(expects) => self.exchange_mark(expects),
            PageAct::Unmark(expects) => self.exchange_unmark(expects),
            PageAct::LockW(expects) => self.exchange_write_lock(a, expects),
            PageAct::Upgrade(expects) => self.exchange_upgrade(a, expects),
            PageAct::Release => self.release(a),
            PageAct::ReleaseE => self.release_evicted(a),
            PageAct::Downgrade => self.downgrade(a),
            PageAct::TLoad => self.load_translation(a),
            PageAct::Dirty => self.set_dirty(true),
            PageAct::Clean => self.set_dirty(false),
            PageAct::Read => Seen::Done,
            PageAct::RFail => self.fail(),
            PageAct::Write => self.write(frames),
            PageAct::WFail => self.fail(),
            PageAct::Raise => self.raise(),
        }
    }

    /// Whether the actor holds the page exclusively.
    fn owns(&self, a: usize) -> bool
        requires { a < length self.now.seats }
        ensures { result ≡ ((page_of self.now).seats a).exclusive }
    {
        self.seats[a].exclusive
    }

    /// Whether the state word is the one that is expected.
    fn finds(&self, expects: u64) -> bool
        ensures { result ≡ finds (page_of self.now) expects }
    {
        self.state == StateWord::state(expects) && self.version == StateWord::version(expects)
    }

    /// The state word.
    fn word(&self) -> u64
        ensures { result ≡ page_word (page_of self.now) }
    {
        StateWord::of(self.state, self.version)
    }
}

/// The translation word.
fn trans_word(trans: Option<Mapping>) -> u64
    ensures { result ≡ trans_word trans }
{
    match trans {
        None => TransWord::EMPTY,
        Some(mapping) => TransWord::of(mapping.frame, mapping.dirty),
    }
}
