//! The calls of a page's block, which may fail, and the fault word that tells it. A read that went well changes nothing
//! here: its words come into a frame by stores.

ghost use Rattle.std.specs.Prelude.{◌<◌, ◌↔◌, ◌≡◌, IsTrue, length};
ghost use Rattle.vm_event.specs.Prelude.{block_after, count_more, MayCall, raised, written};
ghost use Rattle.vm_core.specs.Prelude.{page_of, words_of_frames};
ghost use Rattle.vm_event.specs.DeviceActs.{failed, MayWrite};

use crate::frames::frame_words;
use crate::page::PageCell;
use vm_event::{Mapping, Seen};
use vm_page::WORDS;

#[tactic(auto, using(vm_event::proofs::At::at_set, vm_event::proofs::At::seat_here))]
impl PageCell {
    /// A write of the frame to the block that went well.
    pub(super) fn write(&mut self, frames: &[[u64; WORDS]]) -> Seen
        ensures page { page_of self.new ≡ written (words_of_frames frames.now) (page_of self.old) }
        ensures sight { result ≡ Seen.Done }
        ensures seats { length self.new.seats ≡ length self.old.seats }
    {
        self.block = block_after(frames, self.trans, self.block);
        Seen::Done
    }

    /// The fault word becomes the count of the block.
    pub(super) fn raise(&mut self) -> Seen
        ensures page { page_of self.new ≡ raised (page_of self.old) }
        ensures sight { result ≡ Seen.Done }
        ensures seats { length self.new.seats ≡ length self.old.seats }
    {
        self.fault = self.count;
        Seen::Done
    }

    /// Whether the actor may call the device: it holds the page exclusively or writes it back.
    pub(super) fn may_call(&self, a: usize) -> bool
        requires { a < length self.now.seats }
        ensures { IsTrue result ↔ MayCall (page_of self.now) a }
    {
        let seat = self.seats[a];
        seat.exclusive || seat.writing
    }

    /// Whether the actor may write the page, which is resident.
    pub(super) fn may_write(&self, a: usize) -> bool
        requires { a < length self.now.seats }
        ensures { IsTrue result ↔ MayWrite (page_of self.now) a }
    {
        self.may_call(a) && self.trans.is_some()
    }

    /// A call of the device that failed is counted; the block keeps its words.
    pub(super) fn fail(&mut self) -> Seen
        ensures page { page_of self.new ≡ failed (page_of self.old) }
        ensures sight { result ≡ Seen.Word (count_more self.old.count) }
        ensures seats { length self.new.seats ≡ length self.old.seats }
    {
        self.count = count_more(self.count);
        Seen::Word(self.count)
    }
}

/// One fault more; the count stays at its last value.
#[tactic(auto, unfolding(vm_page::specs::Counts::count_more))]
fn count_more(count: u64) -> u64
    ensures { result ≡ count_more count }
{
    if count < u64::MAX { count + 1 } else { count }
}

/// The words of the block after a write.
fn block_after(frames: &[[u64; WORDS]], trans: Option<Mapping>, block: [u64; WORDS]) -> [u64; WORDS]
    ensures { result ≡ block_after (words_of_frames frames.now) trans block }
{
    match trans {
        None => block,
        Some(mapping) => frame_words(frames, mapping.frame),
    }
}
