// A pass's own store of free frames over the bundles that all passes share: frames are taken from a bundle and given back in batches, each
// by one step on the bundle's word.
ghost use Rattle.std.specs.Prelude.{[], ◌++◌, ◌+◌, ◌-◌, ◌^◌, ◌∷◌, ◌≡◌, ◌≤◌, length, min};
ghost use Rattle.vm_supply.specs.from_vm_rule.Prelude.{FRAMES};
ghost use Rattle.vm_supply.specs.from_vm_step.Prelude.{AreHeld, GoesOn, IsAlone, IsReadyOn, view};
ghost use Rattle.vm_exmap.specs.Returns.{AreGiven, IsFreed};
ghost use Rattle.vm_exmap.specs.Walks.{HandsOut, IsAlloc, NotLost, as_batch};

use crate::bits::mask_of;
use crate::walk::walk;
use vm_block::Block;
use vm_event::FRAMES;
use vm_owner::Owner;
use vm_supply::give;
use vm_supply::rule::{Pass, Words};
use vm_supply::step::{Batch, Saw};

/// What an allocation answers.
#[derive(Drop)]
pub enum Alloc {
    /// These frames.
    Batch(Batch),
    /// No frame was free: the interface was empty, and each bundle's word was 0 when it was loaded.
    Dry,
    /// The bits asked for were lost to others in some bundle, and none were taken.
    Again(Saw),
}

/// What the allocation of one frame answers: the same, with the frame in place of a batch.
#[derive(Drop)]
pub enum AllocOne {
    Frame(u32),
    Dry,
    Again(Saw),
}

/// A pass's own free frames, the bundle at which it begins to look for more, and how many it keeps at most when frames come back.
#[derive(Drop)]
pub struct Interface {
    pub home: u32,
    pub cap: u32,
    pub frames: Batch,
    pub swept: u64,
    pub ghost fits: { (1 ≤ cap) × (cap ≤ FRAMES) },
}

impl Interface {
    /// An interface without a frame. Its home is taken modulo the number of bundles; `cap` is 1 to 64.
    pub fn new(home: u32, cap: u32) -> Interface
        requires { (1 ≤ cap) × (cap ≤ FRAMES) }
        ensures { (result.home ≡ home) × (result.cap ≡ cap) × (result.frames ≡ []) × (result.swept ≡ 0) }
    {
        Interface {
            home,
            cap,
            frames: Batch::new(),
            swept: 0,
        }
    }

    /// `n` frames (1 to 64), or those that there are. From an interface without a frame it goes through the bundles once, from its home on
    /// and round, and takes the lowest `max(n, cap)` bits of the first one whose exchange succeeds.
    pub fn alloc<U: Owner, B: Block>(
        &mut self,
        words: &Words<U, B>,
        pass: &mut Pass<U>,
        n: u32,
    ) -> Alloc
        requires ready { IsReadyOn words.now B.tells pass.old }
        requires frames { AreHeld self.old.frames (view pass.old) }
        requires count { (1 ≤ n) × (n ≤ FRAMES) }
        ensures goes { GoesOn words.now B.tells pass.old pass.new }
        ensures same { (self.new.home ≡ self.old.home) × (self.new.cap ≡ self.old.cap) × (self.new.swept ≡ self.old.swept) }
        ensures answer { IsAlloc self.old.home self.old.cap n self.old.frames self.new.frames (view pass.old) (view pass.new) result }
        ensures some { (batch : _) → result ≡ Alloc.Batch batch → (1 ≤ length batch) × (length batch ≤ n) }
        ensures batch { (batch : _) → result ≡ Alloc.Batch batch → AreHeld (batch ++ self.new.frames) (view pass.new) }
        ensures held { AreHeld self.new.frames (view pass.new) }
        ensures sure { IsAlone (view pass.old) → NotLost result }
    {
        if !self.frames.is_empty() {
            return Alloc::Batch(self.hand_out(n));
        }
        match walk(words, pass, self.home, n.max(self.cap)) {
            Alloc::Batch(frames) => {
                self.frames = frames;
                Alloc::Batch(self.hand_out(n))
            }
            Alloc::Dry => Alloc::Dry,
            Alloc::Again(saw) => Alloc::Again(saw),
        }
    }

    /// One frame, as `alloc` of one answers: the first that the interface has, which holds no batch beside its own.
    pub fn alloc_one<U: Owner, B: Block>(
        &mut self,
        words: &Words<U, B>,
        pass: &mut Pass<U>,
    ) -> AllocOne
        requires ready { IsReadyOn words.now B.tells pass.old }
        requires frames { AreHeld self.old.frames (view pass.old) }
        ensures goes { GoesOn words.now B.tells pass.old pass.new }
        ensures same { (self.new.home ≡ self.old.home) × (self.new.cap ≡ self.old.cap) × (self.new.swept ≡ self.old.swept) }
        ensures answer { IsAlloc self.old.home self.old.cap 1 self.old.frames self.new.frames (view pass.old) (view pass.new) (as_batch result) }
        ensures frame { (frame : _) → result ≡ AllocOne.Frame frame → AreHeld (frame ∷ self.new.frames) (view pass.new) }
        ensures held { AreHeld self.new.frames (view pass.new) }
        ensures sure { IsAlone (view pass.old) → NotLost (as_batch result) }
    {
        if !self.frames.is_empty() {
            return AllocOne::Frame(self.first());
        }
        match walk(words, pass, self.home, 1u32.max(self.cap)) {
            Alloc::Batch(frames) => {
                self.frames = frames;
                AllocOne::Frame(self.first())
            }
            Alloc::Dry => AllocOne::Dry,
            Alloc::Again(saw) => AllocOne::Again(saw),
        }
    }

    /// Hands out the first of its frames. There must be one.
    fn first(&mut self) -> u32
        requires { 1 ≤ length self.old.frames }
        ensures hands { HandsOut 1 self.old.frames (result ∷ []) self.new.frames }
        ensures same { (self.new.home ≡ self.old.home) × (self.new.cap ≡ self.old.cap) × (self.new.swept ≡ self.old.swept) }
    {
        match self.frames.pop_first() {
            Some(frame) => frame,
            None => unreachable!(),
        }
    }

    /// Hands out the first `n` of its frames, or all where there are fewer.
    fn hand_out(&mut self, n: u32) -> Batch
        ensures hands { HandsOut n self.old.frames result self.new.frames }
        ensures same { (self.new.home ≡ self.old.home) × (self.new.cap ≡ self.old.cap) × (self.new.swept ≡ self.old.swept) }
    {
        let mut batch = Batch::new();
        let mut rest = Batch::new();
        let count = (n as usize).min(self.frames.len());
        let (first, others) = self.frames.as_slice().split_at(count);
        batch.append(first);
        rest.append(others);
        self.frames = rest;
        batch
    }

    /// Takes frames of the pass back: it keeps the first ones up to its cap, and gives the others back to their bundles.
    pub fn free<U: Owner, B: Block>(
        &mut self,
        words: &Words<U, B>,
        pass: &mut Pass<U>,
        frames: Batch,
    )
        requires ready { IsReadyOn words.now B.tells pass.old }
        requires frames { AreHeld (self.old.frames ++ frames) (view pass.old) }
        ensures goes { GoesOn words.now B.tells pass.old pass.new }
        ensures same { (self.new.home ≡ self.old.home) × (self.new.cap ≡ self.old.cap) × (self.new.swept ≡ self.old.swept) }
        ensures freed { IsFreed self.old.cap self.old.frames frames self.new.frames (view pass.old) (view pass.new) }
        ensures held { AreHeld self.new.frames (view pass.new) }
    {
        let room = (self.cap as usize).saturating_sub(self.frames.len());
        let count = room.min(frames.len());
        let (kept, given) = frames.as_slice().split_at(count);
        self.frames.append(kept);
        give_back(words, pass, given);
    }

    /// Gives all its frames back to their bundles.
    pub fn give_all<U: Owner, B: Block>(&mut self, words: &Words<U, B>, pass: &mut Pass<U>)
        requires ready { IsReadyOn words.now B.tells pass.old }
        requires frames { AreHeld self.old.frames (view pass.old) }
        ensures goes { GoesOn words.now B.tells pass.old pass.new }
        ensures same { (self.new.home ≡ self.old.home) × (self.new.cap ≡ self.old.cap) × (self.new.swept ≡ self.old.swept) }
        ensures given { AreGiven self.old.frames (view pass.old) (view pass.new) }
        ensures empty { self.new.frames ≡ [] }
    {
        give_back(words, pass, self.frames.as_slice());
        self.frames = Batch::new();
    }

    /// How many pages its sweeps have evicted, up to the greatest `u64`.
    pub fn swept(&self) -> u64
        ensures { result ≡ self.now.swept }
    {
        self.swept
    }

    /// Counts pages evicted by a sweep.
    pub fn add_swept(&mut self, n: u32)
        ensures count { self.new.swept ≡ min (self.old.swept + n) (2 ^ 64 - 1) }
        ensures same { (self.new.home ≡ self.old.home) × (self.new.cap ≡ self.old.cap) × (self.new.frames ≡ self.old.frames) }
    {
        self.swept = self.swept.saturating_add(n as u64);
    }
}

/// Gives these frames, which the pass holds, back to their bundles: by one step for each bundle concerned, by rising number.
fn give_back<U: Owner, B: Block>(words: &Words<U, B>, pass: &mut Pass<U>, frames: &[u32])
    requires ready { IsReadyOn words.now B.tells pass.old }
    requires frames { AreHeld frames.now (view pass.old) }
    ensures goes { GoesOn words.now B.tells pass.old pass.new }
    ensures given { AreGiven frames.now (view pass.old) (view pass.new) }
{
    let bundles = words.frames.div_ceil(FRAMES) as u32;
    for g in 0..bundles {
        let mask = mask_of(frames, g);
        if mask != 0 {
            give(words, pass, g, mask);
        }
    }
}
