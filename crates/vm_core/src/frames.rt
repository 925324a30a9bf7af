//! The words of frames, and the set of frames that an actor holds.

ghost use Rattle.std.specs.Prelude.{◌/◌, ◌<◌, ◌↔◌, ◌≡◌, bit_or, false, IfOk, if◌then◌else◌, IsTrue, length, List, replicate, true, ℕ};
ghost use Rattle.vm_event.specs.Prelude.{at, has_free_bit, in_mask, upd};
ghost use Rattle.vm_core.specs.Prelude.{words_of_frames};

use std::alloc::{AllocError, Global};
use std::marker::Model;
use vm_event::FRAMES;
use vm_page::WORDS;

/// The frames that an actor holds, as a mask for each bundle.
#[derive(Drop)]
pub struct FrameSet {
    masks: Vec<u64>,
}

impl Model for FrameSet {
    ghost Value = { List ℕ };

    ghost view = { λ s. s.masks.items };
}

impl FrameSet {
    /// No frames, of this many bundles.
    pub fn new(alloc: Global, bundles: usize) -> Result<Self, AllocError>
        ensures { IfOk result (λ s. s ≡ replicate bundles 0) }
    {
        Ok(FrameSet {
            masks: vec![in alloc; 0; bundles]?,
        })
    }

    /// Whether the frame is in the set.
    pub fn has(&self, f: u32) -> bool
        requires { f / FRAMES < length self.now }
        ensures { result ≡ has_free_bit (at 0 self.now) f }
    {
        (self.masks[f as usize / FRAMES] >> (f as usize % FRAMES)) & 1 == 1
    }

    /// The frames of the mask come in.
    pub fn add(&mut self, g: usize, mask: u64)
        requires { g < length self.old }
        ensures words { at 0 self.new ≡ upd (at 0 self.old) g (bit_or (at 0 self.old g) mask) }
        ensures len { length self.new ≡ length self.old }
    {
        self.masks[g] |= mask;
    }

    /// The frame goes out.
    pub fn remove(&mut self, f: u32)
        requires { f / FRAMES < length self.old }
        ensures words { has_free_bit (at 0 self.new) ≡ upd (has_free_bit (at 0 self.old)) f false }
        ensures len { length self.new ≡ length self.old }
    {
        self.masks[f as usize / FRAMES] &= !(1 << (f as usize % FRAMES));
    }

    /// The frame comes in.
    pub fn insert(&mut self, f: u32)
        requires { f / FRAMES < length self.old }
        ensures words { has_free_bit (at 0 self.new) ≡ upd (has_free_bit (at 0 self.old)) f true }
        ensures len { length self.new ≡ length self.old }
    {
        self.masks[f as usize / FRAMES] |= 1 << (f as usize % FRAMES);
    }

    /// Whether all frames of the mask are in the set.
    pub fn has_all(&self, g: usize, mask: u64) -> bool
        requires { g < length self.now }
        ensures { IsTrue result ↔ ((f : ℕ) → in_mask g mask f ≡ true → has_free_bit (at 0 self.now) f ≡ true) }
    {
        mask & self.masks[g] == mask
    }

    /// Whether a frame of the mask is in the set.
    pub fn has_any(&self, g: usize, mask: u64) -> bool
        requires { g < length self.now }
        ensures { (result ≡ false) ↔ ((f : ℕ) → in_mask g mask f ≡ true → has_free_bit (at 0 self.now) f ≡ false) }
    {
        mask & self.masks[g] != 0
    }

    /// The frames of the mask go out.
    pub fn remove_all(&mut self, g: usize, mask: u64)
        requires { g < length self.old }
        ensures words { (f : ℕ) → has_free_bit (at 0 self.new) f ≡ (if in_mask g mask f then false else has_free_bit (at 0 self.old) f) }
        ensures len { length self.new ≡ length self.old }
    {
        self.masks[g] &= !mask;
    }
}

/// The words of a frame; a frame past the last has zeros.
pub fn frame_words(frames: &[[u64; WORDS]], f: u32) -> [u64; WORDS]
    ensures { result ≡ words_of_frames frames.now f }
{
    match frames.get(f as usize) {
        Some(words) => *words,
        None => [0; WORDS],
    }
}
