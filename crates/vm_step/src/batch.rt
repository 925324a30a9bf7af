// Frames that go from hand to hand: at most 64, which lie in the value itself.
ghost use Rattle.std.specs.Option.{option_to_list};
ghost use Rattle.std.specs.Prelude.{[], ◌++◌, ◌+◌, ◌<◌, ◌==◌, ◌↔◌, ◌∷◌, ◌≡◌, ◌≤◌, IsSome, length};

use arrayvec::ArrayVec;
use std::marker::Model;
use vm_event::FRAMES;

/// At most 64 frames: contracts see the list of their numbers.
#[derive(Debug, Drop, PartialEq)]
pub struct Batch {
    items: ArrayVec<u32, FRAMES>,
}

impl Model for Batch {
    ghost use Rattle.std.specs.Prelude.{◌≤◌, length, List, ℕ};
    ghost use Rattle.vm_rule.specs.Prelude.{FRAMES};

    ghost Value = { List ℕ };

    ghost view = { λ p. p.items.items };

    ghost inverse = { λ xs. record { items = record { items = xs } } };

    ghost invariant = { λ p. length p.items.items ≤ FRAMES };
}

impl Batch {
    /// No frame.
    pub fn new() -> Self
        ensures { result ≡ [] }
    {
        Batch {
            items: ArrayVec::new(),
        }
    }

    /// How many frames there are.
    pub fn len(&self) -> usize
        ensures value { result ≡ length self.now }
        ensures fits { length self.now ≤ FRAMES }
    {
        self.items.len()
    }

    /// Whether there is no frame.
    pub fn is_empty(&self) -> bool
        ensures { result ≡ (length self.now == 0) }
    {
        self.items.is_empty()
    }

    /// Appends a frame. There must be room.
    pub fn push(&mut self, frame: u32)
        requires { length self.old < FRAMES }
        ensures { self.new ≡ self.old ++ frame ∷ [] }
    {
        self.items.push(frame);
    }

    /// The frames.
    pub fn as_slice(&self) -> &[u32]
        ensures value { result.now ≡ self.now }
        ensures fits { length self.now ≤ FRAMES }
    {
        self.items.as_slice()
    }

    /// Appends these frames, in order. There must be room.
    pub fn append(&mut self, frames: &[u32])
        requires { length self.old + length frames.now ≤ FRAMES }
        ensures { self.new ≡ self.old ++ frames.now }
    {
        if self.items.try_extend_from_slice(frames).is_err() {
            unreachable!();
        }
    }

    /// Takes the first frame, if there is one.
    pub fn pop_first(&mut self) -> Option<u32>
        ensures frames { self.old ≡ option_to_list result ++ self.new }
        ensures some { IsSome result ↔ (0 < length self.old) }
    {
        self.items.pop_at(0)
    }

    /// Takes the frame that was appended last, if there is one.
    pub fn pop(&mut self) -> Option<u32>
        ensures frames { self.old ≡ self.new ++ option_to_list result }
        ensures some { IsSome result ↔ (0 < length self.old) }
    {
        self.items.pop()
    }
}
