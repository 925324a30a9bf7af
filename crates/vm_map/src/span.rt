// The pairs of a range of keys, in memory that is taken before they are looked for.
ghost use Rattle.std.specs.Prelude.{[], ◌++◌, ◌+◌, ◌∷◌, ◌≡◌, ◌≤◌, IfOk, length};
ghost use Rattle.std.specs.{Cmp.Lexicographic.lists_per, Cmp.Lexicographic.pointwise, Cmp.on_per, Cmp.Rules.comparing};
ghost use Rattle.std.proofs.Common.{rules};

use crate::call::Pair;
use std::alloc::{AllocError, Global};
use std::marker::Model;
use std::mem;

/// A list of pairs, and room for more: contracts see the list, and for how many more there is room.
#[derive(Debug, Drop)]
pub struct Span {
    items: Vec<Pair>,
}

impl Model for Span {
    ghost use Rattle.std.specs.Prelude.{List, ◌-◌, ℕ};
    ghost use Rattle.std.specs.Vec.{vec_capacity, vec_len};

    ghost Value = { List (ℕ × ℕ) × ℕ };

    ghost view = { λ s. (s.items.items, vec_capacity s.items - vec_len s.items) };
}

impl Span {
    /// No pair, and no room.
    pub fn new(alloc: Global) -> Self
        ensures { result ≡ ([], 0) }
    {
        Span {
            items: Vec::new(alloc),
        }
    }

    /// No pair, and room for so many.
    pub fn with_room(alloc: Global, room: usize) -> Result<Self, AllocError>
        ensures { IfOk result (λ s. (s.0 ≡ []) × (s.1 ≡ room)) }
    {
        Ok(Span {
            items: Vec::with_capacity(alloc, room)?,
        })
    }

    /// These pairs, with the room behind them.
    pub fn of(items: Vec<Pair>) -> Self
        ensures { result.0 ≡ items.items }
    {
        Span { items }
    }

    /// Moves the pairs out, with the room behind them.
    pub fn take(&mut self) -> Self
        ensures all { result ≡ self.old }
        ensures none { self.new ≡ ([], 0) }
    {
        let alloc = *self.items.allocator();
        mem::replace(
            self,
            Span {
                items: Vec::new(alloc),
            },
        )
    }

    /// Appends a pair. There must be room.
    pub fn push(&mut self, key: u64, value: u64)
        requires { 1 ≤ self.old.1 }
        ensures items { self.new.0 ≡ self.old.0 ++ (key, value) ∷ [] }
        ensures room { self.new.1 + 1 ≡ self.old.1 }
    {
        self.items.push_reserved(Pair { key, value });
    }

    /// How many pairs there are.
    pub fn len(&self) -> usize
        ensures { result ≡ length self.now.0 }
    {
        self.items.len()
    }

    /// Takes all pairs out, and keeps their room.
    pub fn clear(&mut self)
        ensures items { self.new.0 ≡ [] }
        ensures room { self.new.1 ≡ self.old.1 + length self.old.0 }
    {
        self.items.clear();
    }

    /// The pairs.
    pub fn as_slice(&self) -> &[Pair]
        ensures { result.now ≡ self.now.0 }
    {
        self.items.as_slice()
    }
}

/// Two are the same where their pairs are, whatever room there is behind them.
impl PartialEq for Span {
    ghost eq = { λ a b. pointwise ⟦<Pair as PartialEq>⟧.eq a.0 b.0 };

    ghost laws = { on_per (λ s. s.0) (lists_per (Prim.search (comparing, rules))) };

    fn eq(&self, other: &Self) -> bool {
        self.items == other.items
    }
}
