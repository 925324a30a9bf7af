// What a window of the map shows: a few pairs from a key on, and the bound up to which they are all.
ghost use Rattle.std.specs.Prelude.{◌≡◌, ◌==◌, ◌<◌, ◌≤◌, [], ◌∷◌, ◌++◌, length, nat_lt};
ghost use Rattle.vm_map.specs.History.{bound_of};

use crate::call::Pair;
use arrayvec::ArrayVec;
use std::marker::Model;
use std::mem;

/// How many pairs a window has at most: as many as a node of a tree.
pub const MOST_PAIRS: usize = 28;

/// At most 28 pairs, which lie in the value itself: contracts see the list of the pairs.
#[derive(Debug, Drop, PartialEq)]
pub struct Pairs {
    items: ArrayVec<Pair, MOST_PAIRS>,
}

impl Model for Pairs {
    ghost use Rattle.std.specs.Prelude.{List, ℕ, ◌≤◌, length};
    ghost use Rattle.vm_map.specs.declared.window.TheConstants.{MOST_PAIRS};

    ghost Value = { List (ℕ × ℕ) };

    ghost view = { λ p. p.items.items };

    ghost inverse = { λ xs. record { items = record { items = xs } } };

    ghost invariant = { λ p. length p.items.items ≤ MOST_PAIRS };
}

impl Pairs {
    /// No pair.
    pub fn new() -> Self
        ensures { result ≡ [] }
    {
        Pairs {
            items: ArrayVec::new(),
        }
    }

    /// How many pairs there are.
    pub fn len(&self) -> usize
        ensures value { result ≡ length self.now }
        ensures fits { length self.now ≤ MOST_PAIRS }
    {
        self.items.len()
    }

    /// Whether there is no room for a further pair.
    pub fn is_full(&self) -> bool
        ensures value { result ≡ (length self.now == MOST_PAIRS) }
        ensures fits { length self.now ≤ MOST_PAIRS }
    {
        self.items.is_full()
    }

    /// Appends a pair. There must be room.
    pub fn push(&mut self, key: u64, value: u64)
        requires { length self.old < MOST_PAIRS }
        ensures { self.new ≡ self.old ++ (key, value) ∷ [] }
    {
        self.items.push(Pair { key, value });
    }

    /// The pairs.
    pub fn as_slice(&self) -> &[Pair]
        ensures value { result.now ≡ self.now }
        ensures fits { length self.now ≤ MOST_PAIRS }
    {
        self.items.as_slice()
    }
}

/// Where a window ends: before a key, or behind the last pair.
#[derive(Clone, Copy, Debug, Drop, PartialEq, Eq)]
pub enum Bound {
    /// The window shows all pairs below this key.
    Key(u64),
    /// The window shows all pairs to the last.
    End,
}

impl Bound {
    /// Whether the bound lies above the key.
    pub fn is_above(self, key: u64) -> bool
        ensures { result ≡ nat_lt key (bound_of self) }
    {
        match self {
            Bound::Key(end) => key < end,
            Bound::End => true,
        }
    }
}

/// The pairs of the map from a key up to a bound, all of them, by rising key.
#[derive(Debug, Drop, PartialEq)]
pub struct Window {
    pub bound: Bound,
    pub pairs: Pairs,
}

impl Window {
    /// Moves what it shows out, and leaves a window without a pair: a reply that is held by value is taken apart in this way.
    pub fn take(&mut self) -> Self
        ensures { result ≡ self.old }
    {
        mem::replace(
            self,
            Window {
                bound: Bound::End,
                pairs: Pairs::new(),
            },
        )
    }
}
