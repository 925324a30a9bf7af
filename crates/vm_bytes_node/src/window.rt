//! What a window of a map with byte keys shows: a few pairs from a key on, and the key before which they are all.

ghost use Rattle.std.specs.Prelude.{[], ◌≡◌, ◌++◌, ◌<◌, ◌≤◌, ◌∷◌, length};

use arrayvec::ArrayVec;
use std::marker::Model;
use vm_map::key::Key;
use vm_map::window::MOST_PAIRS;

/// A key with its value: contracts see the pair of the two.
#[derive(Drop)]
pub struct KeyPair {
    pub key: Key,
    pub value: u64,
}

impl Model for KeyPair {
    ghost use Rattle.std.specs.Prelude.{List, ℕ};

    ghost Value = { List ℕ × ℕ };

    ghost view = { λ p. (p.key, p.value) };

    ghost inverse = { λ d. record { key = d.0; value = d.1 } };
}

impl Default for KeyPair {
    fn default() -> Self {
        KeyPair {
            key: Key::new(),
            value: 0,
        }
    }
}

/// At most 28 pairs, which lie in the value itself: contracts see the list of the pairs.
#[derive(Drop)]
pub struct KeyPairs {
    items: ArrayVec<KeyPair, MOST_PAIRS>,
}

impl Model for KeyPairs {
    ghost use Rattle.std.specs.Prelude.{length, List, ℕ, ◌≤◌};
    ghost use Rattle.vm_map.specs.declared.window.TheConstants.{MOST_PAIRS};

    ghost Value = { List (List ℕ × ℕ) };

    ghost view = { λ p. p.items.items };

    ghost inverse = { λ xs. record { items = record { items = xs } } };

    ghost invariant = { λ p. length p.items.items ≤ MOST_PAIRS };
}

impl KeyPairs {
    /// No pair.
    pub fn new() -> Self
        ensures { result ≡ [] }
    {
        KeyPairs {
            items: ArrayVec::new(),
        }
    }

    /// How many pairs there are.
    pub fn len(&self) -> usize
        ensures value { result ≡ length self.now }
        ensures fits { length self.now ≤ MOST_PAIRS }
    {
        self.items.len()
    }

    /// Appends a pair. There must be room.
    pub fn push(&mut self, key: Key, value: u64)
        requires { length self.old < MOST_PAIRS }
        ensures { self.new ≡ self.old ++ (key, value) ∷ [] }
    {
        self.items.push(KeyPair { key, value });
    }

    /// The pairs.
    pub fn as_slice(&self) -> &[KeyPair]
        ensures value { result.now ≡ self.now }
        ensures fits { length self.now ≤ MOST_PAIRS }
    {
        self.items.as_slice()
    }
}

/// The pairs of the map from a key up to a bound, all of them, by rising key. No bound stands for the end of all keys.
#[derive(Drop)]
pub struct KeyWindow {
    pub bound: Option<Key>,
    pub pairs: KeyPairs,
}
