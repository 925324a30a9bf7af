// A key that is a byte string.
ghost use Rattle.std.specs.Prelude.{◌≡◌, ◌<◌, ◌≤◌, [], ◌∷◌, ◌++◌, length, MatchOption};

use arrayvec::ArrayVec;
use std::marker::Model;

/// How many bytes a key has at most.
pub const MOST_BYTES: usize = 64;

/// At most 64 bytes, which lie in the value itself: contracts see the list of the bytes.
#[derive(Debug, Drop, PartialEq)]
pub struct Key {
    bytes: ArrayVec<u8, MOST_BYTES>,
}

impl Model for Key {
    ghost use Rattle.std.specs.Prelude.{List, ℕ, ◌≤◌, length};
    ghost use Rattle.vm_map.specs.declared.key.TheConstants.{MOST_BYTES};

    ghost Value = { List ℕ };

    ghost view = { λ k. k.bytes.items };

    ghost inverse = { λ xs. record { bytes = record { items = xs } } };

    ghost invariant = { λ k. length k.bytes.items ≤ MOST_BYTES };
}

impl Key {
    /// The empty key.
    pub fn new() -> Self
        ensures { result ≡ [] }
    {
        Key {
            bytes: ArrayVec::new(),
        }
    }

    /// The key of these bytes. None exactly where they are more than 64.
    pub fn of(bytes: &[u8]) -> Option<Self>
        ensures { MatchOption result (64 < length bytes.now) (λ key. (key ≡ bytes.now) × (length bytes.now ≤ 64)) }
    {
        let mut key = Key::new();
        match key.bytes.try_extend_from_slice(bytes) {
            Ok(()) => Some(key),
            Err(_) => None,
        }
    }

    /// How many bytes there are.
    pub fn len(&self) -> usize
        ensures value { result ≡ length self.now }
        ensures fits { length self.now ≤ MOST_BYTES }
    {
        self.bytes.len()
    }

    /// Appends a byte. There must be room.
    pub fn push(&mut self, byte: u8)
        requires { length self.old < MOST_BYTES }
        ensures { self.new ≡ self.old ++ byte ∷ [] }
    {
        self.bytes.push(byte);
    }

    /// The bytes.
    pub fn as_slice(&self) -> &[u8]
        ensures value { result.now ≡ self.now }
        ensures fits { length self.now ≤ MOST_BYTES }
    {
        self.bytes.as_slice()
    }
}
