//! Keys in their order, and what they take of a node.

ghost use Rattle.std.specs.Prelude.{◌≡◌, ◌+◌, ◌<◌, ◌≤◌, length};
ghost use Rattle.vm_bytes_form.specs.Cuts.{pair_size as size_of_pair, words_for};
ghost use Rattle.vm_bytes_form.specs.Strings.{AreBytes, IsString, RANK_END, rank};
ghost use Rattle.vm_node.specs.Loads.{IsAnswer};

use vm_map::key::Key;

/// The bytes of a key, which is a string of at most 64.
pub(crate) fn bytes_of(key: &Key) -> &[u8]
    ensures value { result.now ≡ key.now }
    ensures string { IsString 64 result.now }
{
    let bytes = key.as_slice();
    are_bytes(bytes);
    bytes
}

// Each item of a slice of bytes is a byte. Nothing is done.
fn are_bytes(bytes: &[u8])
    ensures { AreBytes bytes.now }
{
    let _ = bytes.len();
}

/// The key once more.
pub fn copied(key: &Key) -> Key
    ensures { result ≡ key.now }
{
    // A key has 64 bytes at most, so there is one of these.
    Key::of(key.as_slice()).unwrap_or(Key::new())
}

/// A key is a string of at most 64 bytes, and its rank is below the end of all ranks. Nothing is done.
pub fn in_range(key: &Key)
    ensures string { IsString 64 key.now }
    ensures rank { rank key.now < RANK_END }
{
    let _ = bytes_of(key);
}

/// Whether one key stands before the other, as words in a dictionary do.
pub fn is_before(key: &Key, other: &Key) -> bool
    ensures { IsAnswer result (rank key.now < rank other.now) }
{
    is_lower(bytes_of(key), bytes_of(other))
}

// The same, of the bytes of the two.
fn is_lower(left: &[u8], right: &[u8]) -> bool
    requires left { IsString 64 left.now }
    requires right { IsString 64 right.now }
    ensures { IsAnswer result (rank left.now < rank right.now) }
{
    left < right
}

/// Whether the two are one key.
pub fn same_key(key: &Key, other: &Key) -> bool
    ensures rank { IsAnswer result (rank key.now ≡ rank other.now) }
    ensures bytes { IsAnswer result (key.now ≡ other.now) }
{
    bytes_of(key) == bytes_of(other)
}

/// What a pair of this key takes of a node's room: its slot, the words of the key, and the value.
pub fn pair_size(key: &Key) -> usize
    ensures rank { result ≡ size_of_pair (rank key.now) }
    ensures words { result ≡ 2 + words_for (length key.now) }
    ensures few { result ≤ 10 }
{
    2 + words_of(bytes_of(key).len())
}

/// How many words a string of so many bytes takes.
pub fn words_of(bytes: usize) -> usize
    ensures { result ≡ words_for bytes }
{
    bytes.div_ceil(8)
}
