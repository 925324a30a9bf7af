//! Reads keys: two lower-case hexadecimal digits a byte, or `-` for the empty key.

ghost use Rattle.std.specs.Prelude.{◌≡◌, ◌↔◌, IsTrue};
ghost use Rattle.hex.specs.Hex.{encode_lower};
ghost use Rattle.vm_bytes_script.specs.Readings.{ReadsKey};

use vm_bytes_node::in_range;
use vm_map::key::{Key, MOST_BYTES};

/// The key that a text stands for: `-`, or two lower-case hexadecimal digits for each of 1 to 64 bytes. All other bytes are `None`.
pub fn key_of(text: &[u8]) -> Option<Key>
    ensures { ReadsKey text.now result }
{
    if text == b"-".as_slice() {
        return Some(Key::new());
    }
    if text.is_empty() || text.len() > 2 * MOST_BYTES {
        return None;
    }
    let mut bytes = [0u8; MOST_BYTES];
    let bytes = &mut bytes[..text.len() / 2];
    if hex::decode_to_slice(text, &mut *bytes).is_err() {
        return None;
    }
    let key = Key::of(bytes)?;
    in_range(&key);
    if is_spelled(&key, text) {
        Some(key)
    } else {
        None
    }
}

// Whether these are the digits that are written for the key: those of upper case are read too.
fn is_spelled(key: &Key, text: &[u8]) -> bool
    ensures { IsTrue result ↔ (encode_lower key.now ≡ text.now) }
{
    let mut digits = [0u8; 2 * MOST_BYTES];
    let digits = &mut digits[..2 * key.len()];
    hex::encode_to_slice(key.as_slice(), &mut *digits).is_ok() && &*digits == text
}
