//! The slots of a node, and the strings and values that they name.

ghost use Rattle.std.specs.Prelude.{[], ◌≡◌, ◌+◌, ◌++◌, ◌<◌, ◌≤◌, length, slice_index_or, take};
ghost use Rattle.std.specs.Int.{to_be_bytes, w64};
ghost use Rattle.vm_bytes_form.specs.Forms.{node_in, string_at as string_in};
ghost use Rattle.vm_node.specs.Loads.{Tells};
ghost use Rattle.vm_bytes_node.specs.Limits.{MOST_SLOTS};

use crate::order::words_of;
use vm_map::key::{Key, MOST_BYTES};
use vm_node::Place;
use vm_page::LARGE;

/// How many words stand before the slots.
pub const HEADER: usize = 8;

/// How many pairs the page has; a count above the number of words behind the header is read as that. One word is loaded.
pub fn count_at<P: Place>(place: &mut P) -> usize
    requires ready { P.ready place.old }
    requires size { P.size place.old ≡ 512 }
    ensures ready { P.ready place.new }
    ensures size { P.size place.new ≡ 512 }
    ensures few { result ≤ MOST_SLOTS }
    ensures told { Tells 512 P.loads place.old 1 place.new (λ page. result ≡ length (node_in page).entries) }
{
    place.word(1).min((LARGE - HEADER) as u64) as usize
}

/// The string that a slot names, from at most eight words loaded. A length above 64 is read as 64, and no string goes past the page's end.
pub fn string_at<P: Place>(place: &mut P, slot: u64) -> Key
    requires ready { P.ready place.old }
    requires size { P.size place.old ≡ 512 }
    ensures ready { P.ready place.new }
    ensures size { P.size place.new ≡ 512 }
    ensures told { Tells 512 P.loads place.old 8 place.new (λ page. result ≡ string_in page slot) }
{
    let from = (slot / 256).min(LARGE as u64) as usize;
    let long = (slot % 256).min(MOST_BYTES as u64) as usize;
    let upto = (from + words_of(long)).min(LARGE);
    let mut key = Key::new();
    for i in from..upto {
        let word = place.word(i);
        append_word(&mut key, word, long);
    }
    key
}

// Appends the bytes of a word, up to so many in all.
fn append_word(key: &mut Key, word: u64, most: usize)
    requires most { most ≤ 64 }
    requires room { length key.old ≤ most }
    ensures { key.new ≡ take most (key.old ++ to_be_bytes w64 word) }
{
    for byte in word.to_be_bytes() {
        if key.len() < most {
            key.push(byte);
        }
    }
}

/// The key of the pair at place `i`, which is below the count, from at most nine words loaded.
pub fn key_at<P: Place>(place: &mut P, i: usize) -> Key
    requires ready { P.ready place.old }
    requires size { P.size place.old ≡ 512 }
    requires inside { i < MOST_SLOTS }
    ensures ready { P.ready place.new }
    ensures size { P.size place.new ≡ 512 }
    ensures told { Tells 512 P.loads place.old 9 place.new (λ page. i < length (node_in page).entries
        → result ≡ (slice_index_or (node_in page).entries i ([], 0)).0) }
{
    let slot = place.word(HEADER + i);
    string_at(place, slot)
}

/// The value of the pair at place `i`, which is below the count, from at most two words loaded.
pub fn value_at<P: Place>(place: &mut P, i: usize) -> u64
    requires ready { P.ready place.old }
    requires size { P.size place.old ≡ 512 }
    requires inside { i < MOST_SLOTS }
    ensures ready { P.ready place.new }
    ensures size { P.size place.new ≡ 512 }
    ensures told { Tells 512 P.loads place.old 2 place.new (λ page. i < length (node_in page).entries
        → result ≡ (slice_index_or (node_in page).entries i ([], 0)).1) }
{
    let slot = place.word(HEADER + i);
    let at = slot / 256 + words_of((slot % 256) as usize) as u64;
    if at < LARGE as u64 {
        place.word(at as usize)
    } else {
        0
    }
}
