//! What a node's header says: its tag, level and fences, and how much room is left.

ghost use Rattle.std.specs.Prelude.{◌≡◌, ◌<◌, ◌≤◌, unwrap_or};
ghost use Rattle.std.specs.Option.{option_map};
ghost use Rattle.vm_tree_model.specs.{Node.Covers, Page.node_of};
ghost use Rattle.vm_bytes_form.specs.{Bytes.bytes, Bytes.high_rank, Forms.node_in, Strings.RANK_END, Strings.rank};
ghost use Rattle.vm_node.specs.Loads.{IsAnswer, Tells};
ghost use Rattle.vm_bytes_node.specs.Limits.{MOST_SLOTS};
ghost use Rattle.vm_bytes_node.specs.Room.{count_shown, lowest_slot, spare_words};

use crate::order::{in_range, is_before, same_key};
use crate::slots::{count_at, string_at};
use vm_map::key::Key;
use vm_node::Place;
use vm_page::LARGE;

/// Whether the page has a leaf's tag, from one word loaded.
pub fn is_leaf_at<P: Place>(place: &mut P) -> bool
    requires ready { P.ready place.old }
    requires size { P.size place.old ≡ 512 }
    ensures ready { P.ready place.new }
    ensures size { P.size place.new ≡ 512 }
    ensures told { Tells 512 P.loads place.old 1 place.new (λ page. IsAnswer result ((node_of bytes page).tag ≡ 2)) }
{
    place.word(0) == 4
}

/// Whether the page has this level, from one word loaded.
pub fn has_level_at<P: Place>(place: &mut P, level: u64) -> bool
    requires ready { P.ready place.old }
    requires size { P.size place.old ≡ 512 }
    ensures ready { P.ready place.new }
    ensures size { P.size place.new ≡ 512 }
    ensures told { Tells 512 P.loads place.old 1 place.new (λ page. IsAnswer result ((node_of bytes page).level ≡ level)) }
{
    place.word(2) == level
}

/// The low fence, from at most nine words loaded.
pub fn low_at<P: Place>(place: &mut P) -> Key
    requires ready { P.ready place.old }
    requires size { P.size place.old ≡ 512 }
    ensures ready { P.ready place.new }
    ensures size { P.size place.new ≡ 512 }
    ensures told { Tells 512 P.loads place.old 9 place.new (λ page. result ≡ (node_in page).low) }
{
    let slot = place.word(3);
    string_at(place, slot)
}

/// The high fence, where there is one, from at most nine words loaded.
pub fn high_at<P: Place>(place: &mut P) -> Option<Key>
    requires ready { P.ready place.old }
    requires size { P.size place.old ≡ 512 }
    ensures ready { P.ready place.new }
    ensures size { P.size place.new ≡ 512 }
    ensures told { Tells 512 P.loads place.old 9 place.new (λ page. result ≡ (node_in page).high) }
{
    let slot = place.word(4);
    if slot == 0 {
        return None;
    }
    Some(string_at(place, slot))
}

/// Whether the key lies in the page's fences, from the low one on and below the high one. At most eighteen words are loaded.
pub fn covers_at<P: Place>(place: &mut P, key: &Key) -> bool
    requires ready { P.ready place.old }
    requires size { P.size place.old ≡ 512 }
    ensures ready { P.ready place.new }
    ensures size { P.size place.new ≡ 512 }
    ensures told { Tells 512 P.loads place.old 18 place.new (λ page. IsAnswer result (Covers (node_of bytes page) (rank key.now))) }
{
    let low = low_at(place);
    if is_before(key, &low) {
        return false;
    }
    match high_at(place) {
        Some(high) => is_before(key, &high),
        None => {
            in_range(key);
            true
        }
    }
}

/// Whether the page has just these fences. No high fence stands for the end of all keys. At most eighteen words are loaded.
pub fn has_fences_at<P: Place>(place: &mut P, low: &Key, high: &Option<Key>) -> bool
    requires ready { P.ready place.old }
    requires size { P.size place.old ≡ 512 }
    ensures ready { P.ready place.new }
    ensures size { P.size place.new ≡ 512 }
    ensures told { Tells 512 P.loads place.old 18 place.new (λ page. IsAnswer result (((node_of bytes page).low ≡ rank low.now)
        × ((node_of bytes page).high ≡ unwrap_or (option_map rank high.now) RANK_END))) }
{
    same_key(&low_at(place), low) && same_high(&high_at(place), high)
}

// Whether the two are one high fence, or neither is there.
fn same_high(high: &Option<Key>, other: &Option<Key>) -> bool
    ensures { IsAnswer result (high_rank high.now ≡ high_rank other.now) }
{
    match (high, other) {
        (Some(key), Some(other)) => same_key(key, other),
        (None, None) => true,
        (Some(key), None) | (None, Some(key)) => {
            in_range(key);
            false
        }
    }
}

/// How much of its room the page has left, as its words tell, from at most three of them.
pub fn spare_at<P: Place>(place: &mut P) -> usize
    requires ready { P.ready place.old }
    requires size { P.size place.old ≡ 512 }
    ensures ready { P.ready place.new }
    ensures size { P.size place.new ≡ 512 }
    ensures told { Tells 512 P.loads place.old 3 place.new (λ page. result ≡ spare_words page) }
{
    let count = count_at(place);
    let slot = lowest_slot_at(place, count);
    let end = if slot == 0 {
        LARGE as u64
    } else {
        (slot / 256).min(LARGE as u64)
    };
    (end as usize).saturating_sub(8 + count)
}

// The slot of what stands lowest on a page of so many pairs, or 0.
fn lowest_slot_at<P: Place>(place: &mut P, count: usize) -> u64
    requires ready { P.ready place.old }
    requires size { P.size place.old ≡ 512 }
    requires count { count ≤ MOST_SLOTS }
    ensures ready { P.ready place.new }
    ensures size { P.size place.new ≡ 512 }
    ensures told { Tells 512 P.loads place.old 2 place.new (λ page. count ≡ count_shown page → result ≡ lowest_slot page) }
{
    if count > 0 {
        return place.word(7 + count);
    }
    let high = place.word(4);
    if high == 0 { place.word(3) } else { high }
}
