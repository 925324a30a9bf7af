//! What a leaf shows from a key on.

ghost use Rattle.std.specs.Prelude.{◌≡◌, ◌+◌, ◌*◌, ◌≤◌, length, min, ℕ};
ghost use Rattle.vm_map.specs.Map.{Rises};
ghost use Rattle.vm_map.specs.declared.window.TheConstants.{MOST_PAIRS};
ghost use Rattle.vm_tree_model.specs.Page.{pairs_of};
ghost use Rattle.vm_bytes_form.specs.{Bytes.bytes, Forms.node_in, Strings.rank};
ghost use Rattle.vm_node.specs.{Loads.Tells, Places.place_of};
ghost use Rattle.vm_bytes_node.specs.{Limits.MOST_SLOTS, KeyWindows.IsKeyWindow};

use crate::fences::high_at;
use crate::order::{in_range, same_key};
use crate::search::upper_bound_at;
use crate::slots::{count_at, key_at, value_at};
use crate::window::{KeyPairs, KeyWindow};
use vm_map::key::Key;
use vm_map::window::MOST_PAIRS;
use vm_node::Place;

/// The first `most` pairs from the key `start` on, or all of them, of any page whose keys rise; a `most` above 28 is read as 28. The bound is
/// the key of the next pair where there is one, else the page's high fence, if it has one. At most eleven words a pair are loaded, and 100 more.
pub fn window_at<P: Place>(place: &mut P, start: &Key, most: u32) -> KeyWindow
    requires ready { P.ready place.old }
    requires size { P.size place.old ≡ 512 }
    ensures ready { P.ready place.new }
    ensures size { P.size place.new ≡ 512 }
    ensures told { Tells 512 P.loads place.old (11 * min most MOST_PAIRS + 100) place.new
        (λ page. (low high : ℕ) → Rises low high (pairs_of bytes page)
        → IsKeyWindow (node_in page) start.now (min most MOST_PAIRS) result.pairs result.bound) }
{
    in_range(start);
    let room = most.min(MOST_PAIRS as u32) as usize;
    let count = count_at(place);
    let first = lower_bound_at(place, count, start);
    let mut pairs = KeyPairs::new();
    for i in first..count {
        let key = key_at(place, i);
        if pairs.len() >= room {
            return KeyWindow {
                bound: Some(key),
                pairs,
            };
        }
        let value = value_at(place, i);
        pairs.push(key, value);
    }
    let bound = high_at(place);
    KeyWindow { bound, pairs }
}

// How many of a page's pairs have a lower key, where the keys rise.
fn lower_bound_at<P: Place>(place: &mut P, count: usize, key: &Key) -> usize
    requires ready { P.ready place.old }
    requires size { P.size place.old ≡ 512 }
    requires count { count ≤ MOST_SLOTS }
    ensures ready { P.ready place.new }
    ensures size { P.size place.new ≡ 512 }
    ensures inside { result ≤ count }
    ensures told { Tells 512 P.loads place.old 81 place.new (λ page. count ≡ length (node_in page).entries
        → (low high : ℕ) → Rises low high (pairs_of bytes page) → result ≡ place_of (pairs_of bytes page) (rank key.now)) }
{
    let above = upper_bound_at(place, count, key);
    if above.at > 0 && same_key(&above.low, key) {
        above.at - 1
    } else {
        above.at
    }
}
