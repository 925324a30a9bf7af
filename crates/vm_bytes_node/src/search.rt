//! The search for a key among the pairs of a node.

ghost use Rattle.std.specs.Prelude.{◌≡◌, ◌+◌, ◌<◌, ◌≤◌, length, MatchOption, ℕ};
ghost use Rattle.std.specs.Option.{option_map};
ghost use Rattle.vm_map.specs.Map.{Rises, lookup_at};
ghost use Rattle.vm_tree_model.specs.Page.{pairs_of};
ghost use Rattle.vm_bytes_form.specs.{Bytes.bytes, Forms.node_in, Strings.rank};
ghost use Rattle.vm_node.specs.Loads.{Tells};
ghost use Rattle.vm_node.specs.Places.{HasSides, IsBound};
ghost use Rattle.vm_inner.specs.Found.{FindsChildIn, FindsNoChild};
ghost use Rattle.vm_bytes_node.specs.Limits.{MOST_SLOTS};

use crate::order::{is_before, same_key};
use crate::slots::{count_at, key_at, value_at};
use vm_inner::Fenced;
use vm_map::key::Key;
use vm_node::Place;

/// Where the keys of a page begin to be above one, and the keys on both sides of that place: of the pair before, the empty one where there is none, and
/// of the one there, if there is one.
#[derive(Drop)]
pub struct KeyBound {
    pub at: usize,
    pub low: Key,
    pub next: Option<Key>,
}

/// Where the keys of these first pairs begin to be above this one, found by halves: the pair before the place has no key above, and the
/// one at the place has one. The search has loaded the keys of both. At most 81 words are loaded, nine for each of nine keys.
pub fn upper_bound_at<P: Place>(place: &mut P, count: usize, key: &Key) -> KeyBound
    requires ready { P.ready place.old }
    requires size { P.size place.old ≡ 512 }
    requires count { count ≤ MOST_SLOTS }
    ensures ready { P.ready place.new }
    ensures size { P.size place.new ≡ 512 }
    ensures inside { result.at ≤ count }
    ensures told { Tells 512 P.loads place.old 81 place.new (λ page. count ≡ length (node_in page).entries
        → IsBound (pairs_of bytes page) (rank key.now + 1) result.at
        × HasSides (pairs_of bytes page) result.at (rank result.low) (option_map rank result.next)) }
    ensures low { rank result.low ≤ rank key.now }
    ensures next { MatchOption result.next (Unit {0}) (λ above. rank key.now < rank above) }
{
    let mut from = 0;
    let mut upto = count;
    let mut low = Key::new();
    let mut next = None;
    'halves: while from < upto {
        let middle = from + (upto - from) / 2;
        let found = key_at(place, middle);
        if is_before(key, &found) {
            upto = middle;
            next = Some(found);
        } else {
            from = middle + 1;
            low = found;
        }
    }
    KeyBound {
        at: from,
        low,
        next,
    }
}

/// The value at the key, of any page whose keys rise. At most 84 words are loaded.
pub fn find_at<P: Place>(place: &mut P, key: &Key) -> Option<u64>
    requires ready { P.ready place.old }
    requires size { P.size place.old ≡ 512 }
    ensures ready { P.ready place.new }
    ensures size { P.size place.new ≡ 512 }
    ensures told { Tells 512 P.loads place.old 84 place.new (λ page. (low high : ℕ) → Rises low high (pairs_of bytes page)
        → result ≡ lookup_at (pairs_of bytes page) (rank key.now)) }
{
    let count = count_at(place);
    let above = upper_bound_at(place, count, key);
    if above.at == 0 || !same_key(&above.low, key) {
        return None;
    }
    Some(value_at(place, above.at - 1))
}

/// The child whose range has the key, of any page whose keys rise: that of the last pair whose key is not above. Of other pages it is that of a
/// pair whose key is not above, or none where the first pair's key is. From at most 84 words loaded, among them the keys on both sides.
pub fn child_at<P: Place>(place: &mut P, key: &Key) -> Option<Fenced<Key>>
    requires ready { P.ready place.old }
    requires size { P.size place.old ≡ 512 }
    ensures ready { P.ready place.new }
    ensures size { P.size place.new ≡ 512 }
    ensures told { Tells 512 P.loads place.old 84 place.new (λ page. MatchOption result (FindsNoChild bytes page (rank key.now))
        (λ child. FindsChildIn bytes page (rank key.now) child.page (rank child.low) (option_map rank child.next))) }
    ensures sides { MatchOption result (Unit {0})
        (λ child. (rank child.low ≤ rank key.now) × MatchOption child.next (Unit {0}) (λ above. rank key.now < rank above)) }
{
    let count = count_at(place);
    let above = upper_bound_at(place, count, key);
    if above.at == 0 {
        return None;
    }
    let page = value_at(place, above.at - 1);
    Some(Fenced {
        page,
        low: above.low,
        next: above.next,
    })
}
