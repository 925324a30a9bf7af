//! The pairs of a node, read word by word and searched.

ghost use Rattle.std.specs.Prelude.{◌≡◌, ℕ, ◌+◌, ◌*◌, ◌<◌, ◌≤◌, length, min, slice_index, slice_index_or, MatchOption, None};
ghost use Rattle.vm_map.specs.Map.{Rises, lookup_at};
ghost use Rattle.vm_page.specs.Sizes.{IsSize};
ghost use Rattle.vm_tree_model.specs.Fixed.{fixed, capacity};
ghost use Rattle.vm_tree_model.specs.Page.{pairs_of};
ghost use Rattle.vm_node.specs.Loads.{Tells};
ghost use Rattle.vm_node.specs.Places.{HasKeyAt, HasSides, IsBound, IsIndexOf, place_of};
ghost use Rattle.vm_node.specs.Sizes.{looks_for};

use crate::place::{Place, in_buffer};
use vm_page::PageBuf;

/// How many pairs a page of so many words has place for: 28 or 252.
pub fn most_pairs(words: usize) -> usize
    requires { IsSize words }
    ensures { result ≡ capacity words }
{
    (words - 8) / 2
}

/// How many pairs the page has, at most as many as it has place for, from one word loaded.
pub fn count_at<P: Place>(place: &mut P, words: usize) -> usize
    requires ready { P.ready place.old }
    requires sized { IsSize words }
    requires size { P.size place.old ≡ words }
    ensures ready { P.ready place.new }
    ensures size { P.size place.new ≡ words }
    ensures few { result ≤ capacity words }
    ensures told { Tells words P.loads place.old 1 place.new (λ page. result ≡ length (pairs_of (fixed words) page)) }
{
    place.word(1).min(most_pairs(words) as u64) as usize
}

/// How many pairs the page has, at most as many as it has place for.
pub fn count_of<const N: usize>(page: &PageBuf<N>) -> usize
    requires { IsSize N }
    ensures count { result ≡ min (slice_index page.now 1) (capacity N) }
    ensures pairs { result ≡ length (pairs_of (fixed N) page.now) }
    ensures words { length page.now ≡ N }
{
    page.get(1).min(most_pairs(N) as u64) as usize
}

/// The key of the pair at place `i`, which is below the count.
pub fn key_at<const N: usize>(page: &PageBuf<N>, i: usize) -> u64
    requires sized { IsSize N }
    requires there { i < length (pairs_of (fixed N) page.now) }
    ensures word { result ≡ slice_index page.now (8 + 2 * i) }
    ensures pair { result ≡ (slice_index_or (pairs_of (fixed N) page.now) i (0, 0)).0 }
{
    page.get(8 + 2 * i)
}

/// The value of the pair at place `i`, which is below the count.
pub fn value_at<const N: usize>(page: &PageBuf<N>, i: usize) -> u64
    requires sized { IsSize N }
    requires there { i < length (pairs_of (fixed N) page.now) }
    ensures word { result ≡ slice_index page.now (9 + 2 * i) }
    ensures pair { result ≡ (slice_index_or (pairs_of (fixed N) page.now) i (0, 0)).1 }
{
    page.get(9 + 2 * i)
}

/// Where the keys of a page begin to be above one, and the keys on both sides of that place: of the pair before, 0 where there is none, and of the one
/// there, if there is one.
#[derive(Clone, Copy, Drop)]
pub struct UpperBound {
    pub at: usize,
    pub low: u64,
    pub next: Option<u64>,
}

/// Where the keys of these first pairs begin to be above this one, found by halves: the pair before the place has no key above, and the
/// one at the place has one. The search has loaded the keys of both. At most 5 words are loaded of a page of 64, and 8 of one of 512.
pub fn upper_bound_at<P: Place>(place: &mut P, words: usize, count: usize, key: u64) -> UpperBound
    requires ready { P.ready place.old }
    requires sized { IsSize words }
    requires size { P.size place.old ≡ words }
    requires count { count ≤ capacity words }
    ensures ready { P.ready place.new }
    ensures size { P.size place.new ≡ words }
    ensures inside { result.at ≤ count }
    ensures told { Tells words P.loads place.old (looks_for words) place.new (λ page. count ≡ length (pairs_of (fixed words) page)
        → IsBound (pairs_of (fixed words) page) (key + 1) result.at × HasSides (pairs_of (fixed words) page) result.at result.low result.next) }
    ensures low { result.low ≤ key }
    ensures next { MatchOption result.next (Unit {0}) (λ above. key < above) }
{
    let mut from = 0;
    let mut upto = count;
    let mut low = 0;
    let mut next = None;
    'halves: while from < upto {
        let middle = from + (upto - from) / 2;
        let found = place.word(8 + 2 * middle);
        if found <= key {
            from = middle + 1;
            low = found;
        } else {
            upto = middle;
            next = Some(found);
        }
    }
    UpperBound {
        at: from,
        low,
        next,
    }
}

/// Where the keys of these first pairs stop being lower than this one: the pair before the place has a lower key, and the one at the place has
/// none. Among keys that rise that is the number of pairs with a lower key. At most 5 words are loaded of a page of 64, and 8 of one of 512.
pub fn lower_bound_at<P: Place>(place: &mut P, words: usize, count: usize, key: u64) -> usize
    requires ready { P.ready place.old }
    requires sized { IsSize words }
    requires size { P.size place.old ≡ words }
    requires count { count ≤ capacity words }
    ensures ready { P.ready place.new }
    ensures size { P.size place.new ≡ words }
    ensures inside { result ≤ count }
    ensures told { Tells words P.loads place.old (looks_for words) place.new (λ page. count ≡ length (pairs_of (fixed words) page)
        → IsBound (pairs_of (fixed words) page) key result) }
{
    let Some(before) = key.checked_sub(1) else {
        return 0;
    };
    upper_bound_at(place, words, count, before).at
}

/// The same, of the pairs of a buffer.
pub fn lower_bound<const N: usize>(page: &PageBuf<N>, key: u64) -> usize
    requires { IsSize N }
    ensures bound { IsBound (pairs_of (fixed N) page.now) key result }
    ensures place { (low high : ℕ) → Rises low high (pairs_of (fixed N) page.now) → result ≡ place_of (pairs_of (fixed N) page.now) key }
{
    let count = count_of(page);
    let mut place = in_buffer(page);
    lower_bound_at(&mut place, N, count, key)
}

/// The place of a pair that has the key, found by halves: among keys that rise, where there is one.
pub(crate) fn index_of<const N: usize>(page: &PageBuf<N>, key: u64) -> Option<usize>
    requires { IsSize N }
    ensures some { MatchOption result (Unit {0}) (HasKeyAt (pairs_of (fixed N) page.now) key) }
    ensures rising { (low high : ℕ) → Rises low high (pairs_of (fixed N) page.now)
        → MatchOption result (lookup_at (pairs_of (fixed N) page.now) key ≡ None) (IsIndexOf (pairs_of (fixed N) page.now) key) }
{
    let at = lower_bound(page, key);
    if at < count_of(page) && key_at(page, at) == key {
        Some(at)
    } else {
        None
    }
}
