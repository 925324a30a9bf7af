//! The calls on a leaf: which keys it answers for, look-ups of its pairs, and edits made in a buffer.

ghost use Rattle.std.specs.Prelude.{◌≡◌, ◌≢◌, ℕ, ◌+◌, true, false, OnOk, OnErr, IfOk, MatchResult, IfNone, unwrap_or, ◌==◌, if◌then◌else◌};
ghost use Rattle.vm_map.specs.Keys.{KEY_END};
ghost use Rattle.vm_map.specs.Map.{Rises, lookup_at, del_pair};
ghost use Rattle.vm_page.specs.Sizes.{IsSize};
ghost use Rattle.vm_tree_model.specs.Fixed.{fixed};
ghost use Rattle.vm_tree_model.specs.Node.{Covers};
ghost use Rattle.vm_tree_model.specs.Page.{pairs_of, node_of, IsLeaf};
ghost use Rattle.vm_tree_model.specs.Edits.{IsFullFor, AddsPair, IsRefused, PutsInLeaf, IsLeafWith, TakesPair};
ghost use Rattle.vm_node.specs.Loads.{IsAnswer, Tells};
ghost use Rattle.vm_node.specs.Sizes.{looks_for};

use crate::edit::{del_edit, put_edit};
use crate::full::Full;
use crate::pairs::{count_at, lower_bound_at};
use crate::place::{Place, in_buffer};
use vm_page::PageBuf;

/// Whether the page has a leaf's tag, from one word loaded.
pub fn is_leaf_at<P: Place>(place: &mut P, words: usize) -> bool
    requires ready { P.ready place.old }
    requires sized { IsSize words }
    requires size { P.size place.old ≡ words }
    ensures ready { P.ready place.new }
    ensures size { P.size place.new ≡ words }
    ensures told { Tells words P.loads place.old 1 place.new (λ page. IsAnswer result ((node_of (fixed words) page).tag ≡ 2)) }
{
    place.word(0) == 2
}

/// Whether the page has a leaf's tag.
pub fn is_leaf<const N: usize>(page: &PageBuf<N>) -> bool
    requires { IsSize N }
    ensures yes { result ≡ true → (node_of (fixed N) page.now).tag ≡ 2 }
    ensures no { result ≡ false → (node_of (fixed N) page.now).tag ≢ 2 }
{
    page.get(0) == 2
}

/// Whether the page has this level, from one word loaded.
pub fn has_level_at<P: Place>(place: &mut P, words: usize, level: u64) -> bool
    requires ready { P.ready place.old }
    requires sized { IsSize words }
    requires size { P.size place.old ≡ words }
    ensures ready { P.ready place.new }
    ensures size { P.size place.new ≡ words }
    ensures told { Tells words P.loads place.old 1 place.new (λ page. IsAnswer result ((node_of (fixed words) page).level ≡ level)) }
{
    place.word(5) == level
}

/// Whether the page has just these fences, where none stands for the end of all keys; from at most 3 words loaded.
pub fn has_fences_at<P: Place>(place: &mut P, words: usize, low: u64, high: Option<u64>) -> bool
    requires ready { P.ready place.old }
    requires sized { IsSize words }
    requires size { P.size place.old ≡ words }
    ensures ready { P.ready place.new }
    ensures size { P.size place.new ≡ words }
    ensures told { Tells words P.loads place.old 3 place.new (λ page. IsAnswer result (((node_of (fixed words) page).low ≡ low)
        × ((node_of (fixed words) page).high ≡ unwrap_or high KEY_END))) }
{
    let from = place.word(2);
    let fence = place.word(3);
    let flag = place.word(4);
    from == low && is_fence(flag, fence, high)
}

// Whether a page whose words 4 and 3 are these has this high fence.
fn is_fence(flag: u64, fence: u64, high: Option<u64>) -> bool
    ensures { IsAnswer result ((if flag == 0 then fence else KEY_END) ≡ unwrap_or high KEY_END) }
{
    match high {
        Some(key) => flag == 0 && fence == key,
        None => flag != 0,
    }
}

/// Whether the key lies in the page's fences, from the low one on and below the high one; from at most 3 words loaded.
pub fn covers_at<P: Place>(place: &mut P, words: usize, key: u64) -> bool
    requires ready { P.ready place.old }
    requires sized { IsSize words }
    requires size { P.size place.old ≡ words }
    ensures ready { P.ready place.new }
    ensures size { P.size place.new ≡ words }
    ensures told { Tells words P.loads place.old 3 place.new (λ page. IsAnswer result (Covers (node_of (fixed words) page) key)) }
{
    place.word(2) <= key && (place.word(4) != 0 || key < place.word(3))
}

/// Whether the key lies in the page's fences, from the low one on and below the high one.
pub fn covers<const N: usize>(page: &PageBuf<N>, key: u64) -> bool
    requires { IsSize N }
    ensures yes { result ≡ true → Covers (node_of (fixed N) page.now) key }
    ensures no { result ≡ false → ¬ (Covers (node_of (fixed N) page.now) key) }
{
    let mut place = in_buffer(page);
    covers_at(&mut place, N, key)
}

/// The value at the key, of any page whose keys rise, from at most 8 words loaded of a page of 64, and 11 of one of 512.
/// Of other pages it is the value of a pair with the key, or none.
pub fn find_at<P: Place>(place: &mut P, words: usize, key: u64) -> Option<u64>
    requires ready { P.ready place.old }
    requires sized { IsSize words }
    requires size { P.size place.old ≡ words }
    ensures ready { P.ready place.new }
    ensures size { P.size place.new ≡ words }
    ensures told { Tells words P.loads place.old (looks_for words + 3) place.new (λ page. (low high : ℕ) → Rises low high (pairs_of (fixed words) page)
        → result ≡ lookup_at (pairs_of (fixed words) page) key) }
{
    let count = count_at(place, words);
    let at = lower_bound_at(place, words, count, key);
    if at < count && place.word(8 + 2 * at) == key {
        return Some(place.word(9 + 2 * at));
    }
    None
}

/// The value at the key, of any page whose keys rise. Of other pages it is the value of a pair with the key, or none.
pub fn find<const N: usize>(page: &PageBuf<N>, key: u64) -> Option<u64>
    requires { IsSize N }
    ensures { (low high : ℕ) → Rises low high (pairs_of (fixed N) page.now) → result ≡ lookup_at (pairs_of (fixed N) page.now) key }
{
    let mut place = in_buffer(page);
    find_at(&mut place, N, key)
}

/// Puts a value at the key of any page whose keys rise, and gives the old value. `Full` comes exactly where the leaf has no
/// place for a pair more and not the key; the page is then unchanged.
pub fn put<const N: usize>(page: &mut PageBuf<N>, key: u64, value: u64) -> Result<Option<u64>, Full>
    requires { IsSize N }
    ensures was { (low high : ℕ) → Rises low high (pairs_of (fixed N) page.old) → IfOk result (λ was. was ≡ lookup_at (pairs_of (fixed N) page.old) key) }
    ensures node { (low high : ℕ) → Rises low high (pairs_of (fixed N) page.old) → OnOk result (AddsPair (fixed N) page.old page.new key value) }
    ensures room { IfOk result (λ _. ¬ (IsFullFor (fixed N) page.old key)) }
    ensures refused { OnErr result (IsRefused (fixed N) page.old page.new key) }
    ensures full { IsLeaf (fixed N) page.old → MatchResult result (λ _. ¬ (IsFullFor (fixed N) page.old key)) (λ _. IsFullFor (fixed N) page.old key) }
    ensures leaf { IsLeaf (fixed N) page.old → Covers (node_of (fixed N) page.old) key → IfOk result (PutsInLeaf (fixed N) page.old page.new key value) }
{
    let (was, edit) = put_edit(page, key, value)?;
    edit.make(page);
    Ok(was)
}

/// Takes the pair of the key out of any page whose keys rise, and gives its value. Where none is found the page is unchanged.
pub fn del<const N: usize>(page: &mut PageBuf<N>, key: u64) -> Option<u64>
    requires { IsSize N }
    ensures was { (low high : ℕ) → Rises low high (pairs_of (fixed N) page.old) → result ≡ lookup_at (pairs_of (fixed N) page.old) key }
    ensures node { (low high : ℕ) → Rises low high (pairs_of (fixed N) page.old) → TakesPair (fixed N) page.old page.new key }
    ensures none { IfNone result (page.new ≡ page.old) }
    ensures leaf { IsLeaf (fixed N) page.old → IsLeafWith (fixed N) page.old page.new (del_pair (pairs_of (fixed N) page.old) key) }
{
    let (was, edit) = del_edit(page, key)?;
    edit.make(page);
    Some(was)
}
