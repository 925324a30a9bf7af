//! Edits of a leaf's pairs, found in the page as it is: what each word becomes is told before any is written.

ghost use Rattle.std.specs.Prelude.{◌≡◌, ℕ, ◌<◌, IfOk, IfSome, OnErr, MatchResult};
ghost use Rattle.std.specs.Option.{option_map};
ghost use Rattle.vm_map.specs.Map.{Rises, lookup_at, del_pair};
ghost use Rattle.vm_page.specs.Sizes.{IsSize};
ghost use Rattle.vm_tree_model.specs.Fixed.{fixed};
ghost use Rattle.vm_tree_model.specs.Node.{Covers};
ghost use Rattle.vm_tree_model.specs.Page.{pairs_of, node_of, IsLeaf};
ghost use Rattle.vm_tree_model.specs.Edits.{IsFullFor, AddsPair, IsRefused, PutsInLeaf, IsLeafWith, TakesPair};
ghost use Rattle.vm_node.specs.Edited.{edited, edited_word, LeavesElse};

use crate::full::Full;
use crate::pairs::{count_of, index_of, key_at, lower_bound, most_pairs, value_at};
use vm_page::PageBuf;

/// A change of one pair of a leaf, found and not made yet. A count above the capacity is read as the capacity.
#[derive(Clone, Copy)]
pub enum Edit {
    /// The pair at this place gets this value.
    Over {
        at: usize,
        value: u64,
    },
    /// This pair goes in there, and those of the first `count` from there on move up by one.
    Into {
        at: usize,
        count: usize,
        key: u64,
        value: u64,
    },
    /// The pair there goes out, and those of the first `count` behind it move down by one.
    Out {
        at: usize,
        count: usize,
    },
}

impl Edit {
    /// Word `i` of the page as the edit leaves it, for `i` from 0 on and below the number of words.
    pub fn word<const N: usize>(&self, page: &PageBuf<N>, i: usize) -> u64
        requires sized { IsSize N }
        requires place { i < N }
        ensures { result ≡ edited_word N page.now self.now i }
    {
        match *self {
            Edit::Over { at, value } => word_over(page, at, value, i),
            Edit::Into {
                at,
                count,
                key,
                value,
            } => word_into(page, at, count, key, value, i),
            Edit::Out { at, count } => word_out(page, at, count, i),
        }
    }

    /// Where words of a page of so many may be others afterwards, beside the count: from the first of these places on, and before the second.
    pub fn changes(&self, words: usize) -> (usize, usize)
        requires { IsSize words }
        ensures { LeavesElse words self.now result.0 result.1 }
    {
        let most = most_pairs(words);
        match *self {
            Edit::Over { at, .. } => {
                let first = 9 + 2 * at.min(most);
                (first, first + 1)
            }
            Edit::Into { at, count, .. } => (
                8 + 2 * at.min(most),
                10 + 2 * count.max(at).min(most),
            ),
            Edit::Out { at, count } => (8 + 2 * at.min(most), 8 + 2 * count.min(most)),
        }
    }

    /// Makes it.
    pub(crate) fn make<const N: usize>(&self, page: &mut PageBuf<N>)
        requires { IsSize N }
        ensures { page.new ≡ edited N page.old self.now }
    {
        match *self {
            Edit::Over { at, value } => make_over(page, at, value),
            Edit::Into {
                at,
                count,
                key,
                value,
            } => make_into(page, at, count, key, value),
            Edit::Out { at, count } => make_out(page, at, count),
        }
    }
}

/// What a put of this value at the key changes, of any page whose keys rise, and the old value. `Full` comes exactly where
/// the leaf has no place for a pair more and not the key.
pub fn put_edit<const N: usize>(
    page: &PageBuf<N>,
    key: u64,
    value: u64,
) -> Result<(Option<u64>, Edit), Full>
    requires { IsSize N }
    ensures was { (low high : ℕ) → Rises low high (pairs_of (fixed N) page.now) → IfOk result (λ r. r.0 ≡ lookup_at (pairs_of (fixed N) page.now) key) }
    ensures node { (low high : ℕ) → Rises low high (pairs_of (fixed N) page.now)
        → IfOk result (λ r. AddsPair (fixed N) page.now (edited N page.now r.1) key value) }
    ensures room { IfOk result (λ _. ¬ (IsFullFor (fixed N) page.now key)) }
    ensures refused { OnErr result (IsRefused (fixed N) page.now page.now key) }
    ensures full { IsLeaf (fixed N) page.now → MatchResult result (λ _. ¬ (IsFullFor (fixed N) page.now key)) (λ _. IsFullFor (fixed N) page.now key) }
    ensures leaf { IsLeaf (fixed N) page.now → Covers (node_of (fixed N) page.now) key
        → IfOk result (λ r. PutsInLeaf (fixed N) page.now (edited N page.now r.1) key value r.0) }
{
    let count = count_of(page);
    let at = lower_bound(page, key);
    if at < count && key_at(page, at) == key {
        return Ok((Some(value_at(page, at)), Edit::Over { at, value }));
    }
    if count == most_pairs(N) {
        return Err(Full);
    }
    Ok((
        None,
        Edit::Into {
            at,
            count,
            key,
            value,
        },
    ))
}

/// What a del of the key changes, of any page whose keys rise, and the value; none where the key is not found.
pub fn del_edit<const N: usize>(page: &PageBuf<N>, key: u64) -> Option<(u64, Edit)>
    requires { IsSize N }
    ensures was { (low high : ℕ) → Rises low high (pairs_of (fixed N) page.now) → option_map (λ r. r.0) result ≡ lookup_at (pairs_of (fixed N) page.now) key }
    ensures node { (low high : ℕ) → Rises low high (pairs_of (fixed N) page.now)
        → IfSome result (λ r. TakesPair (fixed N) page.now (edited N page.now r.1) key) }
    ensures leaf { IsLeaf (fixed N) page.now → IfSome result
        (λ r. IsLeafWith (fixed N) page.now (edited N page.now r.1) (del_pair (pairs_of (fixed N) page.now) key)) }
{
    let Some(at) = index_of(page, key) else {
        return None;
    };
    let count = count_of(page);
    Some((value_at(page, at), Edit::Out { at, count }))
}

// The value at the place is written over.
fn word_over<const N: usize>(page: &PageBuf<N>, at: usize, value: u64, i: usize) -> u64
    requires sized { IsSize N }
    requires place { i < N }
    ensures { result ≡ edited_word N page.now (Edit.Over at value) i }
{
    if i == 9 + 2 * at.min(most_pairs(N)) {
        value
    } else {
        page.get(i)
    }
}

// A pair goes in at the place, and those of the first `count` from there on move up by one.
fn word_into<const N: usize>(
    page: &PageBuf<N>,
    at: usize,
    count: usize,
    key: u64,
    value: u64,
    i: usize,
) -> u64
    requires sized { IsSize N }
    requires place { i < N }
    ensures { result ≡ edited_word N page.now (Edit.Into at count key value) i }
{
    let count = count.min(most_pairs(N));
    let first = 8 + 2 * at.min(most_pairs(N));
    if i == 1 {
        count as u64 + 1
    } else if i < first {
        page.get(i)
    } else if i == first {
        key
    } else if i == first + 1 {
        value
    } else if i < 10 + 2 * count {
        page.get(i - 2)
    } else {
        page.get(i)
    }
}

// The pair at the place goes out, and those of the first `count` behind it move down by one.
fn word_out<const N: usize>(page: &PageBuf<N>, at: usize, count: usize, i: usize) -> u64
    requires sized { IsSize N }
    requires place { i < N }
    ensures { result ≡ edited_word N page.now (Edit.Out at count) i }
{
    let count = count.min(most_pairs(N));
    if i == 1 {
        count.saturating_sub(1) as u64
    } else if i < 8 + 2 * at.min(most_pairs(N)) {
        page.get(i)
    } else if i < 6 + 2 * count {
        page.get(i + 2)
    } else if i < 8 + 2 * count {
        0
    } else {
        page.get(i)
    }
}

// Writes the value over.
fn make_over<const N: usize>(page: &mut PageBuf<N>, at: usize, value: u64)
    requires { IsSize N }
    ensures { page.new ≡ edited N page.old (Edit.Over at value) }
{
    for i in 0..N {
        let word = word_over(page, at, value, i);
        page.set(i, word);
    }
}

// Puts the pair in; the words that move up are written from the last one down.
fn make_into<const N: usize>(page: &mut PageBuf<N>, at: usize, count: usize, key: u64, value: u64)
    requires { IsSize N }
    ensures { page.new ≡ edited N page.old (Edit.Into at count key value) }
{
    for done in 0..N {
        let i = N - 1 - done;
        let word = word_into(page, at, count, key, value, i);
        page.set(i, word);
    }
}

// Takes the pair out; the words that move down are written from the first one up.
fn make_out<const N: usize>(page: &mut PageBuf<N>, at: usize, count: usize)
    requires { IsSize N }
    ensures { page.new ≡ edited N page.old (Edit.Out at count) }
{
    for i in 0..N {
        let word = word_out(page, at, count, i);
        page.set(i, word);
    }
}
