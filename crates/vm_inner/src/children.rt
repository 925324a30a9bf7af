//! The calls on an inner node's children: look-up, a further one, and the split of a full node.

ghost use Rattle.std.specs.Prelude.{◌≡◌, ◌≢◌, ◌<◌, ◌≤◌, ◌+◌, ℕ, length, IfOk, None, OnOk, OnErr, MatchOption, MatchResult};
ghost use Rattle.vm_map.specs.Map.{Rises};
ghost use Rattle.vm_page.specs.Sizes.{IsSize};
ghost use Rattle.vm_tree_model.specs.Fixed.{fixed, capacity};
ghost use Rattle.vm_tree_model.specs.Node.{Covers};
ghost use Rattle.vm_tree_model.specs.Page.{pairs_of, node_of, IsInner};
ghost use Rattle.vm_tree_model.specs.Edits.{IsFullFor, AddsPair, IsRefused, IsSplit};
ghost use Rattle.vm_node.specs.Edited.{edited};
ghost use Rattle.vm_node.specs.Loads.{Tells};
ghost use Rattle.vm_node.specs.Sizes.{looks_for};
ghost use Rattle.vm_inner.specs.Found.{FindsChild, FindsChildIn, FindsNoChild};

use vm_node::pairs::{count_at, upper_bound_at};
use vm_node::{Edit, Full, Place, in_buffer, put, put_edit, split};
use vm_page::PageBuf;

/// A child of an inner node, with keys of the type `T`: its page, and its low fence; its high fence is the next key, or the node's where there is none.
#[derive(Clone, Copy, Debug, Drop, PartialEq, Eq)]
pub struct Fenced<T> {
    pub page: u64,
    pub low: T,
    pub next: Option<T>,
}

/// The child whose range has the key, of any page whose keys rise: that of the last pair whose key is not above. Of other pages it is that of a
/// pair whose key is not above, or none where the first pair's key is. From at most 7 words loaded of a page of 64,
/// and 10 of one of 512, among them the keys on both sides.
pub fn child_at<P: Place>(place: &mut P, words: usize, key: u64) -> Option<Fenced<u64>>
    requires ready { P.ready place.old }
    requires sized { IsSize words }
    requires size { P.size place.old ≡ words }
    ensures ready { P.ready place.new }
    ensures size { P.size place.new ≡ words }
    ensures told { Tells words P.loads place.old (looks_for words + 2) place.new (λ page.
        MatchOption result (FindsNoChild (fixed words) page key) (λ child. FindsChildIn (fixed words) page key child.page child.low child.next)) }
    ensures sides { MatchOption result (Unit {0}) (λ child. (child.low ≤ key) × MatchOption child.next (Unit {0}) (λ above. key < above)) }
{
    let count = count_at(place, words);
    let above = upper_bound_at(place, words, count, key);
    if above.at == 0 {
        return None;
    }
    Some(Fenced {
        page: place.word(7 + 2 * above.at),
        low: above.low,
        next: above.next,
    })
}

/// The page of that child, of a page in a buffer. An inner node that covers the key has such a child.
pub fn child<const N: usize>(page: &PageBuf<N>, key: u64) -> Option<u64>
    requires { IsSize N }
    ensures child { MatchOption result (FindsNoChild (fixed N) page.now key) (FindsChild (fixed N) page.now key) }
    ensures there { IsInner (fixed N) page.now → Covers (node_of (fixed N) page.now) key → result ≢ None }
{
    let mut place = in_buffer(page);
    match child_at(&mut place, N, key) {
        Some(found) => Some(found.page),
        None => None,
    }
}

/// Puts a child's page at its lowest key, over the one that is there, in any page whose keys rise. `Full` comes exactly where the node has no place
/// for a pair more and not the key; the page is then unchanged.
pub fn add<const N: usize>(page: &mut PageBuf<N>, key: u64, child: u64) -> Result<(), Full>
    requires { IsSize N }
    ensures node { (low high : ℕ) → Rises low high (pairs_of (fixed N) page.old) → OnOk result (AddsPair (fixed N) page.old page.new key child) }
    ensures refused { OnErr result (IsRefused (fixed N) page.old page.new key) }
    ensures full { IsInner (fixed N) page.old → MatchResult result (λ _. ¬ (IsFullFor (fixed N) page.old key)) (λ _. IsFullFor (fixed N) page.old key) }
    ensures inner { IsInner (fixed N) page.old → Covers (node_of (fixed N) page.old) key → IsInner (fixed N) page.new }
{
    put(page, key, child)?;
    Ok(())
}

/// What `add` changes, of any page whose keys rise; nothing is written. `Full` comes exactly where the node has no place for a pair more
/// and not the key.
pub fn add_edit<const N: usize>(page: &PageBuf<N>, key: u64, child: u64) -> Result<Edit, Full>
    requires { IsSize N }
    ensures node { (low high : ℕ) → Rises low high (pairs_of (fixed N) page.now)
        → IfOk result (λ edit. AddsPair (fixed N) page.now (edited N page.now edit) key child) }
    ensures refused { OnErr result (IsRefused (fixed N) page.now page.now key) }
    ensures full { IsInner (fixed N) page.now → MatchResult result (λ _. ¬ (IsFullFor (fixed N) page.now key)) (λ _. IsFullFor (fixed N) page.now key) }
    ensures inner { IsInner (fixed N) page.now → Covers (node_of (fixed N) page.now) key → IfOk result (λ edit. IsInner (fixed N) (edited N page.now edit)) }
{
    let (_, edit) = put_edit(page, key, child)?;
    Ok(edit)
}

/// Splits a full inner node: the first half of its pairs stays, 14 of 28 or 126 of 252, and the other half makes the right sibling. What
/// `right` held before is lost. Gives the separator, which is the first key of the sibling and its low fence.
pub fn split_inner<const N: usize>(page: &mut PageBuf<N>, right: &mut PageBuf<N>) -> u64
    requires sized { IsSize N }
    requires full { length (pairs_of (fixed N) page.old) ≡ capacity N }
    ensures halves { IsSplit (fixed N) page.old page.new right.new result }
    ensures left_inner { IsInner (fixed N) page.old → IsInner (fixed N) page.new }
    ensures right_inner { IsInner (fixed N) page.old → IsInner (fixed N) right.new }
{
    split(page, right)
}
