//! Edits of one pair: each makes the words of its result in a page of its own.

ghost use Rattle.std.specs.Prelude.{[], ◌≡◌, ◌∷◌, ◌+◌, ◌<◌, ◌≤◌, length, IfOk, IfSome, MatchResult, OnErr, ℕ};
ghost use Rattle.std.specs.Option.{option_map};
ghost use Rattle.vm_map.specs.Map.{del_pair, lookup_at, Rises};
ghost use Rattle.vm_tree_model.specs.{Layout.IsClean, Node.Covers};
ghost use Rattle.vm_tree_model.specs.Page.{IsInner, IsLeaf, node_of, pairs_of};
ghost use Rattle.vm_tree_model.specs.Edits.{AddsPair, IsFullFor, IsLeafWith, PutsInLeaf, TakesPair};
ghost use Rattle.vm_bytes_form.specs.{Bytes.bytes, Forms.IsFitting, Forms.form_of, Forms.node_in, Strings.IsString, Strings.rank};
ghost use Rattle.vm_bytes_form.specs.NodeEdits.{del_in, put_in};
ghost use Rattle.vm_bytes_edit.specs.Drafts.{spliced};
ghost use Rattle.vm_bytes_node.specs.Room.{spare_words};
ghost use Rattle.vm_bytes_node.specs.Limits.{MOST_SLOTS};
ghost use Rattle.vm_bytes_edit.specs.Edited.{IsPlaced, LacksRoomFor, TakesPairOf};

use crate::draft::begun;
use vm_bytes_node::{count_at, in_range, pair_size, same_key, spare_at, upper_bound_at, value_at};
use vm_map::key::Key;
use vm_node::{Full, in_buffer};
use vm_page::PageBuf;

/// The page that a put of this value at the key makes, of any page whose keys rise, and the old value. `Full` comes where less room is left than a
/// pair of the key takes, and the key is not found; of a leaf exactly where it has no room for a pair of the key, and not the key.
pub fn put_edit(
    page: &PageBuf<512>,
    key: &Key,
    value: u64,
) -> Result<(Option<u64>, PageBuf<512>), Full>
    ensures was { (low high : ℕ) → Rises low high (pairs_of bytes page.now) → IfOk result (λ r. r.0 ≡ lookup_at (pairs_of bytes page.now) (rank key.now)) }
    ensures form { IsClean bytes page.now → (low high : ℕ) → Rises low high (pairs_of bytes page.now)
        → IfOk result (λ r. r.1 ≡ form_of 512 (put_in (node_in page.now) key.now value)) }
    ensures node { IsClean bytes page.now → (low high : ℕ) → Rises low high (pairs_of bytes page.now)
        → IfOk result (λ r. AddsPair bytes page.now r.1 (rank key.now) value) }
    ensures room { IfOk result (λ _. TakesPairOf page.now (rank key.now)) }
    ensures refused { OnErr result (LacksRoomFor page.now (rank key.now)) }
    ensures full { IsLeaf bytes page.now → MatchResult result (λ _. ¬ (IsFullFor bytes page.now (rank key.now))) (λ _. IsFullFor bytes page.now (rank key.now)) }
    ensures leaf { IsLeaf bytes page.now → Covers (node_of bytes page.now) (rank key.now)
        → IfOk result (λ r. PutsInLeaf bytes page.now r.1 (rank key.now) value r.0) }
    ensures inner { IsInner bytes page.now → Covers (node_of bytes page.now) (rank key.now) → IfOk result (λ r. IsInner bytes r.1) }
{
    let (at, old) = key_place(page, key);
    match old {
        Some(_) => Ok((old, with_pair(page, at - 1, at, key, value))),
        None if spare_of(page) < pair_size(key) => Err(Full),
        None => Ok((None, with_pair(page, at, at, key, value))),
    }
}

/// The page without the key, of any page whose keys rise, and the value that was there; none where the key is not found.
pub fn del_edit(page: &PageBuf<512>, key: &Key) -> Option<(u64, PageBuf<512>)>
    ensures was { (low high : ℕ) → Rises low high (pairs_of bytes page.now)
        → option_map (λ r. r.0) result ≡ lookup_at (pairs_of bytes page.now) (rank key.now) }
    ensures form { IsClean bytes page.now → (low high : ℕ) → Rises low high (pairs_of bytes page.now)
        → IfSome result (λ r. r.1 ≡ form_of 512 (del_in (node_in page.now) key.now)) }
    ensures node { IsClean bytes page.now → (low high : ℕ) → Rises low high (pairs_of bytes page.now)
        → IfSome result (λ r. TakesPair bytes page.now r.1 (rank key.now)) }
    ensures leaf { IsLeaf bytes page.now → IfSome result
        (λ r. IsLeafWith bytes page.now r.1 (del_pair (pairs_of bytes page.now) (rank key.now))) }
{
    let (at, old) = key_place(page, key);
    Some((old?, without_pair(page, at - 1)))
}

/// How much of its room the page has left.
pub fn spare_of(page: &PageBuf<512>) -> usize
    ensures { result ≡ spare_words page.now }
{
    spare_at(&mut in_buffer(page))
}

// Where the keys of a page begin to be above this one, and the value of the pair before that place, if it has the key.
fn key_place(page: &PageBuf<512>, key: &Key) -> (usize, Option<u64>)
    ensures placed { IsPlaced page.now (rank key.now) result.0 result.1 }
    ensures inside { result.0 ≤ MOST_SLOTS }
    ensures string { IsString 64 key.now }
{
    in_range(key);
    let mut place = in_buffer(page);
    let count = count_at(&mut place);
    let bound = upper_bound_at(&mut place, count, key);
    if bound.at == 0 || !same_key(&bound.low, key) {
        return (bound.at, None);
    }
    let value = value_at(&mut place, bound.at - 1);
    (bound.at, Some(value))
}

// The page with a pair behind the first ones, and those from another place on behind that.
fn with_pair(
    page: &PageBuf<512>,
    before: usize,
    behind: usize,
    key: &Key,
    value: u64,
) -> PageBuf<512>
    requires inside { behind ≤ MOST_SLOTS }
    requires order { before ≤ behind }
    ensures { IsClean bytes page.now → behind ≤ length (node_in page.now).entries
        → IsFitting 512 (spliced (node_in page.now) before behind ((key.now, value) ∷ []))
        → result ≡ form_of 512 (spliced (node_in page.now) before behind ((key.now, value) ∷ [])) }
{
    let mut draft = begun(page);
    draft.copy(page, 0, before);
    draft.add(key, value);
    draft.copy(page, behind, count_at(&mut in_buffer(page)));
    draft.into_page()
}

// The page without the pair at a place.
fn without_pair(page: &PageBuf<512>, at: usize) -> PageBuf<512>
    requires inside { at < MOST_SLOTS }
    ensures { IsClean bytes page.now → at < length (node_in page.now).entries → IsFitting 512 (spliced (node_in page.now) at (at + 1) [])
        → result ≡ form_of 512 (spliced (node_in page.now) at (at + 1) []) }
{
    let mut draft = begun(page);
    draft.copy(page, 0, at);
    draft.copy(page, at + 1, count_at(&mut in_buffer(page)));
    draft.into_page()
}
