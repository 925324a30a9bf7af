//! The split of a node that has no room for a further pair, and a new root over two nodes.

ghost use Rattle.std.specs.Prelude.{[], ◌≡◌, ◌*◌, ◌<◌, ◌≤◌, drop, length, slice_index_or, Some, take, ℕ};
ghost use Rattle.vm_map.specs.Map.{Rises};
ghost use Rattle.vm_tree_model.specs.Layout.{IsClean, IsFullNode, pairs_size};
ghost use Rattle.vm_tree_model.specs.Page.{IsInner, IsLeaf, node_of, pairs_of};
ghost use Rattle.vm_tree_model.specs.Edits.{IsNewRoot, IsSplit};
ghost use Rattle.vm_bytes_form.specs.{Bytes.bytes, Forms.IsFitting, Forms.form_of, Forms.node_in, Strings.rank};
ghost use Rattle.vm_bytes_form.specs.Cuts.{pair_size as size_of_pair};
ghost use Rattle.vm_bytes_form.specs.NodeEdits.{kept_at_split, lower_half, root_over, upper_half};
ghost use Rattle.vm_bytes_node.specs.Limits.{MOST_SLOTS};

use crate::draft::{Draft, pair_of};
use vm_bytes_node::{count_at, high_at, in_range, low_at, pair_size};
use vm_map::key::Key;
use vm_node::in_buffer;
use vm_page::PageBuf;

/// The two halves of a node that has no room for a further pair: the least number of pairs that have at least half of the sizes' sum stays, and the others make
/// the right sibling. What `left` and `right` held before is lost. Gives the separator, which is the first key of the sibling and the fence between the two.
pub fn split(page: &PageBuf<512>, left: &mut PageBuf<512>, right: &mut PageBuf<512>) -> Key
    ensures separator { IsClean bytes page.now → IsFullNode bytes (node_of bytes page.now)
        → result ≡ (slice_index_or (node_in page.now).entries (kept_at_split (node_in page.now).entries) ([], 0)).0 }
    ensures form { IsClean bytes page.now → IsFullNode bytes (node_of bytes page.now) → (low high : ℕ) → Rises low high (pairs_of bytes page.now)
        → (left.new ≡ form_of 512 (lower_half (node_in page.now) result)) × (right.new ≡ form_of 512 (upper_half (node_in page.now) result)) }
    ensures halves { IsClean bytes page.now → IsFullNode bytes (node_of bytes page.now) → (low high : ℕ) → Rises low high (pairs_of bytes page.now)
        → IsSplit bytes page.now left.new right.new (rank result) }
    ensures leaves { IsLeaf bytes page.now → IsFullNode bytes (node_of bytes page.now) → IsLeaf bytes left.new × IsLeaf bytes right.new }
    ensures inners { IsInner bytes page.now → IsFullNode bytes (node_of bytes page.now) → IsInner bytes left.new × IsInner bytes right.new }
{
    let count = count_at(&mut in_buffer(page));
    let kept = kept_of(page, count);
    let separator = first_from(page, kept, count);
    *left = lower_of(page, kept, &separator);
    *right = upper_of(page, kept, count, &separator);
    separator
}

/// Makes the page a root over two nodes: `left` from the lowest key on, and `right` from the separator on. What the page held before is lost.
pub fn new_root(page: &mut PageBuf<512>, level: u64, left: u64, separator: &Key, right: u64)
    ensures form { page.new ≡ form_of 512 (root_over level left separator.now right) }
    ensures root { IsNewRoot bytes page.new level left (rank separator.now) right }
    ensures inner { 1 ≤ level → 0 < rank separator.now → IsInner bytes page.new }
{
    in_range(separator);
    let lowest = Key::new();
    let mut draft = Draft::new(5, level, &lowest);
    draft.add(&lowest, left);
    draft.add(separator, right);
    *page = draft.into_page();
}

// How many of so many pairs stay at a split: the least number that have at least half of the sizes' sum.
fn kept_of(page: &PageBuf<512>, count: usize) -> usize
    requires { count ≤ MOST_SLOTS }
    ensures inside { result ≤ count }
    ensures kept { count ≡ length (node_in page.now).entries → result ≡ kept_at_split (node_in page.now).entries }
{
    let whole = sizes_of(page, count);
    let mut got = 0;
    for i in 0..count {
        if whole <= 2 * got {
            return i;
        }
        got += pair_size(&pair_of(page, i).0);
    }
    count
}

/// What the first pairs take of a node's room.
pub(crate) fn sizes_of(page: &PageBuf<512>, count: usize) -> usize
    requires { count ≤ MOST_SLOTS }
    ensures sizes { count ≤ length (node_in page.now).entries → result ≡ pairs_size size_of_pair (take count (pairs_of bytes page.now)) }
    ensures few { result ≤ 10 * count }
{
    let mut whole = 0;
    for i in 0..count {
        whole += pair_size(&pair_of(page, i).0);
    }
    whole
}

// The key of the pair at a place, and the empty one where so many pairs are before it.
fn first_from(page: &PageBuf<512>, at: usize, count: usize) -> Key
    requires { count ≤ MOST_SLOTS }
    ensures { at < count → count ≡ length (node_in page.now).entries → result ≡ (slice_index_or (node_in page.now).entries at ([], 0)).0 }
{
    if at < count {
        pair_of(page, at).0
    } else {
        Key::new()
    }
}

// The page's first pairs, below the separator.
fn lower_of(page: &PageBuf<512>, kept: usize, separator: &Key) -> PageBuf<512>
    requires { kept ≤ MOST_SLOTS }
    ensures { kept ≤ length (node_in page.now).entries → 1 ≤ length separator.now
        → IsFitting 512 (record (node_in page.now) { high = Some separator.now; entries = take kept (node_in page.now).entries })
        → result ≡ form_of 512 (record (node_in page.now) { high = Some separator.now; entries = take kept (node_in page.now).entries }) }
{
    let low = low_at(&mut in_buffer(page));
    let mut draft = Draft::new(page.get(0), page.get(2), &low);
    draft.close(separator);
    draft.copy(page, 0, kept);
    draft.into_page()
}

// The page's other pairs, from the separator on.
fn upper_of(page: &PageBuf<512>, kept: usize, count: usize, separator: &Key) -> PageBuf<512>
    requires { count ≤ MOST_SLOTS }
    ensures { count ≡ length (node_in page.now).entries → kept ≤ count → IsClean bytes page.now
        → IsFitting 512 (record (node_in page.now) { low = separator.now; entries = drop kept (node_in page.now).entries })
        → result ≡ form_of 512 (record (node_in page.now) { low = separator.now; entries = drop kept (node_in page.now).entries }) }
{
    let mut draft = Draft::new(page.get(0), page.get(2), separator);
    if let Some(high) = high_at(&mut in_buffer(page)) {
        draft.close(&high);
    }
    draft.copy(page, kept, count);
    draft.into_page()
}
