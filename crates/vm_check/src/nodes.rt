//! What the checker asks of a kind of node: its keys, and what the words of a page say.

ghost use Rattle.std.specs.Prelude.{refl};
ghost use Rattle.vm_tree_model.specs.Fixed.{fixed};
ghost use Rattle.vm_tree_model.proofs.FixedLaws.{sized_layout};

use vm_image::{is_zero_from, magic_for};
use vm_map::call::Pair;
use vm_node::pairs::{count_of, key_at, most_pairs, value_at};
use vm_page::PageBuf;

/// A kind of node on pages of `N` words. It is no value: a type stands for it. The calls work on any words.
pub trait Nodes<const N: usize> {
    type Key: Drop;

    /// A pair of a leaf, as the rows have it.
    type Row: Drop;

    ghost use Rattle.std.specs.Prelude.{◌≡◌, ◌==◌, ◌<◌, if◌then◌else◌, length, nat_lt, slice_index_or, ℕ};
    ghost use Rattle.vm_page.specs.Sizes.{IsSize};
    ghost use Rattle.vm_tree_model.specs.Layout.{IsLayout, Layout};
    ghost use Rattle.vm_tree_model.specs.Page.{pairs_of};
    ghost use Rattle.vm_check.specs.Places.{rank_or};

    // How words mean a node.
    ghost layout: { Layout };

    ghost is_layout: { IsSize N → IsLayout layout };

    ghost words_are: { layout.words ≡ N };

    // Which number stands for a key.
    ghost rank: { Self.Key → ℕ };

    // The numbers of a pair.
    ghost pair: { Self.Row → ℕ × ℕ };

    /// The first word of a file of such nodes.
    fn magic() -> u64
        requires { IsSize N }
        ensures { result ≡ layout.magic };

    /// The lowest key.
    fn lowest() -> Self::Key
        ensures { rank result ≡ 0 };

    /// The key once more.
    fn copied(key: &Self::Key) -> Self::Key
        ensures { rank result ≡ rank key.now };

    /// A key is below the end of all keys. Nothing is done.
    fn in_range(key: &Self::Key)
        ensures { rank key.now < layout.key_end };

    /// Whether one key stands before the other.
    fn is_before(key: &Self::Key, other: &Self::Key) -> bool
        ensures { result ≡ nat_lt (rank key.now) (rank other.now) };

    /// A pair.
    fn row(key: Self::Key, value: u64) -> Self::Row
        ensures { pair result ≡ (rank key, value) };

    /// Whether the page has a leaf's tag at level 0, and an inner node's above.
    fn has_tag(page: &PageBuf<N>, level: u64) -> bool
        requires { IsSize N }
        ensures { result ≡ ((layout.node_of page.now).tag == (if level == 0 then 2 else 3)) };

    /// Whether the page shows just these fences. No high fence stands for the end of all keys.
    fn has_fences(page: &PageBuf<N>, low: &Self::Key, high: &Option<Self::Key>) -> bool
        requires { IsSize N }
        ensures { result ≡ layout.has_fences (rank low.now) (rank_or rank layout.key_end high.now) page.now };

    /// Whether the page has its form, at this level.
    fn has_form(page: &PageBuf<N>, level: u64) -> bool
        requires { IsSize N }
        ensures { result ≡ layout.has_form level page.now };

    /// How many pairs the page has.
    fn count(page: &PageBuf<N>) -> usize
        requires { IsSize N }
        ensures { result ≡ length (pairs_of layout page.now) };

    /// The key of the pair at place `i`, which is below the count.
    fn key_at(page: &PageBuf<N>, i: usize) -> Self::Key
        requires sized { IsSize N }
        requires there { i < length (pairs_of layout page.now) }
        ensures { rank result ≡ (slice_index_or (pairs_of layout page.now) i (0, 0)).0 };

    /// The value of the pair at place `i`, which is below the count.
    fn value_at(page: &PageBuf<N>, i: usize) -> u64
        requires sized { IsSize N }
        requires there { i < length (pairs_of layout page.now) }
        ensures { result ≡ (slice_index_or (pairs_of layout page.now) i (0, 0)).1 };
}

/// Nodes whose keys are words.
#[derive(Drop)]
pub struct WordNodes;

impl<const N: usize> Nodes<N> for WordNodes {
    type Key = u64;

    type Row = Pair;

    ghost layout = { fixed N };

    ghost is_layout = { sized_layout N };

    ghost words_are = { refl };

    ghost rank = { λ key. key };

    ghost pair = { λ row. row };

    fn magic() -> u64 {
        magic_for(N)
    }

    fn lowest() -> u64 {
        0
    }

    fn copied(key: &u64) -> u64 {
        *key
    }

    fn in_range(key: &u64) {
        let _key = *key;
    }

    fn is_before(key: &u64, other: &u64) -> bool {
        key < other
    }

    fn row(key: u64, value: u64) -> Pair {
        Pair { key, value }
    }

    fn has_tag(page: &PageBuf<N>, level: u64) -> bool {
        page.get(0) == if level == 0 { 2 } else { 3 }
    }

    fn has_fences(page: &PageBuf<N>, low: &u64, high: &Option<u64>) -> bool {
        if page.get(2) != *low {
            return false;
        }
        match *high {
            Some(high) => page.get(3) == high && page.get(4) == 0,
            None => page.get(3) == 0 && page.get(4) == 1,
        }
    }

    fn has_form(page: &PageBuf<N>, level: u64) -> bool {
        let count = page.get(1);
        if level > 0 && count == 0 {
            return false;
        }
        if count > most_pairs(N) as u64 {
            return false;
        }
        if page.get(5) != level {
            return false;
        }
        if page.get(6) != 0 || page.get(7) != 0 {
            return false;
        }
        is_zero_from(page, 8 + 2 * count as usize)
    }

    fn count(page: &PageBuf<N>) -> usize {
        count_of(page)
    }

    fn key_at(page: &PageBuf<N>, i: usize) -> u64 {
        key_at(page, i)
    }

    fn value_at(page: &PageBuf<N>, i: usize) -> u64 {
        value_at(page, i)
    }
}
