//! Nodes whose keys are words, on pages of 64 and of 512 words: one body for both.
ghost use Rattle.std.specs.Prelude.{◌+◌, ◌<◌, refl};
ghost use Rattle.vm_map.specs.Keys.{KEY_END};
ghost use Rattle.vm_page.specs.Sizes.{IsSize};
ghost use Rattle.vm_tree_model.specs.Fixed.{capacity, fixed};
ghost use Rattle.vm_tree_model.proofs.FixedLaws.{sized_layout};
ghost use Rattle.vm_node.specs.{Edited.edited, Sizes.looks_for};
ghost use Rattle.vm_kind.specs.WordRoom.{spare_in, spare_is};

use crate::edits::Edits;
use crate::kind::Kind;
use crate::merges::Merges;
use crate::pages::Pages;
use crate::ranges::Ranges;
use crate::windows::Windows;
use std::marker::PhantomData;
use vm_block::Block;
use vm_guard::OptGuard;
use vm_guard::rule::{Pass, Words};
use vm_inner::{ChildPair, Fenced, add_edit, beside, child_at, new_root, remove_edit};
use vm_map::call::{Call, Reply, Said, Swap};
use vm_map::span::Span;
use vm_map::window::Bound;
use vm_node::pairs::{count_at, count_of, most_pairs};
use vm_node::{
    Edit, Full, Place, covers, del, del_edit, find_at, has_fences_at, has_level_at, in_buffer,
    is_leaf, is_leaf_at, join, put_edit, range_at, split, window_at,
};
use vm_owner::Ungrouped;
use vm_page::PageBuf;

/// That a page may have `N` words.
pub trait OfSize<const N: usize> {
    ghost use Rattle.vm_page.specs.Sizes.{IsSize};

    ghost is_size: { IsSize N };
}

/// The sizes that there are.
#[derive(Drop)]
pub struct Sizes;

impl OfSize<64> for Sizes {
    ghost is_size = { refl };
}

impl OfSize<512> for Sizes {
    ghost is_size = { refl };
}

/// Nodes on pages of `N` words whose keys are words.
#[derive(Drop)]
pub struct WordKeys<S, const N: usize> {
    size: PhantomData<S>,
}

/// Those on pages of 64 words.
pub type Words64 = WordKeys<Sizes, 64>;

/// Those on pages of 512 words.
pub type Words512 = WordKeys<Sizes, 512>;

// A word is below the end of all keys.
fn below_end(key: u64)
    ensures { key < KEY_END }
{
    let _ = key;
}

impl<S: OfSize<N>, const N: usize> Kind for WordKeys<S, N> {
    type Key = u64;

    type Said = Said;

    ghost layout = { fixed N };

    ghost is_layout = { sized_layout N S.is_size };

    ghost rank = { λ key. key };

    ghost plain = { λ said. said };

    ghost spare = { spare_in N };

    ghost spare_is = { spare_is N };

    ghost bounds = { record { spare = 1; fences = 3; child = looks_for N + 3; find = looks_for N + 3 } };

    fn words() -> usize {
        N
    }

    fn growth() -> usize {
        1
    }

    fn pair_size(key: &u64) -> usize {
        let _ = key;
        1
    }

    fn lowest() -> u64 {
        0
    }

    fn same_key(key: &u64) -> u64 {
        *key
    }

    fn in_range(key: &u64) {
        below_end(*key);
    }

    fn spare_at<P: Place>(place: &mut P) -> usize {
        most_pairs(N) - count_at(place, N)
    }

    fn is_leaf_at<P: Place>(place: &mut P) -> bool {
        is_leaf_at(place, N)
    }

    fn has_fences_at<P: Place>(place: &mut P, low: &u64, high: &Option<u64>) -> bool {
        has_fences_at(place, N, *low, *high)
    }

    fn child_at<P: Place>(place: &mut P, level: u64, key: &u64) -> Option<Fenced<u64>> {
        if !has_level_at(place, N, level) {
            return None;
        }
        child_at(place, N, *key)
    }

    fn find_at<P: Place>(place: &mut P, key: &u64) -> Option<u64> {
        find_at(place, N, *key)
    }

    fn got(key: &u64, found: Option<u64>) -> Said {
        Said {
            call: Call::Get { key: *key },
            reply: Reply::Got(found),
        }
    }

    fn was(key: &u64, value: u64, old: Option<u64>) -> Said {
        Said {
            call: Call::Put { key: *key, value },
            reply: Reply::Was(old),
        }
    }

    fn gone(key: &u64, old: Option<u64>) -> Said {
        Said {
            call: Call::Del { key: *key },
            reply: Reply::Gone(old),
        }
    }

    fn swapped(key: &u64, want: u64, value: u64, outcome: Swap) -> Said {
        Said {
            call: Call::Swap {
                key: *key,
                want,
                value,
            },
            reply: Reply::Swapped(outcome),
        }
    }
}

impl<S: OfSize<N>, const N: usize> Pages for WordKeys<S, N> {
    type Page = PageBuf<N>;

    ghost words_of = { λ page. page };

    fn zero() -> PageBuf<N> {
        PageBuf::zero()
    }

    fn word(page: &PageBuf<N>, i: usize) -> u64 {
        page.get(i)
    }

    fn read_all<U: Ungrouped, B: Block>(
        guard: &OptGuard,
        words: &Words<U, B>,
        pass: &mut Pass<U>,
        into: &mut PageBuf<N>,
    ) {
        guard.read_all(words, pass, into)
    }

    fn spare_of(page: &PageBuf<N>) -> usize {
        most_pairs(N) - count_of(page)
    }

    fn is_leaf(page: &PageBuf<N>) -> bool {
        is_leaf(page)
    }

    fn covers(page: &PageBuf<N>, key: &u64) -> bool {
        covers(page, *key)
    }
}

impl<S: OfSize<N>, const N: usize> Windows for WordKeys<S, N> {
    ghost window_each = { 2 };

    ghost window_most = { looks_for N + 4 };

    fn window_at<P: Place>(place: &mut P, start: &u64, most: u32) -> Said {
        let window = window_at(place, N, *start, most);
        Said {
            call: Call::Window {
                start: *start,
                most,
            },
            reply: Reply::Win(window),
        }
    }
}

impl<S: OfSize<N>, const N: usize> Ranges for WordKeys<S, N> {
    ghost pairs_most = { capacity N };

    fn most_pairs() -> usize {
        most_pairs(N)
    }

    fn key_of(number: u64) -> u64 {
        number
    }

    fn reply_of(said: Said) -> Reply {
        said.reply
    }

    fn range_at<P: Place>(place: &mut P, from: &u64, bound: Bound, out: &mut Span) -> Bound {
        range_at(place, N, *from, bound, out)
    }

    fn many(low: &u64, bound: Bound, pairs: Span) -> Said {
        Said {
            call: Call::Range { low: *low, bound },
            reply: Reply::Many(pairs),
        }
    }

    fn wide(low: &u64, bound: Bound, reach: u64) -> Said {
        Said {
            call: Call::Range { low: *low, bound },
            reply: Reply::Wide(reach),
        }
    }
}

impl<S: OfSize<N>, const N: usize> Edits for WordKeys<S, N> {
    type Edit = Edit;

    ghost edited = { edited N };

    fn put_edit(page: &PageBuf<N>, key: &u64, value: u64) -> Result<(Option<u64>, Edit), Full> {
        put_edit(page, *key, value)
    }

    fn del_edit(page: &PageBuf<N>, key: &u64) -> Option<(u64, Edit)> {
        del_edit(page, *key)
    }

    fn add_edit(page: &PageBuf<N>, key: &u64, child: u64) -> Result<Edit, Full> {
        add_edit(page, *key, child)
    }

    fn edited_word(page: &PageBuf<N>, edit: &Edit, i: usize) -> u64 {
        edit.word(page, i)
    }

    fn changes(page: &PageBuf<N>, edit: &Edit) -> (usize, usize) {
        let _ = page;
        edit.changes(N)
    }

    fn split(page: &PageBuf<N>, left: &mut PageBuf<N>, right: &mut PageBuf<N>) -> u64 {
        left.copy_from(page);
        let separator = split(left, right);
        let _ = in_buffer(left);
        let _ = in_buffer(right);
        separator
    }

    fn new_root(page: &mut PageBuf<N>, level: u64, left: u64, separator: &u64, right: u64) {
        new_root(page, level, left, *separator, right)
    }
}

impl<S: OfSize<N>, const N: usize> Merges for WordKeys<S, N> {
    fn copy(into: &mut PageBuf<N>, page: &PageBuf<N>) {
        into.copy_from(page)
    }

    fn del(page: &mut PageBuf<N>, key: &u64) -> Option<u64> {
        del(page, *key)
    }

    fn is_sparse(page: &PageBuf<N>) -> bool {
        4 * count_of(page) <= most_pairs(N)
    }

    fn may_join(left: &PageBuf<N>, right: &PageBuf<N>) -> bool {
        count_of(left) + count_of(right) <= most_pairs(N) * 5 / 7
    }

    #[tactic(auto, using(crate::proofs::WordJoins::both_fit))]
    fn join(left: &mut PageBuf<N>, right: &PageBuf<N>) {
        join(left, right);
        let _ = in_buffer(left);
    }

    fn beside(page: &PageBuf<N>, key: &u64) -> Option<ChildPair<u64>> {
        beside(page, *key)
    }

    fn has_two(page: &PageBuf<N>) -> bool {
        count_of(page) == 2
    }

    fn remove_edit(page: &PageBuf<N>, key: &u64) -> Option<(u64, Edit)> {
        remove_edit(page, *key)
    }
}
