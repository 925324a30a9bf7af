//! Nodes with byte keys as a kind of node.

ghost use Rattle.vm_bytes_form.specs.Bytes.{bytes};
ghost use Rattle.vm_bytes_form.specs.Strings.{rank};
ghost use Rattle.vm_bytes_form.proofs.BytesLaws.{bytes_is_layout};
ghost use Rattle.vm_bytes_laws.specs.Plain.{plain_said};
ghost use Rattle.vm_bytes_node.specs.Room.{spare_words};
ghost use Rattle.vm_bytes_edit.proofs.RoomLaw.{spare_is};

use vm_block::Block;
use vm_bytes_edit::{del_edit, new_root, put_edit, spare_of, split};
use vm_bytes_laws::call::{KeyCall, KeyReply, KeySaid};
use vm_bytes_node::{
    child_at, copied, covers_at, find_at, has_fences_at, has_level_at, in_range, is_leaf_at,
    pair_size, spare_at, window_at,
};
use vm_guard::OptGuard;
use vm_guard::rule::{Pass, Words};
use vm_inner::Fenced;
use vm_kind::{Edits, Kind, Pages, TreeOf, Windows};
use vm_map::call::Swap;
use vm_map::key::Key;
use vm_node::{Full, Place, in_buffer};
use vm_owner::Ungrouped;
use vm_page::{LARGE, PageBuf};

/// Nodes whose keys are byte strings. It is no value: it stands for their kind.
#[derive(Drop)]
pub struct BytesKeys;

/// The tree of such nodes, as the owner of a page store.
pub type BytesTree = TreeOf<BytesKeys>;

impl Kind for BytesKeys {
    type Key = Key;

    type Said = KeySaid;

    ghost layout = { bytes };

    ghost is_layout = { bytes_is_layout };

    ghost rank = { rank };

    ghost plain = { plain_said };

    ghost spare = { spare_words };

    ghost spare_is = { spare_is };

    ghost bounds = { record { spare = 3; fences = 18; child = 85; find = 84 } };

    fn words() -> usize {
        LARGE
    }

    fn growth() -> usize {
        10
    }

    fn pair_size(key: &Key) -> usize {
        pair_size(key)
    }

    fn lowest() -> Key {
        Key::new()
    }

    fn same_key(key: &Key) -> Key {
        copied(key)
    }

    fn in_range(key: &Key) {
        in_range(key);
    }

    fn spare_at<P: Place>(place: &mut P) -> usize {
        spare_at(place)
    }

    fn is_leaf_at<P: Place>(place: &mut P) -> bool {
        is_leaf_at(place)
    }

    fn has_fences_at<P: Place>(place: &mut P, low: &Key, high: &Option<Key>) -> bool {
        has_fences_at(place, low, high)
    }

    fn child_at<P: Place>(place: &mut P, level: u64, key: &Key) -> Option<Fenced<Key>> {
        if !has_level_at(place, level) {
            return None;
        }
        child_at(place, key)
    }

    fn find_at<P: Place>(place: &mut P, key: &Key) -> Option<u64> {
        find_at(place, key)
    }

    fn got(key: &Key, found: Option<u64>) -> KeySaid {
        KeySaid {
            call: KeyCall::Get { key: copied(key) },
            reply: KeyReply::Got(found),
        }
    }

    fn was(key: &Key, value: u64, old: Option<u64>) -> KeySaid {
        KeySaid {
            call: KeyCall::Put {
                key: copied(key),
                value,
            },
            reply: KeyReply::Was(old),
        }
    }

    fn gone(key: &Key, old: Option<u64>) -> KeySaid {
        KeySaid {
            call: KeyCall::Del { key: copied(key) },
            reply: KeyReply::Gone(old),
        }
    }

    fn swapped(key: &Key, want: u64, value: u64, outcome: Swap) -> KeySaid {
        KeySaid {
            call: KeyCall::Swap {
                key: copied(key),
                want,
                value,
            },
            reply: KeyReply::Swapped(outcome),
        }
    }
}

impl Pages for BytesKeys {
    type Page = PageBuf<512>;

    ghost words_of = { λ page. page };

    fn zero() -> PageBuf<512> {
        PageBuf::zero()
    }

    fn word(page: &PageBuf<512>, i: usize) -> u64 {
        page.get(i)
    }

    fn read_all<U: Ungrouped, B: Block>(
        guard: &OptGuard,
        words: &Words<U, B>,
        pass: &mut Pass<U>,
        into: &mut PageBuf<512>,
    ) {
        guard.read_all(words, pass, into)
    }

    fn spare_of(page: &PageBuf<512>) -> usize {
        spare_of(page)
    }

    fn is_leaf(page: &PageBuf<512>) -> bool {
        is_leaf_at(&mut in_buffer(page))
    }

    fn covers(page: &PageBuf<512>, key: &Key) -> bool {
        covers_at(&mut in_buffer(page), key)
    }
}

impl Windows for BytesKeys {
    ghost window_each = { 11 };

    ghost window_most = { 100 };

    fn window_at<P: Place>(place: &mut P, start: &Key, most: u32) -> KeySaid {
        in_range(start);
        let window = window_at(place, start, most);
        KeySaid {
            call: KeyCall::Window {
                start: copied(start),
                most,
            },
            reply: KeyReply::Win(window),
        }
    }
}

impl Edits for BytesKeys {
    // The page as the edit leaves it.
    type Edit = PageBuf<512>;

    ghost edited = { λ before after. after };

    fn put_edit(
        page: &PageBuf<512>,
        key: &Key,
        value: u64,
    ) -> Result<(Option<u64>, PageBuf<512>), Full> {
        put_edit(page, key, value)
    }

    fn del_edit(page: &PageBuf<512>, key: &Key) -> Option<(u64, PageBuf<512>)> {
        del_edit(page, key)
    }

    fn add_edit(page: &PageBuf<512>, key: &Key, child: u64) -> Result<PageBuf<512>, Full> {
        match put_edit(page, key, child) {
            Ok((_, edit)) => Ok(edit),
            Err(full) => Err(full),
        }
    }

    fn edited_word(page: &PageBuf<512>, edit: &PageBuf<512>, i: usize) -> u64 {
        let _ = page;
        edit.get(i)
    }

    fn changes(page: &PageBuf<512>, edit: &PageBuf<512>) -> (usize, usize) {
        let _ = page;
        let _ = edit;
        (0, LARGE)
    }

    fn split(page: &PageBuf<512>, left: &mut PageBuf<512>, right: &mut PageBuf<512>) -> Key {
        let separator = split(page, left, right);
        let _ = in_buffer(left);
        let _ = in_buffer(right);
        separator
    }

    fn new_root(page: &mut PageBuf<512>, level: u64, left: u64, separator: &Key, right: u64) {
        new_root(page, level, left, separator, right);
        let _ = in_buffer(page);
    }
}
