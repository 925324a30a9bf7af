//! The checker over nodes whose keys are byte strings.

ghost use Rattle.std.specs.Prelude.{◌≡◌, ◌==◌, if◌then◌else◌, MatchResult, refl};
ghost use Rattle.vm_bytes_form.specs.{Bytes.bytes, Bytes.ranked_entry, Strings.rank};
ghost use Rattle.vm_bytes_form.proofs.BytesLaws.{bytes_is_layout};
ghost use Rattle.vm_check.specs.Rows.{AreRowsOf, IsRefusedImage};

use crate::empty::MAGIC;
use std::alloc::Global;
use vm_bytes_edit::is_form;
use vm_bytes_node::window::KeyPair;
use vm_bytes_node::{copied, count_at, has_fences_at, in_range, is_before, key_at, value_at};
use vm_check::{CheckFault, Nodes, TreeRows, check_nodes};
use vm_image::Image;
use vm_map::key::Key;
use vm_node::in_buffer;
use vm_page::PageBuf;

/// Nodes whose keys are byte strings of at most 64 bytes.
#[derive(Drop)]
pub struct KeyNodes;

// The tag of a node of a level.
fn tag_at(level: u64) -> u64
    ensures { result ≡ (if level == 0 then 4 else 5) }
{
    if level == 0 { 4 } else { 5 }
}

impl Nodes<512> for KeyNodes {
    type Key = Key;

    type Row = KeyPair;

    ghost layout = { bytes };

    ghost is_layout = { λ _. bytes_is_layout };

    ghost words_are = { refl };

    ghost rank = { rank };

    ghost pair = { ranked_entry };

    fn magic() -> u64 {
        MAGIC
    }

    fn lowest() -> Key {
        Key::new()
    }

    fn copied(key: &Key) -> Key {
        copied(key)
    }

    fn in_range(key: &Key) {
        in_range(key);
    }

    fn is_before(key: &Key, other: &Key) -> bool {
        is_before(key, other)
    }

    fn row(key: Key, value: u64) -> KeyPair {
        KeyPair { key, value }
    }

    fn has_tag(page: &PageBuf<512>, level: u64) -> bool {
        page.get(0) == tag_at(level)
    }

    fn has_fences(page: &PageBuf<512>, low: &Key, high: &Option<Key>) -> bool {
        has_fences_at(&mut in_buffer(page), low, high)
    }

    fn has_form(page: &PageBuf<512>, level: u64) -> bool {
        if !is_form(page) {
            return false;
        }
        if page.get(2) != level {
            return false;
        }
        if level == 0 {
            return true;
        }
        count_at(&mut in_buffer(page)) > 0
    }

    fn count(page: &PageBuf<512>) -> usize {
        count_at(&mut in_buffer(page))
    }

    fn key_at(page: &PageBuf<512>, i: usize) -> Key {
        key_at(&mut in_buffer(page), i)
    }

    fn value_at(page: &PageBuf<512>, i: usize) -> u64 {
        value_at(&mut in_buffer(page), i)
    }
}

/// The rows of the tree that the pages are, by rising key; or the first reason why they are none, as `check` of `vm_check` gives it. Reason 6 is that a
/// node's words are not just those of the node that they are read as.
pub fn check_keys(alloc: Global, image: &Image<512>) -> Result<TreeRows<KeyPair>, CheckFault>
    ensures { MatchResult result (λ rows. AreRowsOf bytes ranked_entry image.now rows) (λ fault. IsRefusedImage bytes image.now fault) }
{
    check_nodes::<KeyNodes, 512>(alloc, image)
}
