//! Whether the words of a page are a node's.

ghost use Rattle.std.specs.Prelude.{◌≡◌, ◌≤◌, length};
ghost use Rattle.vm_node.specs.Loads.{IsAnswer};
ghost use Rattle.vm_bytes_form.specs.{Bytes.bytes_clean, Forms.IsFitting, Forms.node_in};
ghost use Rattle.vm_bytes_node.specs.Limits.{MOST_SLOTS};

use crate::draft::begun;
use crate::halves::sizes_of;
use vm_bytes_node::{HEADER, count_at, high_at, low_at, words_of};
use vm_node::in_buffer;
use vm_page::{LARGE, PageBuf};

/// Whether the words are just those of the node that they are read as, and that node fits on the page.
pub fn is_form(page: &PageBuf<512>) -> bool
    ensures { result ≡ bytes_clean page.now }
{
    let count = count_at(&mut in_buffer(page));
    if !fits(page, count) {
        return false;
    }
    let mut draft = begun(page);
    draft.copy(page, 0, count);
    is_same(page, &draft.into_page())
}

// Whether the node that the words are read as, which has so many pairs, fits on the page. No key is too long, since at most 64 bytes are read as one.
fn fits(page: &PageBuf<512>, count: usize) -> bool
    requires { count ≤ MOST_SLOTS }
    ensures { count ≡ length (node_in page.now).entries → IsAnswer result (IsFitting 512 (node_in page.now)) }
{
    let mut place = in_buffer(page);
    let taken = HEADER + words_of(low_at(&mut place).len()) + sizes_of(page, count);
    match high_at(&mut place) {
        Some(high) => high.len() > 0 && taken + words_of(high.len()) <= LARGE,
        None => taken <= LARGE,
    }
}

// Whether both pages have the same words.
fn is_same(left: &PageBuf<512>, right: &PageBuf<512>) -> bool
    ensures { IsAnswer result (left.now ≡ right.now) }
{
    for i in 0..LARGE {
        if left.get(i) != right.get(i) {
            return false;
        }
    }
    true
}
