//! A place in the tree, and the tests of the page that is named for it.

ghost use Rattle.std.specs.Prelude.{◌≡◌, nat_le, nat_lt};
ghost use Rattle.vm_page.specs.Sizes.{IsSize};
ghost use Rattle.vm_tree_model.specs.Page.{pairs_of};
ghost use Rattle.vm_tree_model.specs.Walk.{has_children, has_keys, names_pages, rises, slot_fault};
ghost use Rattle.vm_check.specs.Places.{least_after, place, rank_or};

use crate::nodes::Nodes;
use vm_page::PageBuf;

/// A place in the tree and the page that is named for it. `high` is exclusive, and `None` where there is no high fence.
#[derive(Drop)]
pub struct NodeSlot<K> {
    pub page: u32,
    pub level: u64,
    pub low: K,
    pub high: Option<K>,
}

// The key is below the fence, or there is none.
fn is_below<F: Nodes<N>, const N: usize>(key: &F::Key, fence: &Option<F::Key>) -> bool
    ensures { result ≡ nat_lt (F.rank key.now) (rank_or F.rank F.layout.key_end fence.now) }
{
    match fence {
        Some(fence) => F::is_before(key, fence),
        None => {
            F::in_range(key);
            true
        }
    }
}

// The key is above the last one, or where there is none it is not below the low fence.
fn is_behind<F: Nodes<N>, const N: usize>(key: &F::Key, last: &Option<F::Key>, low: &F::Key) -> bool
    ensures { result ≡ nat_le (least_after F.rank (F.rank low.now) last.now) (F.rank key.now) }
{
    match last {
        Some(last) => F::is_before(last, key),
        None => !F::is_before(key, low),
    }
}

// The keys rise, from low on and below high.
fn keys_rise<F: Nodes<N>, const N: usize>(
    page: &PageBuf<N>,
    low: &F::Key,
    high: &Option<F::Key>,
) -> bool
    requires { IsSize N }
    ensures { result ≡ rises (F.rank low.now) (rank_or F.rank F.layout.key_end high.now) (pairs_of F.layout page.now) }
{
    let mut last = None;
    for i in 0..F::count(page) {
        let key = F::key_at(page, i);
        if !is_behind::<F, N>(&key, &last, low) {
            return false;
        }
        if !is_below::<F, N>(&key, high) {
            return false;
        }
        last = Some(key);
    }
    true
}

// Each value is the number of a page but 0.
fn values_name_pages<F: Nodes<N>, const N: usize>(page: &PageBuf<N>, pages: u32) -> bool
    requires { IsSize N }
    ensures { result ≡ names_pages pages (pairs_of F.layout page.now) }
{
    for i in 0..F::count(page) {
        let child = F::value_at(page, i);
        if child == 0 {
            return false;
        }
        if child >= pages as u64 {
            return false;
        }
    }
    true
}

// The keys rise within the fences, and an inner node's first key is its low fence.
fn has_keys<F: Nodes<N>, const N: usize>(slot: &NodeSlot<F::Key>, page: &PageBuf<N>) -> bool
    requires { IsSize N }
    ensures { result ≡ has_keys F.layout (place F.rank F.layout.key_end slot.now) page.now }
{
    if !keys_rise::<F, N>(page, &slot.low, &slot.high) {
        return false;
    }
    if slot.level == 0 {
        return true;
    }
    if F::count(page) == 0 {
        return false;
    }
    let first = F::key_at(page, 0);
    !F::is_before(&slot.low, &first) && !F::is_before(&first, &slot.low)
}

fn has_children<F: Nodes<N>, const N: usize>(
    slot: &NodeSlot<F::Key>,
    pages: u32,
    page: &PageBuf<N>,
) -> bool
    requires { IsSize N }
    ensures { result ≡ has_children F.layout pages (place F.rank F.layout.key_end slot.now) page.now }
{
    if slot.level == 0 {
        return true;
    }
    values_name_pages::<F, N>(page, pages)
}

/// Why the page does not fill its place, in an image of so many pages.
pub(crate) fn fault_of<F: Nodes<N>, const N: usize>(
    slot: &NodeSlot<F::Key>,
    pages: u32,
    visited: bool,
    page: &PageBuf<N>,
) -> Option<u8>
    requires { IsSize N }
    ensures { result ≡ slot_fault F.layout pages visited (place F.rank F.layout.key_end slot.now) page.now }
{
    if visited {
        return Some(3);
    }
    if !F::has_tag(page, slot.level) {
        return Some(4);
    }
    if !F::has_fences(page, &slot.low, &slot.high) {
        return Some(5);
    }
    if !F::has_form(page, slot.level) {
        return Some(6);
    }
    if !has_keys::<F, N>(slot, page) {
        return Some(7);
    }
    if !has_children::<F, N>(slot, pages, page) {
        return Some(8);
    }
    None
}
