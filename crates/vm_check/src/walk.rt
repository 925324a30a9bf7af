//! The walk over the pages of an image: the places still to be filled, the pages visited, the rows met.

ghost use Rattle.std.specs.Prelude.{[], ◌≡◌, ◌++◌, ◌∷◌, ◌<◌, drop, false, IfOk, length, map, MatchOption, MatchResult, None, OnOk, reverse, slice_index, true};
ghost use Rattle.vm_page.specs.Sizes.{IsSize};
ghost use Rattle.vm_tree_model.specs.Page.{pairs_of};
ghost use Rattle.vm_tree_model.specs.Tree.{page_at};
ghost use Rattle.vm_tree_model.specs.Walk.{all_zero, children, names_pages};
ghost use Rattle.vm_tree_model.specs.Reason.{first_lost, first_outcome, used_pages};
ghost use Rattle.vm_check.specs.Places.{place, rank_or};
ghost use Rattle.vm_check.specs.Progress.{IsFaultOf, IsGoing, IsNextVisit, IsOrphan, outcome, outcome_at, reached};

use crate::fault::CheckFault;
use crate::nodes::Nodes;
use crate::slot::{NodeSlot, fault_of};
use std::alloc::{AllocError, Global};
use std::mem;
use vm_image::{Image, is_free};
use vm_page::PageBuf;

/// A walk: the places on the stack are to be filled next, the last one first.
#[derive(Drop)]
pub struct Walk<K, R> {
    pub slots: Vec<NodeSlot<K>>,
    pub visited: Vec<bool>,
    pub rows: Vec<R>,
}

/// The root's place is to be filled first.
pub(crate) fn start<F: Nodes<N>, const N: usize>(
    alloc: Global,
    image: &Image<N>,
) -> Result<Walk<F::Key, F::Row>, AllocError>
    requires sized { IsSize N }
    requires root { slice_index (page_at image.now 0) 1 < length image.now }
    ensures { IfOk result (λ walk. IsGoing image.now (reached F.rank F.layout.key_end F.pair walk)
        × (outcome F.layout image.now (reached F.rank F.layout.key_end F.pair walk) ≡ first_outcome F.layout image.now)) }
{
    let page = image.page(0);
    let visited = vec![in alloc; false; image.pages() as usize]?;
    let mut slots = Vec::new(alloc);
    slots.push(NodeSlot {
        page: page.get(1) as u32,
        level: page.get(2),
        low: F::lowest(),
        high: None,
    })?;
    Ok(Walk {
        slots,
        visited,
        rows: Vec::new(alloc),
    })
}

/// How many pages are not all zero, where each of them but page 0 was visited.
pub(crate) fn used_pages<F: Nodes<N>, const N: usize>(
    visited: &[bool],
    image: &Image<N>,
) -> Result<u32, CheckFault>
    requires sized { IsSize N }
    requires flags { length visited.now ≡ length image.now }
    requires meta { all_zero (page_at image.now 0) ≡ false }
    ensures { MatchResult result (λ used. (used ≡ used_pages image.now) × (first_lost F.layout (drop 1 image.now) visited.now 1 ≡ None))
        (λ fault. IsOrphan (first_lost F.layout (drop 1 image.now) visited.now 1) fault) }
{
    let mut used = 1;
    for p in 1..image.pages() {
        if is_free(image.page(p)) {
            continue;
        }
        if !visited[p as usize] {
            return Err(CheckFault::BadPage { pid: p, why: 9 });
        }
        used += 1;
    }
    Ok(used)
}

impl<K, R> Walk<K, R> {
    /// The next place to be filled.
    pub(crate) fn next(&mut self) -> Option<NodeSlot<K>>
        ensures slots { MatchOption result (reverse self.old.slots.items ≡ []) (λ slot. reverse self.old.slots.items ≡ slot ∷ reverse self.new.slots.items) }
        ensures visited { self.new.visited ≡ self.old.visited }
        ensures rows { self.new.rows ≡ self.old.rows }
    {
        self.slots.pop()
    }
}

/// Visits the page that is named for a place.
pub(crate) fn visit<F: Nodes<N>, const N: usize>(
    walk: &mut Walk<F::Key, F::Row>,
    image: &Image<N>,
    slot: NodeSlot<F::Key>,
) -> Result<(), CheckFault>
    requires sized { IsSize N }
    requires going { IsGoing image.now (reached F.rank F.layout.key_end F.pair walk.old) }
    requires inside { slot.page < length image.now }
    ensures { MatchResult result
        (λ _. IsNextVisit F.layout image.now (place F.rank F.layout.key_end slot) (reached F.rank F.layout.key_end F.pair walk.old)
        (reached F.rank F.layout.key_end F.pair walk.new))
        (λ fault. IsFaultOf (outcome_at F.layout image.now (place F.rank F.layout.key_end slot) (reached F.rank F.layout.key_end F.pair walk.old)) fault) }
{
    let page = image.page(slot.page);
    let was_visited = walk.visited[slot.page as usize];
    match fault_of::<F, N>(&slot, image.pages(), was_visited, page) {
        Some(why) => {
            return Err(CheckFault::BadPage {
                pid: slot.page,
                why,
            });
        }
        None => {}
    }
    walk.visited[slot.page as usize] = true;
    if slot.level == 0 {
        return match push_rows::<F, N>(&mut walk.rows, page) {
            Ok(()) => Ok(()),
            Err(_) => Err(CheckFault::Memory),
        };
    }
    match push_children::<F, N>(
        &mut walk.slots,
        slot.level - 1,
        slot.high,
        page,
        image.pages(),
    ) {
        Ok(()) => Ok(()),
        Err(_) => Err(CheckFault::Memory),
    }
}

// Adds a leaf's pairs to the rows.
fn push_rows<F: Nodes<N>, const N: usize>(
    rows: &mut Vec<F::Row>,
    page: &PageBuf<N>,
) -> Result<(), AllocError>
    requires { IsSize N }
    ensures { OnOk result (map F.pair rows.new.items ≡ map F.pair rows.old.items ++ pairs_of F.layout page.now) }
{
    for i in 0..F::count(page) {
        let key = F::key_at(page, i);
        rows.push(F::row(key, F::value_at(page, i)))?;
    }
    Ok(())
}

// Puts the places of a node's children on the stack, the leftmost on top.
fn push_children<F: Nodes<N>, const N: usize>(
    slots: &mut Vec<NodeSlot<F::Key>>,
    level: u64,
    high: Option<F::Key>,
    page: &PageBuf<N>,
    pages: u32,
) -> Result<(), AllocError>
    requires sized { IsSize N }
    requires names { names_pages pages (pairs_of F.layout page.now) ≡ true }
    ensures { OnOk result (map (place F.rank F.layout.key_end) (reverse slots.new.items)
        ≡ children level (pairs_of F.layout page.now) (rank_or F.rank F.layout.key_end high) ++ map (place F.rank F.layout.key_end) (reverse slots.old.items)) }
{
    let mut above = high;
    for i in (0..F::count(page)).rev() {
        let low = F::key_at(page, i);
        let high = mem::replace(&mut above, Some(F::copied(&low)));
        slots.push(NodeSlot {
            page: F::value_at(page, i) as u32,
            level,
            low,
            high,
        })?;
    }
    Ok(())
}
