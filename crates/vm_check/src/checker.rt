//! What the checker answers: the rows of a tree, or the first reason why the pages are none.

ghost use Rattle.std.specs.Prelude.{◌≡◌, length, MatchResult};
ghost use Rattle.vm_page.specs.{Pages.page_at, Sizes.IsSize};
ghost use Rattle.vm_tree_model.specs.Fixed.{fixed};
ghost use Rattle.vm_tree_model.specs.Walk.{meta_fault};
ghost use Rattle.vm_check.specs.Rows.{AreRows, AreRowsOf, IsRefusedImage};

use crate::fault::CheckFault;
use crate::nodes::{Nodes, WordNodes};
use crate::rows::{Rows, TreeRows};
use crate::walk::{start, used_pages, visit};
use std::alloc::Global;
use vm_image::{Image, is_zero_from};

/// The rows of the tree that the pages are, by rising key; or the first reason why they are none: the page at fault and
/// the reason's number, as the walk over page 0, the tree and the other pages meets them.
pub fn check<const N: usize>(alloc: Global, image: &Image<N>) -> Result<Rows, CheckFault>
    requires { IsSize N }
    ensures { MatchResult result (λ rows. AreRows (fixed N) image.now rows) (λ fault. IsRefusedImage (fixed N) image.now fault) }
{
    match check_nodes::<WordNodes, N>(alloc, image) {
        Ok(rows) => Ok(Rows {
            pairs: rows.pairs,
            height: rows.height,
            used: rows.used,
        }),
        Err(fault) => Err(fault),
    }
}

/// The same, of pages whose nodes are of any kind.
pub fn check_nodes<F: Nodes<N>, const N: usize>(
    alloc: Global,
    image: &Image<N>,
) -> Result<TreeRows<F::Row>, CheckFault>
    requires { IsSize N }
    ensures { MatchResult result (λ rows. AreRowsOf F.layout F.pair image.now rows) (λ fault. IsRefusedImage F.layout image.now fault) }
{
    match meta_fault::<F, N>(image) {
        Some(why) => return Err(CheckFault::BadPage { pid: 0, why }),
        None => {}
    }
    let mut walk = match start::<F, N>(alloc, image) {
        Ok(walk) => walk,
        Err(_) => return Err(CheckFault::Memory),
    };
    while let Some(slot) = walk.next() {
        match visit::<F, N>(&mut walk, image, slot) {
            Ok(()) => {}
            Err(fault) => return Err(fault),
        }
    }
    match used_pages::<F, N>(walk.visited.as_slice(), image) {
        Ok(used) => Ok(TreeRows {
            pairs: walk.rows,
            height: image.page(0).get(2),
            used,
        }),
        Err(fault) => Err(fault),
    }
}

// Why page 0 is no meta page, in its order: the magic word, then all else that it asks for.
fn meta_fault<F: Nodes<N>, const N: usize>(image: &Image<N>) -> Option<u8>
    requires { IsSize N }
    ensures { result ≡ meta_fault F.layout (length image.now) (page_at image.now 0) }
{
    let pages = image.pages();
    let page = image.page(0);
    if page.get(0) != F::magic() {
        return Some(1);
    }
    let root = page.get(1);
    if root == 0 {
        return Some(2);
    }
    if root >= pages as u64 {
        return Some(2);
    }
    if page.get(2) > pages as u64 - 2 {
        return Some(2);
    }
    if !is_zero_from(page, 3) {
        return Some(2);
    }
    None
}
