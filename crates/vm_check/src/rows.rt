//! What a tree holds.

use vm_map::call::Pair;

/// The pairs by rising key, the root's level, and the number of pages that are not all zero.
#[derive(Drop)]
pub struct Rows {
    pub pairs: Vec<Pair>,
    pub height: u64,
    pub used: u32,
}

/// The same, where pairs are of another kind.
#[derive(Drop)]
pub struct TreeRows<R> {
    pub pairs: Vec<R>,
    pub height: u64,
    pub used: u32,
}
