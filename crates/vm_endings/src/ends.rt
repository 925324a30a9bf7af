//! What is kept of a run after it.

use crate::key_serve::BytesTree;
use vm_serve::kind::{Tree, TreeOf, Words512};
use vm_serve::pool::Ended;

/// The tree of pages of 512 words.
pub type LargeTree = TreeOf<Words512>;

/// The end of a pool with a tree, or nothing. Only the end of a pool makes an `Ended`, and it keeps for contracts the one history that the
/// pool had.
#[derive(Drop)]
pub enum Ends {
    Nothing,
    /// Of pages of 64 words.
    Tree(Ended<Tree>),
    /// Of pages of 512 words.
    LargeTree(Ended<LargeTree>),
    /// Of pages of 512 words, whose nodes have byte keys.
    BytesTree(Ended<BytesTree>),
}
