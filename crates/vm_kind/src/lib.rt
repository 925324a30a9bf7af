//! Kinds of nodes. A tree is stated over a kind: how the words of a page mean a node (a layout), which number stands for a key, and the calls on
//! nodes that a descent, a read and a write make. A further kind of tree is an instance.
#![tactic(auto)]

mod edits;
pub mod guard;
pub mod inner;
mod kind;
mod merges;
mod pages;
mod ranges;
mod tree;
mod windows;
mod word_keys;

pub use edits::Edits;
pub use kind::Kind;
pub use merges::Merges;
pub use pages::Pages;
pub use ranges::Ranges;
pub use tree::{Tree, TreeOf};
pub use windows::Windows;
pub use word_keys::{OfSize, Sizes, WordKeys, Words64, Words512};
