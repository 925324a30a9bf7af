//! Edits of nodes with byte keys, in buffers: a put, a del, a split, a new root.
//!
//! Each edit makes the words of its result anew, pair by pair, in a page of its own (`Draft`), so a node has one form whatever edits led to it. Every call
//! works on any words. None takes memory.
#![tactic(auto)]

mod draft;
mod edits;
mod form;
mod halves;

pub use edits::{del_edit, put_edit, spare_of};
pub use form::is_form;
pub use halves::{new_root, split};
