//! Inner nodes on the words of a page, which are 64 or 512: the child that answers for a key, a further child, the split, a new root, and two neighbouring
//! children, of which one goes.
//!
//! Every call works on any words, also on words that no one validated: a count above 28, or 252, is read as that. None
//! takes memory.
#![tactic(auto)]

mod children;
mod neighbours;
mod root;

pub use children::{Fenced, add, add_edit, child, child_at, split_inner};
pub use neighbours::{ChildPair, beside, remove_edit};
pub use root::new_root;
pub use vm_node::Full;
