//! A pass's own store of free frames over the bundles that all passes share: frames are taken and given back in batches.
#![tactic(auto)]

mod bits;
mod interface;
mod walk;

pub use interface::{Alloc, AllocOne, Interface};
