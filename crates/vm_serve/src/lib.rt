//! Workers' calls on a tree of pages: a pool over the blocks of an image, or over blocks of any kind, the workers, the flush, the end.
#![tactic(auto)]

pub mod drive;
pub mod evict;
pub mod exmap;
pub mod kind;
pub mod laws;
pub mod pool;
mod serving;
pub mod tree_read;
pub mod tree_rule;

pub use serving::{Served, ServedOn, serve, serve_into, serve_on, shape_of};
