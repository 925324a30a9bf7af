//! What tests of the tree do again and again over a pool of blocks in memory: keys put, read and taken out one after another, and looks at the pages.
#![tactic(auto)]

pub mod keys;
mod line;
pub mod pages;
pub mod pool;
pub mod steps;
pub mod tree_callers;
pub mod tree_read;
pub mod tree_write;
