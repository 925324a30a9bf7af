//! What the tree keeps true of its pages, its map and its history, and the laws that make it the owner of a page store. The crate is
//! definitions and laws: a law is a function without a body whose contract is the law.
#![tactic(auto)]

pub mod descent;
pub mod kept;
pub mod may;
