//! The command `serve`, up to what goes out: a script's calls, made by workers on the tree of a page file where it lies.
#![tactic(auto)]

pub mod drive;
pub mod endings;
mod pages;
pub mod serve;
mod work;
