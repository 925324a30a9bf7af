//! What tests of workers do again and again: trees on the pages of an image, pools over them, lists of calls, gates, and what the pass knows afterwards.
#![tactic(auto)]

pub mod calls;
pub mod drive;
pub mod gates;
pub mod trees;
