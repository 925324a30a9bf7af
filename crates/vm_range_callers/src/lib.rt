//! What the tests of ranges call: trees of a root over leaves, pools over them, and the tree's ranges, each with as much of its contract as the next asks for.
#![tactic(auto)]

pub mod calls;
pub mod tree_range;
pub mod trees;
