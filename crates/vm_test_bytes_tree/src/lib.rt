//! Tests of the tree with byte keys over a pool of blocks in memory, by its public items.
#![tactic(auto)]

#[cfg(test)]
mod calls;
#[cfg(test)]
mod trees;
