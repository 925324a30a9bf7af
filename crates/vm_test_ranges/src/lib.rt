//! Tests of ranges of the tree over a pool of blocks in memory, by their public items.
#![tactic(auto)]

#[cfg(test)]
mod ranges;
