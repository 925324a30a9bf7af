//! Tests of the tree over a pool of blocks in memory, by their public items: most are scripts, whose lines name a call and what is to be told of it.
#![tactic(auto)]

#[cfg(test)]
mod faults;
#[cfg(test)]
mod full_leaves;
#[cfg(test)]
mod merges;
#[cfg(test)]
mod neighbours;
#[cfg(test)]
mod reads;
#[cfg(test)]
mod reuse;
#[cfg(test)]
mod writes;
