//! Tests of workers on a tree with byte keys, side by side, by their public items.
#![tactic(auto)]

#[cfg(test)]
mod calls;
#[cfg(test)]
mod workers;
