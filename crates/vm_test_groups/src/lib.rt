//! Tests of fresh pages and of groups of guards (`vm_guard`) over pools with two passes, over its public items. They stand here so that no crate of the layers
//! below is proved twice.
#![tactic(auto)]

#[cfg(test)]
mod fresh;
#[cfg(test)]
mod groups;
