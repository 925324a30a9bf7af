//! A test that workers over the tree (`vm_drive`) overlap, by its public items.
#![tactic(auto)]

#[cfg(test)]
mod overlap;
