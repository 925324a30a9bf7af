//! Tests of workers over the tree (`vm_drive`), by their public items. They stand here so that no crate of the layers below is proved twice. The expected
//! replies are worked out by hand from the rules, and not taken from a run.
#![tactic(auto)]

#[cfg(test)]
mod faults;
#[cfg(test)]
mod rounds;
