//! Tests of inner nodes (`vm_inner`) and of leaves that become one (`vm_node`), over their public items. They stand here so that neither crate is proved twice.
#![tactic(auto)]

#[cfg(test)]
mod inner;
#[cfg(test)]
mod merging;
