//! Tests of reads of leaves (`vm_node`), over its public items. They stand here so that it is not proved twice.
#![tactic(auto)]

#[cfg(test)]
mod leaf;
