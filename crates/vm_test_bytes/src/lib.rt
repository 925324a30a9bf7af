//! Tests of nodes with byte keys (`vm_bytes_node`, `vm_bytes_edit`), over their public items. They stand here so that these are not proved twice.
#![tactic(auto)]

#[cfg(test)]
mod nodes;
