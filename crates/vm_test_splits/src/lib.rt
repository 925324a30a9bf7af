//! Tests of edits and splits of leaves (`vm_node`), over its public items. They stand here so that it is not proved twice.
#![tactic(auto)]

#[cfg(test)]
mod edits;
