//! Tests of the guards of one pass (`vm_guard`), over its public items. They stand here so that it is not proved twice.
#![tactic(auto)]

#[cfg(test)]
mod guard;
