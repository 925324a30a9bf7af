//! Tests of the machine (`vm_core`) and of its rule and its tables of words (`vm_rule`), over their public items. They stand here so that
//! neither of those crates is proved twice.
#![tactic(auto)]

#[cfg(test)]
mod machine;
#[cfg(test)]
mod rule;
