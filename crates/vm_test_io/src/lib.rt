//! Tests of the host (`vm_io`) and of its loops, over its public items. They stand here so that it is not proved twice.
#![tactic(auto)]

#[cfg(test)]
mod hosts;
