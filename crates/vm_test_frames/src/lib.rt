//! Tests of the crates of frames: `vm_exmap`, `vm_fault` and `vm_clock`, over their public items. They stand here so that none of those crates is proved twice.
#![tactic(auto)]

#[cfg(test)]
mod clock;
#[cfg(test)]
mod exmap;
#[cfg(test)]
mod fault;
