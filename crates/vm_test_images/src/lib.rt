//! Tests of page files: `vm_image`, `vm_check` and `vm_build`, over their public items. They stand here so that none of those crates is proved twice.
#![tactic(auto)]

#[cfg(test)]
mod built;
#[cfg(test)]
mod image;
