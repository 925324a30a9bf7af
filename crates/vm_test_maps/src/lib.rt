//! Tests of a page's bytes (`vm_page`), of a block in memory (`vm_block`) and of the plain map (`vm_map`), over their public items. They stand here so that none
//! of those crates is proved twice.
#![tactic(auto)]

#[cfg(test)]
mod block;
#[cfg(test)]
mod map;
#[cfg(test)]
mod page;
