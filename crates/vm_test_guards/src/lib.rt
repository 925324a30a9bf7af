//! Tests of optimistic guards (`vm_guard`) and of page numbers over pools with more than one pass, over their public items. They stand here so that no crate of
//! the layers below is proved twice.
#![tactic(auto)]

#[cfg(test)]
mod numbers;
#[cfg(test)]
mod reads;
