//! Tests of pools (`vm_pool`) whose frames are all taken, or nearly none of them, over its public items. They stand here so that it is not proved twice.
#![tactic(auto)]

#[cfg(test)]
mod bring;
#[cfg(test)]
mod full;
#[cfg(test)]
mod sparse;
