//! Tests of evictions and flushes (`vm_evict`), over its public items. They stand here so that it is not proved twice.
#![tactic(auto)]

#[cfg(test)]
mod evict;
#[cfg(test)]
mod flush;
