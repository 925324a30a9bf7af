//! Tests of pools (`vm_pool`) of a few pages, which are brought, read, set and swept, over its public items. They stand here so that it is not proved twice.
#![tactic(auto)]

#[cfg(test)]
mod pool;
