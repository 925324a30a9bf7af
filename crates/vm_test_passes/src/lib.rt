//! Tests of passes over a pool, by its public items: passes that are split off, that meet and are joined, and workers in threads. They stand here
//! so that no crate of the layers below is proved twice.
#![tactic(auto)]

#[cfg(test)]
mod passes;
#[cfg(test)]
mod threads;
