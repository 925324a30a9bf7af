//! Tests of a store whose callers start their own threads (`vm_face`), by its public items. What is expected is worked out by hand from the rules.
#![tactic(auto)]

#[cfg(test)]
mod hands;
#[cfg(test)]
mod refused;
