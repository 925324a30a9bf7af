// What one worker has.
use std::alloc::Global;
use vm_exmap::Interface;
use vm_owner::Owner;
use vm_rule::words::Pass;

/// The calls that a worker is to make, and room for what they answer.
#[derive(Drop)]
pub struct Job {
    pub calls: Vec<u32, Global>,
    pub replies: Vec<u64, Global>,
}

/// A worker: its pass, its interface and its job.
#[derive(Drop)]
pub struct PageWorker<U: Owner> {
    pub pass: Pass<U>,
    pub iface: Interface,
    pub job: Job,
}
