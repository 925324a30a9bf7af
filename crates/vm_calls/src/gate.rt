//! A gate round each call: it tells nothing and changes nothing of what the workers do.

/// What is called before and after each call of a worker. Calls are numbered from 1.
pub trait Gate {
    fn before(&self, worker: u32, call: u32);

    fn after(&self, worker: u32, call: u32);
}

/// A gate that does nothing.
pub struct NoGate;

impl Gate for NoGate {
    fn before(&self, _worker: u32, _call: u32) {}

    fn after(&self, _worker: u32, _call: u32) {}
}
