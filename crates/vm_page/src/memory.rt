//! The error of calls that want memory and have no other.

use std::alloc::{AllocError, AllocFailed};
use thiserror::Error;

/// There was not enough memory.
#[derive(Clone, Copy, Debug, Error, PartialEq)]
#[error("out of memory")]
pub struct Memory;

impl From<AllocError> for Memory {
    fn from(_: AllocError) -> Self {
        Memory
    }
}

impl<T: Drop> From<AllocFailed<T>> for Memory {
    fn from(_: AllocFailed<T>) -> Self {
        Memory
    }
}
