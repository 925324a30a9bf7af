//! Why an image is refused.

use thiserror::Error;

/// The pages are no tree, or want of memory.
#[derive(Debug, Drop, Error)]
pub enum CheckFault {
    /// The page at fault and the number of the first reason, 1 to 9.
    #[error("page {pid} is at fault, reason {why}")]
    BadPage { pid: u32, why: u8 },
    #[error("out of memory")]
    Memory,
}
