//! Why bytes are refused as a page file.

use thiserror::Error;

/// The bytes are not 2 to 65,536 pages of 512 bytes, or, of a file with pages of 512 words, not 2 to 8,192 of 4,096; or want of memory.
#[derive(Debug, Drop, Error)]
pub enum ImageFault {
    /// The number of bytes that were given.
    #[error("{len} bytes are no page file: it has 2 to 65536 pages of 512 bytes, or 2 to 8192 of 4096 if it begins with VMCACHE2")]
    BadLength { len: usize },
    #[error("out of memory")]
    Memory,
}
