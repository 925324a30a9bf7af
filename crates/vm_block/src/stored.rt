//! What contracts see of a block, as plain data.

use std::collections::LinkedList;

/// What a block holds and has counted. No value of it is made: it is there for contracts, and a rule over shared words can keep it in what
/// a thread knows.
pub struct Stored {
    /// The words held. They stand for nothing where the kind of block does not tell its words.
    pub words: LinkedList<u64>,
    /// Calls that failed. The count stands still at 2^64 - 1.
    pub count: u64,
    /// What the count never passes. No call changes it.
    pub bound: u64,
    /// Reads that answered. The count stands still at 2^64 - 1.
    pub reads: u64,
    /// Writes that answered. The count stands still at 2^64 - 1.
    pub writes: u64,
}
