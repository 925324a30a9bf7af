//! Why a pair was not put.

use thiserror::Error;

/// The node has as many pairs as it has place for, and none of them has the key. The node is unchanged.
#[derive(Clone, Copy, Debug, Drop, PartialEq, Error)]
#[error("the node has no place for another pair, and none has the key")]
pub struct Full;
