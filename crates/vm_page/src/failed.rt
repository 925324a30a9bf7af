//! What a call of a block or of a host answers that failed.

use thiserror::Error;

/// A call of a block or of a host failed.
#[derive(Clone, Copy, Debug, PartialEq, Eq, Error)]
#[error("the call failed")]
pub struct Failed;
