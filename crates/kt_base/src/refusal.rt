//! The refusal of the outside.

use thiserror::Error;

/// A call on the outside has failed, and was counted as a fault.
#[derive(Clone, Copy, Debug, PartialEq, Eq, Error)]
#[error("the call failed")]
pub struct Failed;
