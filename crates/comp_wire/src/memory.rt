//! The one refusal of this crate.

use std::alloc::AllocError;

/// Memory was not given.
#[derive(Clone, Copy, PartialEq, Eq, Debug)]
pub struct NoMemory;

impl From<AllocError> for NoMemory {
    fn from(_refusal: AllocError) -> NoMemory {
        NoMemory
    }
}
