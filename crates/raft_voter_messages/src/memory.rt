//! The error of calls that fail only for lack of memory.
use std::alloc::{AllocError, AllocFailed};
use thiserror::Error;

/// An allocation failed. Each call that returns this error says what it leaves.
#[derive(Clone, Copy, Debug, PartialEq, Eq, Drop, Error)]
#[error("out of memory")]
pub struct Memory;

impl From<AllocError> for Memory {
    fn from(_refused: AllocError) -> Memory {
        Memory
    }
}

impl<T: Drop> From<AllocFailed<T>> for Memory {
    fn from(_refused: AllocFailed<T>) -> Memory {
        Memory
    }
}
