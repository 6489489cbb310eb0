//! Why a call that reads, writes or takes memory gives up.

use std::alloc::{AllocError, AllocFailed};
use thiserror::Error;

/// No memory was found.
#[derive(Clone, Copy, PartialEq, Eq, Debug, Error)]
#[error("memory")]
pub struct Memory;

/// A read, a write or a flush failed.
#[derive(Clone, Copy, PartialEq, Eq, Debug, Error)]
#[error("input or output")]
pub struct Io;

impl From<AllocError> for Memory {
    fn from(_error: AllocError) -> Memory {
        Memory
    }
}

impl<T: Drop> From<AllocFailed<T>> for Memory {
    fn from(_error: AllocFailed<T>) -> Memory {
        Memory
    }
}
