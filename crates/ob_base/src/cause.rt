//! Why a call didn't do its work, where nothing more can be said.
use std::alloc::{AllocError, AllocFailed};
use thiserror::Error;

/// Memory ran out.
#[derive(Clone, Copy, Debug, Error)]
#[error("out of memory")]
pub struct Memory;

impl From<AllocError> for Memory {
    fn from(_: AllocError) -> Memory {
        Memory
    }
}

impl<T: Drop> From<AllocFailed<T>> for Memory {
    fn from(_: AllocFailed<T>) -> Memory {
        Memory
    }
}

/// Something outside the program failed: a stream or a file.
#[derive(Clone, Copy, PartialEq, Eq, Debug, Error)]
#[error("the outside failed")]
pub struct Failed;
