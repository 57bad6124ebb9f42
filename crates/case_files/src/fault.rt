//! Reasons for which a case can't be tried.

use comfy_parts::TableError;
use std::alloc::{AllocError, AllocFailed};
use thiserror::Error;

/// The reason for which a test case can't be tried.
#[derive(Clone, Copy, Debug, Error)]
pub enum Fault {
    /// Memory ran out. This error ends the whole program.
    #[error("out of memory")]
    OutOfMemory,
    /// A line can't be read. The text is the reason.
    #[error("{0}")]
    NotRead(&'static str),
}

impl From<AllocError> for Fault {
    fn from(_error: AllocError) -> Fault {
        Fault::OutOfMemory
    }
}

impl<T: Drop> From<AllocFailed<T>> for Fault {
    fn from(_error: AllocFailed<T>) -> Fault {
        Fault::OutOfMemory
    }
}

impl From<TableError> for Fault {
    fn from(error: TableError) -> Fault {
        match error {
            TableError::OutOfMemory => Fault::OutOfMemory,
        }
    }
}

/// A value, or the reason for which a test case can't be tried.
pub type Result<T> = std::result::Result<T, Fault>;
