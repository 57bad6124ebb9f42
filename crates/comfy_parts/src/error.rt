//! The error of calls that take memory.

ghost use Rattle.std.specs.Prelude.{◌≡◌};
ghost use Rattle.comfy_parts.specs.declared.error.TableError.TheVariants.{OutOfMemory};

use std::alloc::{AllocError, AllocFailed};
use thiserror::Error;

/// The reason why a cell, a row, a table or a drawing couldn't be made.
///
/// ```
/// if let Err(TableError::OutOfMemory) = table.try_add_row(["17", "dock 3"]) {
///     println!(rt; "the first {} rows fit", table.row_count())?;
/// }
/// ```
#[derive(Clone, Copy, Debug, PartialEq, Eq, Error)]
pub enum TableError {
    /// A request for memory was refused. `Cell::new` also returns this error if the `Display` of
    /// its `content` returns an error.
    #[error("out of memory")]
    OutOfMemory,
}

impl From<AllocError> for TableError {
    ghost from_gives = { λ _ e. e ≡ OutOfMemory };

    fn from(_error: AllocError) -> TableError {
        TableError::OutOfMemory
    }
}

impl<T: Drop> From<AllocFailed<T>> for TableError {
    ghost from_gives = { λ _ e. e ≡ OutOfMemory };

    fn from(_error: AllocFailed<T>) -> TableError {
        TableError::OutOfMemory
    }
}

/// The result of a call that takes memory: a value, or a `TableError`. With a second type
/// parameter, as in `Result<T, E>`, this is the `Result` of `std`. So code with `use
/// comfy_table::*` can still write the results of other calls.
pub type Result<T, E = TableError> = std::result::Result<T, E>;
