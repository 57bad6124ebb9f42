//! The errors of `run`.

ghost use Rattle.std.specs.Prelude.{◌≡◌};
ghost use Rattle.comfy_parts.specs.declared.error.TableError.TheVariants.{OutOfMemory};
ghost use Rattle.comfy_run.specs.Run.{run_error_of};
ghost use Rattle.comfy_run.specs.declared.error.RunError.TheVariants.{Table};

use comfy_parts::TableError;
use devices::Stop;
use std::alloc::AllocError;
use thiserror::Error;

/// The reason why a call of `run` failed. `run` reads a source, and writes its drawing to a sink.
#[derive(Clone, Copy, Debug, PartialEq, Eq, Error)]
pub enum RunError {
    /// A call of the source failed, so the input wasn't read to its end. Nothing was written.
    #[error("the input can't be read")]
    Read,
    /// A call of the sink failed, so only a beginning of the drawing was written, perhaps no byte.
    #[error("the output can't be written")]
    Write,
    /// The input isn't UTF-8. Nothing was written.
    #[error("the input isn't UTF-8")]
    NotUtf8,
    /// The table couldn't be built or drawn, because memory ran out. Nothing was written.
    #[error("{0}")]
    Table(TableError),
}

impl From<TableError> for RunError {
    ghost from_gives = { λ x e. e ≡ Table x };

    fn from(error: TableError) -> RunError {
        RunError::Table(error)
    }
}

impl From<AllocError> for RunError {
    ghost from_gives = { λ _ e. e ≡ Table OutOfMemory };

    fn from(_error: AllocError) -> RunError {
        RunError::Table(TableError::OutOfMemory)
    }
}

impl From<Stop<RunError>> for RunError {
    ghost from_gives = { λ x e. e ≡ run_error_of x };

    fn from(stop: Stop<RunError>) -> RunError {
        match stop {
            Stop::Read => RunError::Read,
            Stop::Write => RunError::Write,
            Stop::OutOfMemory | Stop::Unfinished => RunError::Table(TableError::OutOfMemory),
            Stop::Refused(error) => error,
        }
    }
}
