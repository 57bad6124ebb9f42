//! Reasons why an input isn't drawn.

ghost use Rattle.std.specs.Prelude.{◌≡◌};
ghost use Rattle.csv_command.specs.Errors.{of_columns, of_decoding, of_records, of_stop};
ghost use Rattle.csv_command.specs.declared.error.ColumnsError.TheVariants as columns;
ghost use Rattle.csv_command.specs.declared.error.CsvError.TheVariants.{OutOfMemory};

use comfy_parts::TableError;
use csv_records::{DecodeError, RecordsError};
use devices::Stop;
use std::alloc::AllocError;
use thiserror::Error;

/// The reason why columns can't be chosen or aligned as the options request.
#[derive(Debug, Drop, Error)]
pub enum ColumnsError {
    /// A word chooses no existing column. The first text is the word. The second text is a hint:
    /// the first similar name, or else a list of the columns. A similar name differs from the word
    /// only in the case of ASCII letters, and in white space at its ends.
    #[error("no column '{0}'; {1}")]
    NoColumn(String, String),
    /// No column is left to draw: all chosen columns are dropped, or no record has a field.
    #[error("no column is left")]
    NoneLeft,
    /// A column is chosen both as right-aligned and as left-aligned. The text is the column's name,
    /// or its number if it has no name.
    #[error("column '{0}' can't be aligned both left and right")]
    TwoSides(String),
    /// Memory ran out.
    #[error("out of memory")]
    OutOfMemory,
}

/// The reason why a drawing wasn't written, or why only a part of the drawing was written. If
/// memory ran out, the variant is always `CsvError::OutOfMemory`, and never the `OutOfMemory` of an
/// error inside another variant.
#[derive(Debug, Drop, Error)]
pub enum CsvError {
    /// Reading the input failed.
    #[error("the input can't be read")]
    Read,
    /// Writing the output failed.
    #[error("the output can't be written")]
    Write,
    /// The bytes of the input can't be decoded into a text.
    #[error("{0}")]
    Decode(DecodeError),
    /// The text can't be read as records.
    #[error("{0}")]
    Records(RecordsError),
    /// The columns can't be chosen or aligned as the options request.
    #[error("{0}")]
    Columns(ColumnsError),
    /// There was no memory for the records, their table or its drawing.
    #[error("out of memory")]
    OutOfMemory,
}

impl From<AllocError> for ColumnsError {
    ghost from_gives = { λ _ e. e ≡ columns.OutOfMemory };

    fn from(_error: AllocError) -> ColumnsError {
        ColumnsError::OutOfMemory
    }
}

impl From<TableError> for ColumnsError {
    ghost from_gives = { λ _ e. e ≡ columns.OutOfMemory };

    fn from(error: TableError) -> ColumnsError {
        match error {
            TableError::OutOfMemory => ColumnsError::OutOfMemory,
        }
    }
}

impl From<AllocError> for CsvError {
    ghost from_gives = { λ _ e. e ≡ OutOfMemory };

    fn from(_error: AllocError) -> CsvError {
        CsvError::OutOfMemory
    }
}

impl From<TableError> for CsvError {
    ghost from_gives = { λ _ e. e ≡ OutOfMemory };

    fn from(error: TableError) -> CsvError {
        match error {
            TableError::OutOfMemory => CsvError::OutOfMemory,
        }
    }
}

impl From<DecodeError> for CsvError {
    ghost from_gives = { λ x e. e ≡ of_decoding x };

    fn from(error: DecodeError) -> CsvError {
        match error {
            DecodeError::OutOfMemory => CsvError::OutOfMemory,
            fault => CsvError::Decode(fault),
        }
    }
}

impl From<RecordsError> for CsvError {
    ghost from_gives = { λ x e. e ≡ of_records x };

    fn from(error: RecordsError) -> CsvError {
        match error {
            RecordsError::OutOfMemory => CsvError::OutOfMemory,
            fault => CsvError::Records(fault),
        }
    }
}

impl From<ColumnsError> for CsvError {
    ghost from_gives = { λ x e. e ≡ of_columns x };

    fn from(error: ColumnsError) -> CsvError {
        match error {
            ColumnsError::OutOfMemory => CsvError::OutOfMemory,
            fault => CsvError::Columns(fault),
        }
    }
}

impl From<Stop<CsvError>> for CsvError {
    ghost from_gives = { λ x e. e ≡ of_stop x };

    fn from(stop: Stop<CsvError>) -> CsvError {
        match stop {
            Stop::Read => CsvError::Read,
            Stop::Write => CsvError::Write,
            Stop::OutOfMemory | Stop::Unfinished => CsvError::OutOfMemory,
            Stop::Refused(error) => error,
        }
    }
}
