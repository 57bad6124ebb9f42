//! The errors for an input that can't be decoded into a text, and for a text that can't be split
//! into records.

ghost use Rattle.std.specs.Prelude.{◌≡◌};
ghost use Rattle.csv_records.specs.declared.error.DecodeError.TheVariants as decode;
ghost use Rattle.csv_records.specs.declared.error.RecordsError.TheVariants as records;

use crate::not_text::NotText;
use std::alloc::{AllocError, AllocFailed};
use thiserror::Error;

/// The reason why an input can't be decoded into a text. Lines are counted from 1, including the
/// lines that `InputOptions::skip` leaves out. A line ends at a line feed, a carriage return, or a
/// carriage return with a line feed, also between quotes.
#[derive(Clone, Copy, Debug, PartialEq, Eq, Error)]
pub enum DecodeError {
    /// The bytes show that the input isn't CSV in UTF-8, and neither the options nor a byte-order
    /// mark of UTF-16 gives its encoding. The value is the kind of the input.
    #[error("{0}")]
    NotText(NotText),
    /// The input is read as UTF-8, and has a byte that isn't valid in UTF-8. Bytes in lines that
    /// `InputOptions::skip` leaves out don't count.
    #[error("line {line} isn't UTF-8")]
    NotUtf8 {
        /// The number of the line with the first byte that isn't valid in UTF-8.
        line: u64,
        /// True if each byte that is read could be part of a text in Windows-1252. Such a byte is
        /// defined there, and is no control character except TAB, line feed, form feed and carriage
        /// return.
        may_be_cp1252: bool,
    },
    /// The input is read as UTF-16, but isn't valid in UTF-16. The value is the number of the line
    /// with the first surrogate without a partner, or with an odd byte at the end of the input.
    #[error("line {0} isn't UTF-16")]
    NotUtf16(u64),
    /// There wasn't enough memory for the text.
    #[error("out of memory")]
    OutOfMemory,
}

/// The reason why a text can't be split into records.
#[derive(Clone, Copy, Debug, PartialEq, Eq, Error)]
pub enum RecordsError {
    /// A quote that opens a field is never closed. The value is the number of the line with this
    /// quote, counted as for `DecodeError`.
    #[error("a quote that opens in line {0} is never closed")]
    Unclosed(u64),
    /// The delimiter is a byte that isn't ASCII, and it splits a character of the text, because it
    /// is one of the bytes of that character's UTF-8.
    #[error("the delimiter splits a character")]
    SplitCharacter,
    /// There wasn't enough memory for the records.
    #[error("out of memory")]
    OutOfMemory,
}

impl From<AllocError> for DecodeError {
    ghost from_gives = { λ _ e. e ≡ decode.OutOfMemory };

    fn from(_error: AllocError) -> DecodeError {
        DecodeError::OutOfMemory
    }
}

impl From<AllocError> for RecordsError {
    ghost from_gives = { λ _ e. e ≡ records.OutOfMemory };

    fn from(_error: AllocError) -> RecordsError {
        RecordsError::OutOfMemory
    }
}

impl<T: Drop> From<AllocFailed<T>> for RecordsError {
    ghost from_gives = { λ _ e. e ≡ records.OutOfMemory };

    fn from(_error: AllocFailed<T>) -> RecordsError {
        RecordsError::OutOfMemory
    }
}
