//! Reasons why there is no drawing of a caller's texts.

ghost use Rattle.std.specs.Prelude.{◌≡◌};
ghost use Rattle.comfy_c.specs.declared.refusal.DrawRefusal.TheVariants as refusal;

use comfy_parts::TableError;
use std::alloc::{AllocError, AllocFailed};

/// A reason why there is no drawing.
pub(crate) enum DrawRefusal {
    /// The lengths don't add up to the length of all texts, or the counts don't add up to the
    /// number of texts. This is also the reason if there are looks, but not one for each text, or
    /// heights, but not one for each row.
    Lengths,
    /// A text isn't UTF-8.
    NotUtf8,
    /// A number in the settings or columns has no meaning, or settings can't be combined, or the
    /// columns don't fit the rows.
    Settings,
    /// Memory ran out.
    OutOfMemory,
}

impl From<AllocError> for DrawRefusal {
    ghost from_gives = { λ _ r. r ≡ refusal.OutOfMemory };

    fn from(_error: AllocError) -> DrawRefusal {
        DrawRefusal::OutOfMemory
    }
}

impl<T: Drop> From<AllocFailed<T>> for DrawRefusal {
    ghost from_gives = { λ _ r. r ≡ refusal.OutOfMemory };

    fn from(_error: AllocFailed<T>) -> DrawRefusal {
        DrawRefusal::OutOfMemory
    }
}

impl From<TableError> for DrawRefusal {
    ghost from_gives = { λ _ r. r ≡ refusal.OutOfMemory };

    fn from(_error: TableError) -> DrawRefusal {
        DrawRefusal::OutOfMemory
    }
}
