//! Outcomes of calls.

use std::fmt::{self, Formatter, Write};

/// Returns true if the result of a call is `Ok`. The result is dropped.
pub fn succeeded<T: Drop, E: Drop>(returned: Result<T, E>) -> bool {
    returned.is_ok()
}

/// The outcome of a call that may be refused memory.
#[derive(Clone, Copy)]
pub enum Outcome {
    /// The call succeeded.
    Succeeded,
    /// The call was refused memory, and the state after it is as promised.
    AsPromised,
    /// The call was refused memory, and the first rows that it was to add are in the table, as
    /// promised. The value is their number.
    Kept(usize),
    /// The call was refused memory, and the state after it isn't as promised. The value names the
    /// part that is wrong.
    Broken(&'static str),
    /// There is no call with the requested name.
    Unknown,
}

impl Outcome {
    /// Returns the outcome of a call after which no state is checked: `Succeeded` if `succeeded` is
    /// true, and otherwise `AsPromised`.
    pub fn of(succeeded: bool) -> Outcome {
        if succeeded {
            Outcome::Succeeded
        } else {
            Outcome::AsPromised
        }
    }

    /// Returns the outcome of a call that was refused memory. `difference` names the part of the
    /// state that isn't as promised, and is `None` if there is no such part.
    pub fn refused(difference: Option<&'static str>) -> Outcome {
        match difference {
            Some(part) => Outcome::Broken(part),
            None => Outcome::AsPromised,
        }
    }

    /// Returns the number of rows in `Kept`, and `None` for any other outcome.
    pub fn kept(self) -> Option<usize> {
        match self {
            Outcome::Kept(rows) => Some(rows),
            _ => None,
        }
    }

    /// Returns true unless the outcome is `Broken` or `Unknown`.
    pub fn is_good(self) -> bool {
        matches!(
            self,
            Outcome::Succeeded | Outcome::AsPromised | Outcome::Kept(_)
        )
    }
}

impl fmt::Display for Outcome {
    fn fmt<W: Write>(&self, f: &mut Formatter<W>) -> fmt::Result {
        match self {
            Outcome::Succeeded => f.write_str("succeeded"),
            Outcome::AsPromised | Outcome::Kept(_) => f.write_str("refused, as promised"),
            Outcome::Broken(part) => write!(f, "refused, BROKEN: {part}"),
            Outcome::Unknown => f.write_str("there is no such call"),
        }
    }
}
