//! Files of test cases, whose format is described in FORMAT.md. A crate that uses them defines the
//! value that the lines of a case build, and how it is drawn.
#![tactic(auto)]

mod case;
mod cases;
mod fault;
mod tally;
mod trial;
mod words;

pub use cases::Cases;
pub use fault::{Fault, Result};
pub use trial::Build;
pub use words::{first_or_empty, push_lines, text};
