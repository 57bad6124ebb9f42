//! The program `csvtable`: it reads arguments, draws the table of an input, and ends with a message
//! and a status.
#![tactic(auto)]

mod arguments;
mod columns;
mod drawing;
mod ending;
mod error;
mod hints;
mod mistakes;
mod options;
mod process;
mod styles;
#[cfg(test)]
mod tests;
mod transfer;

pub use arguments::{Invocation, Options, OutputContext, parse};
pub use columns::ColumnWords;
pub use drawing::{Refusal, render_csv};
pub use ending::ARGUMENT_NOT_UTF8;
pub use error::{ColumnsError, CsvError};
pub use process::run_with_arguments;
pub use transfer::{draw, output_of_input};
