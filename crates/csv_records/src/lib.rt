//! Reads bytes into a text, and a text into records of fields: encodings, delimiters and quotes.
//! Also cleans fields for a terminal, and recognises fields that are numbers.
#![tactic(auto)]

mod beginning;
mod below_names;
mod characters;
mod cleaning;
mod counting;
mod decimals;
mod delimiter;
mod digits;
mod encoding;
mod error;
mod field_number;
mod fields;
pub mod laws;
mod lines;
mod longer;
mod not_text;
mod number;
mod options;
mod quotes;
mod reading;
mod records;
mod shown;
mod spaces;
mod text;

pub use beginning::read_beginning;
pub use characters::split_first;
pub use cleaning::{cleaned, is_clean_line};
pub use decimals::{ColumnMarks, DecimalMark, MarkSummary, Points};
pub use delimiter::{Delimiter, only_ascii};
pub use digits::parse_digits;
pub use encoding::{Encoding, decoded};
pub use error::{DecodeError, RecordsError};
pub use field_number::{FieldNumber, Fraction, is_number, number_in};
pub use longer::LongRecords;
pub use not_text::NotText;
pub use number::is_neutral;
pub use options::InputOptions;
pub use reading::{read_first_records, read_records};
pub use records::{FirstRecords, Record, RecordFields, Records, Rows};
pub use shown::shown_text;
