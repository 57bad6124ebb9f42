//! The options with which a caller decides how an input is read.

use crate::delimiter::Delimiter;
use crate::encoding::Encoding;

/// The options with which an input is decoded into a text, and the text is split into records.
#[derive(Clone, Copy, Debug)]
pub struct InputOptions {
    /// The encoding of the input. With `None`, an input that begins with a byte-order mark of
    /// UTF-16 is UTF-16, and any other input is UTF-8.
    pub encoding: Option<Encoding>,
    /// The number of lines at the beginning of the input that are left out. Their bytes may be
    /// invalid in the encoding. In any encoding, a line ends at a line feed, a carriage return, or
    /// a carriage return with a line feed, also between quotes.
    pub skip: usize,
    /// The byte or the white space that separates fields, or the rule that finds the byte.
    pub delimiter: Delimiter,
    /// True if the first line that isn't blank, after the lines that `skip` leaves out, is a
    /// header. `has_header` has an effect only for `Delimiter::Spaces`. The header then helps to
    /// find the number of columns. Without a header, a first line like `total 92`, which `ls -l`
    /// writes, is left out.
    pub has_header: bool,
    /// True if double quotes may enclose a field, and aren't part of it. A quote that opens a field
    /// and is never closed is then an error. If `has_quotes` is false, or for `Delimiter::Spaces`,
    /// quotes are ordinary characters.
    pub has_quotes: bool,
}
