//! The requests of a case's lines.

use crate::words::named;
use case_files::Result;

/// The request of a line, which its first word names. `FORMAT.md` of `case_files` describes the
/// requests.
#[derive(Clone, Copy)]
pub enum Request {
    Cell,
    Height,
    Header,
    Row,
    Style,
    Part,
    Column,
    Late,
    Indicator,
    Width,
    Delimiter,
    Arrangement,
    Discover,
    CustomStyling,
    Terminal,
    NoTty,
    Stderr,
    Enforce,
    TextOnly,
}

const REQUESTS: [(&str, Request); 19] = [
    ("cell", Request::Cell),
    ("height", Request::Height),
    ("header", Request::Header),
    ("row", Request::Row),
    ("style", Request::Style),
    ("part", Request::Part),
    ("column", Request::Column),
    ("late", Request::Late),
    ("indicator", Request::Indicator),
    ("width", Request::Width),
    ("delimiter", Request::Delimiter),
    ("arrangement", Request::Arrangement),
    ("discover", Request::Discover),
    ("custom_styling", Request::CustomStyling),
    ("terminal", Request::Terminal),
    ("no_tty", Request::NoTty),
    ("stderr", Request::Stderr),
    ("enforce", Request::Enforce),
    ("text_only", Request::TextOnly),
];

/// Returns the request of a line with this first word, or `NotRead` if the word isn't known.
pub fn request_of(word: &str) -> Result<Request> {
    named(&REQUESTS, word, "a line isn't known")
}
