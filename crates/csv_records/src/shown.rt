//! Texts for messages, without characters that a terminal would obey instead of showing them.

ghost use Rattle.std.specs.Prelude.{◌≡◌, IfOk, chars, false, string_bytes};
ghost use Rattle.std.specs.List.{list_any};
ghost use Rattle.csv_records.specs.Cleaning.{is_harmful};
ghost use Rattle.csv_records.specs.Shown.{shown_in, shown_text};

use crate::cleaning::shown;
use std::alloc::{AllocError, Global};

/// A copy of `text` for a message. U+FFFD replaces each control character, and each character that
/// changes the direction of text (U+202A to U+202E, U+2066 to U+2069). Line feeds stay if
/// `keeps_breaks` is true. The only error is that memory runs out.
pub fn shown_text(alloc: Global, text: &str, keeps_breaks: bool) -> Result<String, AllocError>
    ensures value { IfOk result (λ t. string_bytes t ≡ shown_text keeps_breaks text.now) }
    ensures harmless { IfOk result (λ t. list_any is_harmful (chars (string_bytes t))
        ≡ false) }
{
    let mut shown = String::new(alloc);
    for c in text.chars() {
        shown.push(shown_in(keeps_breaks, c))?;
    }
    Ok(shown)
}

fn shown_in(keeps_breaks: bool, c: char) -> char
    ensures { result ≡ shown_in keeps_breaks c }
{
    if keeps_breaks && c == '\n' {
        c
    } else {
        shown(c)
    }
}
