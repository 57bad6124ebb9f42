//! Recognises inputs that aren't CSV in UTF-8 by their bytes.

ghost use Rattle.std.specs.Prelude.{◌≡◌, ◌==◌};
ghost use Rattle.std.specs.List.{position};
ghost use Rattle.csv_records.specs.NotText.{begins_json, begins_with, begins_with_word, is_html, is_like_json, is_like_utf16, not_text_below, not_text_by_front, not_text_by_nuls, not_text_for, not_text_in, nul_line, without_front};

use crate::encoding::{Encoding, is_marked};
use crate::lines::below_lines;
use crate::text::line_number;
use memchr::memchr;
use thiserror::Error;

/// A kind of input that isn't CSV in UTF-8. The bytes of an input show its kind. For `Json`,
/// `Html`, `Utf16` and `Binary`, the bytes of lines that `InputOptions::skip` leaves out don't
/// count.
#[derive(Clone, Copy, Debug, PartialEq, Eq, Error)]
pub enum NotText {
    /// A file of gzip: it begins with the bytes 0x1F and 0x8B.
    #[error("compressed by gzip")]
    Gzip,
    /// A zip archive, as many spreadsheets are: it begins with `PK` and the bytes 3 and 4.
    #[error("a zip archive")]
    Zip,
    /// A file of xz: it begins with the byte 0xFD, `7zXZ` and NUL.
    #[error("compressed by xz")]
    Xz,
    /// A file of zstd: it begins with the bytes 0x28, 0xB5, 0x2F and 0xFD.
    #[error("compressed by zstd")]
    Zstd,
    /// A file of bzip2 with blocks of the usual size: it begins with `BZh91AY&SY`.
    #[error("compressed by bzip2")]
    Bzip2,
    /// A PDF document: it begins with `%PDF-`.
    #[error("a PDF document")]
    Pdf,
    /// JSON: the first two bytes that are no white space are `{"`, `[{`, `[[` or `["`.
    #[error("JSON")]
    Json,
    /// An HTML page: it begins with `<!doctype html` or `<html` in any case of letters, perhaps
    /// after white space.
    #[error("an HTML page")]
    Html,
    /// UTF-16 without a byte-order mark: every second one of the first four bytes is NUL, and the
    /// other two aren't.
    #[error("UTF-16 without a mark")]
    Utf16,
    /// Not a text, because it has a NUL byte. The value is the number of the line with the first
    /// NUL byte, counted as for `DecodeError`.
    #[error("line {0} has a NUL byte")]
    Binary(u64),
}

/// The kind of an input that isn't CSV in UTF-8, or `None` if its bytes show no such kind. Always
/// `None` if an encoding is set, or if the input begins with a byte-order mark of UTF-16. JSON,
/// HTML and NUL bytes are looked for after the first `skip` lines.
pub(crate) fn not_text_for(encoding: Option<Encoding>, skip: usize, input: &[u8]) -> Option<NotText>
    ensures { result ≡ not_text_for encoding skip input.now }
{
    match encoding {
        Some(_) => None,
        None if is_marked(input) => None,
        None => not_text_in(skip, input),
    }
}

// The kind of an input by its first bytes, or by the bytes below the lines that are left out.
fn not_text_in(skip: usize, input: &[u8]) -> Option<NotText>
    ensures { result ≡ not_text_in skip input.now }
{
    match not_text_by_front(input) {
        Some(kind) => Some(kind),
        None => not_text_below(skip, below_lines(input, skip)),
    }
}

// The kind of an input that begins as files of that kind do.
fn not_text_by_front(input: &[u8]) -> Option<NotText>
    ensures { result ≡ not_text_by_front input.now }
{
    if begins_with(input, b"\x1F\x8B") {
        Some(NotText::Gzip)
    } else if begins_with(input, b"PK\x03\x04") {
        Some(NotText::Zip)
    } else if begins_with(input, b"\xFD7zXZ\0") {
        Some(NotText::Xz)
    } else if begins_with(input, b"\x28\xB5\x2F\xFD") {
        Some(NotText::Zstd)
    } else if begins_with(input, b"BZh91AY&SY") {
        Some(NotText::Bzip2)
    } else if begins_with(input, b"%PDF-") {
        Some(NotText::Pdf)
    } else {
        None
    }
}

// True if `bytes` begin with `front`.
fn begins_with(bytes: &[u8], front: &[u8]) -> bool
    ensures { result ≡ begins_with front.now bytes.now }
{
    &bytes[..front.len().min(bytes.len())] == front
}

// The kind of the bytes after the first `above` lines of an input: JSON, HTML, or bytes with a NUL.
fn not_text_below(above: usize, bytes: &[u8]) -> Option<NotText>
    ensures { result ≡ not_text_below above bytes.now }
{
    if is_like_json(bytes) {
        return Some(NotText::Json);
    }
    if is_html(bytes) {
        return Some(NotText::Html);
    }
    not_text_by_nuls(above, bytes)
}

fn is_like_json(bytes: &[u8]) -> bool
    ensures { result ≡ is_like_json bytes.now }
{
    let first = without_front(bytes);
    begins_json(first, without_front(&first[first.len().min(1)..]))
}

// The bytes without the white space of ASCII at the front.
fn without_front(bytes: &[u8]) -> &[u8]
    ensures { result.now ≡ without_front bytes.now }
{
    bytes.trim_ascii_start()
}

// True if the first bytes of `first` and of `second` may begin JSON, and don't begin a usual header
// of CSV.
fn begins_json(first: &[u8], second: &[u8]) -> bool
    ensures { result ≡ begins_json first.now second.now }
{
    matches!(
        (first, second),
        ([b'{', ..], [b'"', ..]) | ([b'[', ..], [b'{' | b'[' | b'"', ..])
    )
}

// True if bytes begin as an HTML page does.
fn is_html(bytes: &[u8]) -> bool
    ensures { result ≡ is_html bytes.now }
{
    let first = without_front(bytes);
    begins_with_word(first, "<!doctype html") || begins_with_word(first, "<html")
}

// True if bytes begin with a word, in any case of letters.
fn begins_with_word(bytes: &[u8], word: &str) -> bool
    ensures { result ≡ begins_with_word word.now bytes.now }
{
    bytes[..word.len().min(bytes.len())].eq_ignore_ascii_case(word.as_bytes())
}

// The kind of the bytes after the first `above` lines of an input, if they have a NUL byte.
fn not_text_by_nuls(above: usize, bytes: &[u8]) -> Option<NotText>
    ensures { result ≡ not_text_by_nuls above bytes.now }
{
    if is_like_utf16(bytes) {
        return Some(NotText::Utf16);
    }
    nul_line(above, bytes).map(NotText::Binary)
}

// True if every second one of the first four bytes is NUL, and the other two aren't.
fn is_like_utf16(bytes: &[u8]) -> bool
    ensures { result ≡ is_like_utf16 bytes.now }
{
    matches!(
        bytes,
        [1..=255, 0, 1..=255, 0, ..] | [0, 1..=255, 0, 1..=255, ..]
    )
}

// The number of the line with the first NUL byte. `above` is the number of lines before `bytes`.
fn nul_line(above: usize, bytes: &[u8]) -> Option<u64>
    ensures { result ≡ nul_line above bytes.now }
{
    let at = first_nul(bytes)?;
    Some(line_number(above, &bytes[..at]))
}

// The index of the first NUL byte.
fn first_nul(bytes: &[u8]) -> Option<usize>
    ensures { result ≡ position (λ b. b == 0) bytes.now }
{
    memchr(0, bytes)
}
