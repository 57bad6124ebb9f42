//! Bytes as a text in UTF-8, and the numbers of lines.

ghost use Rattle.std.specs.Prelude.{◌≡◌, ◌+◌, ◌-◌, ◌||◌, IfErr, IfOk, IsUtf8, length, take};
ghost use Rattle.csv.specs.Reading.{strip_bom};
ghost use Rattle.csv_records.specs.Input.{IsTextRefusal, is_like_cp1252, is_open_in_cp1252, is_stray_control, line_breaks, line_number};

use crate::error::DecodeError;

/// The bytes as a text, without a copy. `above` is the number of lines of the input before these
/// bytes. The only error is `NotUtf8`, with the line of the first byte that isn't valid in UTF-8.
pub(crate) fn text_of(bytes: &[u8], above: usize) -> Result<&str, DecodeError>
    ensures same { IfOk result (λ text. text.now ≡ bytes.now) }
    ensures is_text { IfOk result (λ _. IsUtf8 bytes.now) }
    ensures refused { IfErr result (λ e. IsTextRefusal above bytes.now e) }
{
    match simdutf8::compat::from_utf8(bytes) {
        Ok(text) => Ok(text),
        Err(error) => Err(DecodeError::NotUtf8 {
            line: line_number(above, &bytes[..error.valid_up_to()]),
            may_be_cp1252: is_like_cp1252(bytes),
        }),
    }
}

// True if a text in Windows-1252 could have each of the bytes.
fn is_like_cp1252(bytes: &[u8]) -> bool
    ensures { result ≡ is_like_cp1252 bytes.now }
{
    bytes.iter().all(|byte| !(is_stray_control(*byte) || is_open_in_cp1252(*byte)))
}

// True for the control characters of ASCII other than TAB, line feed, form feed and carriage
// return.
fn is_stray_control(byte: u8) -> bool
    ensures { result ≡ is_stray_control byte }
{
    byte < 0x20 && !matches!(byte, b'\t' | b'\n' | 0x0C | b'\r') || byte == 0x7F
}

// True for the five bytes that are undefined in Windows-1252.
fn is_open_in_cp1252(byte: u8) -> bool
    ensures { result ≡ is_open_in_cp1252 byte }
{
    matches!(byte, 0x81 | 0x8D | 0x8F | 0x90 | 0x9D)
}

/// The number of the line in which `bytes` end, counted from 1 in the input. `above` is the number
/// of lines of the input before `bytes`. A number above `u64::MAX` becomes `u64::MAX`.
pub(crate) fn line_number(above: usize, bytes: &[u8]) -> u64
    ensures { result ≡ line_number above bytes.now }
{
    (above as u64).saturating_add(line_after(bytes))
}

/// The number of the line in which the last `last` bytes of a text begin, counted from 1 in the
/// input. `above` is the number of lines of the input before the text.
pub(crate) fn line_before(above: usize, text: &str, last: usize) -> u64
    ensures { result ≡ line_number above (take (length text.now - last) text.now) }
{
    line_number(above, &text.as_bytes()[..text.len().saturating_sub(last)])
}

// The number of the line in which `bytes` end, counted from 1 at their start.
fn line_after(bytes: &[u8]) -> u64
    ensures { result ≡ line_breaks bytes.now + 1 }
{
    let mut line = 1;
    let mut after_return = false;
    for byte in bytes {
        if *byte == b'\r' || *byte == b'\n' && !after_return {
            line += 1;
        }
        after_return = *byte == b'\r';
    }
    line
}

// The text without a byte-order mark at its start.
pub(crate) fn without_utf8_mark(text: &str) -> &str
    ensures { result.now ≡ strip_bom text.now }
{
    text.strip_prefix('\u{FEFF}').unwrap_or(text)
}
