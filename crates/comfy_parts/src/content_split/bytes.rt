//! Tests of bytes.

ghost use Rattle.std.specs.Prelude.{◌≡◌, nat_lt};
ghost use Rattle.std.specs.Char.{is_ascii_digit};
ghost use Rattle.std.specs.List.{list_all, list_any};
ghost use Rattle.comfy_parts.specs.Text.{is_printable_ascii};

/// Returns true if all bytes are printable ASCII, from 0x20 to 0x7E, or if there are no bytes. Each
/// byte is then a character of one terminal column.
pub fn is_printable(bytes: &[u8]) -> bool
    ensures { result ≡ is_printable_ascii bytes.now }
{
    // In most other scripts the first byte of a text isn't ASCII. In other texts all bytes are read
    // without a test between them, which is faster for long texts.
    if !bytes.is_empty() && bytes[0] > 0x7e {
        return false;
    }
    let mut highest = 0;
    for byte in bytes {
        // Bytes below the space wrap round to values above all others.
        highest = byte.wrapping_sub(0x20).max(highest);
    }
    highest <= 0x7e - 0x20
}

/// Returns true if at least one of `bytes` is below 0x20. Such a byte is a control character. If
/// there are no bytes, the result is false.
pub fn has_control(bytes: &[u8]) -> bool
    ensures { result ≡ list_any (λ b. nat_lt b 0x20) bytes.now }
{
    let mut found = false;
    for byte in bytes {
        found |= *byte < 0x20;
    }
    found
}

/// Returns true if all bytes are ASCII digits, or if there are no bytes.
pub fn are_digits(bytes: &[u8]) -> bool
    ensures { result ≡ list_all is_ascii_digit bytes.now }
{
    bytes.iter().all(|byte| byte.is_ascii_digit())
}
