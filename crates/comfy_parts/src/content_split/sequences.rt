//! Colour sequences (SGR) in texts: ESC, `[`, any number of digits, `;` and `:`, then `m`. They
//! take no terminal columns.

ghost use Rattle.std.specs.Prelude.{◌≡◌, ◌<◌, ◌≤◌, ◌∷◌, ◌++◌, ◌==◌, not, length, map, take, slice_index, IfNone, IfOk, IfSome, IsUtf8, string_bytes};
ghost use Rattle.std.specs.Str.{IsCharBoundary};
ghost use Rattle.std.specs.Iterator.{item_count};
ghost use Rattle.comfy_parts.specs.Cursor.{GivesPart, sequence_part, visible_part};
ghost use Rattle.comfy_parts.specs.VisibleText.{has_escape, is_parameter, open_after, parts, sequence_len, visible_text};

pub(crate) mod cursor;
pub mod written;

use crate::error::Result;
use std::alloc::Global;

// The first byte of a sequence.
const ESC: u8 = 0x1b;

// The sequence that closes all others.
pub(crate) const RESET: &str = "\u{1b}[0m";

/// Returns true if a text contains ESC. A text without ESC has no colour sequence.
pub(crate) fn has_escape(text: &str) -> bool
    ensures { result ≡ has_escape text.now }
{
    let bytes = text.as_bytes();
    // All bytes are read without a test between them, which is faster.
    let mut found = false;
    for byte in bytes {
        found |= *byte == ESC;
    }
    found
}

/// A part of a text: a sequence, or visible text.
#[derive(Clone, Copy)]
pub(crate) enum TextPart<'a> {
    Sequence(&'a str),
    // visible text up to the next ESC; its own first byte may be an ESC that begins no sequence
    Visible(&'a str),
}

/// An iterator over the remaining parts of a text, in order.
#[derive(Drop)]
pub(crate) struct TextParts<'a>(&'a str);

impl<'a> Iterator for TextParts<'a> {
    type Item = TextPart<'a>;

    ghost next_gives = { λ old part new. GivesPart (parts old.0.now) part (parts new.0.now) };

    ghost remaining = { item_count (λ left. parts left.0.now) };

    fn next(&mut self) -> Option<TextPart<'a>> {
        if let Some((sequence, rest)) = split_sequence(self.0) {
            self.0 = rest;
            return Some(TextPart::Sequence(sequence));
        }
        let (visible, rest) = split_visible(self.0, usize::MAX);
        self.0 = rest;
        if visible.is_empty() {
            return None;
        }
        Some(TextPart::Visible(visible))
    }
}

/// The visible text of a text, which is the text without its colour sequences (SGR). The text is
/// searched once: bytes that form a sequence only after another sequence is removed stay in the
/// text. The only error is `OutOfMemory`.
pub fn visible_text(alloc: Global, text: &str) -> Result<String>
    ensures { IfOk result (λ visible. string_bytes visible ≡ visible_text text.now) }
{
    let mut joined = String::with_capacity(alloc, text.len())?;
    for part in TextParts(text) {
        if let TextPart::Visible(visible) = part {
            joined.push_str(visible)?;
        }
    }
    Ok(joined)
}

/// Returns true if a text leaves a colour sequence (SGR) open: it has a sequence, and its last
/// sequence isn't `ESC[0m`.
pub fn leaves_sequence_open(text: &str) -> bool
    ensures { result ≡ not (length (open_after (parts text.now)) == 0) }
{
    let mut is_open = false;
    for part in TextParts(text) {
        if let TextPart::Sequence(sequence) = part {
            is_open = sequence != RESET;
        }
    }
    is_open
}

/// The sequence at the front of a text, and the text after it. `None` if the text doesn't begin
/// with a sequence.
pub(crate) fn split_sequence(text: &str) -> Option<(&str, &str)>
    ensures some { IfSome result (λ halves. parts text.now
        ≡ sequence_part halves.0.now ∷ parts halves.1.now) }
    ensures whole { IfSome result (λ halves. IsUtf8 halves.1.now) }
    ensures none { IfNone result (sequence_len text.now ≡ 0) }
{
    let len = sequence_len(text);
    if len == 0 {
        return None;
    }
    Some(text.split_at(len))
}

/// The visible text up to the next ESC, at most `most` bytes, and the text after it. The text must
/// not begin with a sequence.
pub(crate) fn split_visible(text: &str, most: usize) -> (&str, &str)
    requires none { sequence_len text.now ≡ 0 }
    requires fits { most ≤ length text.now → IsUtf8 (take most (visible_text text.now)) }
    ensures parts { parts text.now ≡ map visible_part result.0.now ++ parts result.1.now }
    ensures whole { IsUtf8 result.0.now }
    ensures whole_after { IsUtf8 result.1.now }
    ensures within { length result.0.now ≤ most }
    ensures some { 0 < most → 0 < length text.now → 0 < length result.0.now }
    ensures next { length result.0.now < most → 0 < length result.1.now
        → slice_index result.1.now 0 ≡ 0x1b }
{
    let bytes = text.as_bytes();
    let end = bytes.len().min(most);
    if end == 0 {
        return ("", text);
    }
    // A first byte ESC is visible, because the text doesn't begin with a sequence.
    let mut run = 1;
    'run: while run < end && bytes[run] != ESC {
        run += 1;
    }
    text.split_at(run)
}

/// The length in bytes of the colour sequence (SGR) at the front of a text, 0 if the text doesn't
/// begin with one. A sequence is ESC, `[`, any number of digits, `;` and `:`, then `m`.
pub fn sequence_len(text: &str) -> usize
    ensures value { result ≡ sequence_len text.now }
    ensures boundary { IsCharBoundary text.now result }
{
    let bytes = text.as_bytes();
    if bytes.len() < 3 || bytes[0] != ESC || bytes[1] != b'[' {
        return 0;
    }
    let mut end = 2;
    'parameters: while end < bytes.len() && is_parameter(bytes[end]) {
        end += 1;
    }
    if end < bytes.len() && bytes[end] == b'm' {
        end + 1
    } else {
        0
    }
}

// Returns true if the byte is a digit, `;` or `:`, which are the bytes between ESC `[` and `m`.
fn is_parameter(byte: u8) -> bool
    ensures { result ≡ is_parameter byte }
{
    byte.is_ascii_digit() || byte == b';' || byte == b':'
}
