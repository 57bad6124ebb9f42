//! Decodes the bytes of an input into a text.

ghost use Rattle.std.specs.Prelude.{◌≡◌, ◌-◌, ◌≤◌, ◌==◌, ◌∷◌, IfErr, IfOk, IsUtf8, drop, is_some, length, string_bytes};
ghost use Rattle.std.specs.Iterator.{YieldsFirst, item_count};
ghost use Rattle.std.specs.String.{string_vec};
ghost use Rattle.csv_records.specs.Lines.{below_line, below_lines, end_len};
ghost use Rattle.csv_records.specs.Encoding.{AreCharactersOf, IsRefusedIn, IsDecoded, IsUtf16Refusal, cp1252_character, cp1252_text, encoding_of, marked_order, order_of, unit, units, utf16_characters, without_utf16_mark};
ghost use Rattle.csv_records.specs.Input.{IsTextRefusal, line_number};
ghost use Rattle.csv_records.specs.Reading.{IsDecodedBy, IsWithoutText};

use crate::error::DecodeError;
use crate::lines::below_lines;
use crate::not_text::not_text_for;
use crate::options::InputOptions;
use crate::text::{line_number, text_of};
use std::alloc::Global;
use std::marker::Model;

/// An encoding of the characters of an input as bytes.
#[derive(Clone, Copy, Debug, PartialEq, Eq)]
pub enum Encoding {
    /// UTF-8. A byte-order mark is part of the text.
    Utf8,
    /// Windows-1252. Its five undefined bytes, 0x81, 0x8D, 0x8F, 0x90 and 0x9D, are decoded as
    /// U+FFFD.
    Cp1252,
    /// UTF-16. A byte-order mark gives the order of the bytes, and isn't part of the text. Without
    /// a mark the bytes are little-endian.
    Utf16,
}

/// Decodes `input` by the encoding `options.encoding`. The result is the text of the input after
/// its first `options.skip` lines.
///
/// If no encoding is set, an input that begins with a byte-order mark of UTF-16 is UTF-16. Any
/// other input is then UTF-8, unless its bytes show another kind of file. If no line is left out,
/// the bytes of an input in UTF-8 become the text without a copy.
///
/// # Errors
///
/// - `NotUtf8`, `NotUtf16`: the bytes aren't valid in the encoding. Bytes of UTF-16 aren't valid if
///   there is a surrogate without a partner, or an odd byte at the end.
/// - `NotText`: no encoding is set, there is no byte-order mark of UTF-16, and the bytes are those
///   of another kind of file.
/// - `OutOfMemory`: there isn't enough memory for the text.
pub fn decoded(alloc: Global, input: Vec<u8>, options: &InputOptions) -> Result<String, DecodeError>
    ensures text { IfOk result (λ text. IsDecodedBy options.now input.items (string_bytes text)) }
    ensures not_copied { IfOk result (λ text.
        encoding_of options.now.encoding input.items ≡ Encoding.Utf8 → options.now.skip ≡ 0
        → string_vec text ≡ input) }
    ensures refused { IfErr result (λ e. IsWithoutText options.now input.items e) }
{
    if let Some(what) = not_text_for(options.encoding, options.skip, input.as_slice()) {
        return Err(DecodeError::NotText(what));
    }
    let encoding = encoding_of(options.encoding, input.as_slice());
    text_below(alloc, input, encoding, options.skip)
}

// The text of an input in an encoding, after its first `skip` lines.
fn text_below(
    alloc: Global,
    input: Vec<u8>,
    encoding: Encoding,
    skip: usize,
) -> Result<String, DecodeError>
    ensures text { IfOk result (λ text.
        IsDecoded encoding skip input.items (string_bytes text)) }
    ensures not_copied { IfOk result (λ text.
        encoding ≡ Encoding.Utf8 → skip ≡ 0 → string_vec text ≡ input) }
    ensures refused { IfErr result (λ e. IsRefusedIn encoding skip input.items e) }
{
    match encoding {
        Encoding::Utf8 => utf8_text(input, skip),
        Encoding::Cp1252 => cp1252_text(alloc, below_lines(input.as_slice(), skip)),
        Encoding::Utf16 => utf16_text(alloc, input.as_slice(), skip),
    }
}

/// The encoding of an input: `encoding`, if it is set. Otherwise the encoding is UTF-16 if the
/// input begins with a byte-order mark of UTF-16, and else UTF-8.
pub(crate) fn encoding_of(encoding: Option<Encoding>, input: &[u8]) -> Encoding
    ensures { result ≡ encoding_of encoding input.now }
{
    match encoding {
        Some(encoding) => encoding,
        None if is_marked(input) => Encoding::Utf16,
        None => Encoding::Utf8,
    }
}

/// Returns true if the input begins with a byte-order mark of UTF-16.
pub(crate) fn is_marked(input: &[u8]) -> bool
    ensures { result ≡ is_some (marked_order input.now) }
{
    marked_order(input).is_some()
}

// The text of an input in UTF-8 after its first `skip` lines. If `skip` is 0, no byte is copied.
fn utf8_text(input: Vec<u8>, skip: usize) -> Result<String, DecodeError>
    ensures text { IfOk result (λ text. string_bytes text ≡ below_lines skip input.items) }
    ensures not_copied { IfOk result (λ text. skip ≡ 0 → string_vec text ≡ input) }
    ensures is_text { IfOk result (λ _. IsUtf8 (below_lines skip input.items)) }
    ensures refused { IfErr result (λ e. IsTextRefusal skip (below_lines skip input.items) e) }
{
    let len = text_of(below_lines(input.as_slice(), skip), skip)?.len();
    let bytes = last_bytes(input, len);
    Ok(unsafe { String::from_utf8_unchecked(bytes) })
}

// The last `len` bytes, in the same memory.
fn last_bytes(mut bytes: Vec<u8>, len: usize) -> Vec<u8>
    requires within { len ≤ length bytes.items }
    ensures items { result.items ≡ drop (length bytes.items - len) bytes.items }
    ensures all { len ≡ length bytes.items → result ≡ bytes }
{
    let before = bytes.len() - len;
    if before > 0 {
        bytes.rotate_left(before);
        bytes.truncate(len);
    }
    bytes
}

// The characters of Windows-1252 for 0x80 to 0x9F; U+FFFD for the five undefined bytes.
const CP1252_FROM_80: [char; 32] = [
    '\u{20AC}', '\u{FFFD}', '\u{201A}', '\u{0192}', '\u{201E}', '\u{2026}', '\u{2020}', '\u{2021}',
    '\u{02C6}', '\u{2030}', '\u{0160}', '\u{2039}', '\u{0152}', '\u{FFFD}', '\u{017D}', '\u{FFFD}',
    '\u{FFFD}', '\u{2018}', '\u{2019}', '\u{201C}', '\u{201D}', '\u{2022}', '\u{2013}', '\u{2014}',
    '\u{02DC}', '\u{2122}', '\u{0161}', '\u{203A}', '\u{0153}', '\u{FFFD}', '\u{017E}', '\u{0178}',
];

// The text of an input in Windows-1252.
fn cp1252_text(alloc: Global, input: &[u8]) -> Result<String, DecodeError>
    ensures text { IfOk result (λ text. string_bytes text ≡ cp1252_text input.now) }
    ensures refused { IfErr result (λ e. e ≡ DecodeError.OutOfMemory) }
{
    let mut text = String::with_capacity(alloc, input.len())?;
    for byte in input {
        text.push(cp1252_character(*byte))?;
    }
    Ok(text)
}

// The character for a byte in Windows-1252.
fn cp1252_character(byte: u8) -> char
    ensures { result ≡ cp1252_character byte }
{
    match byte {
        0x80..=0x9F => CP1252_FROM_80[usize::from(byte - 0x80)],
        _ => char::from(byte),
    }
}

// The order of the two bytes of a unit of UTF-16.
#[derive(Clone, Copy)]
enum ByteOrder {
    LittleEndian,
    BigEndian,
}

// The order of bytes that the byte-order mark at the start of an input gives. `None` without a
// mark.
fn marked_order(input: &[u8]) -> Option<ByteOrder>
    ensures { result ≡ marked_order input.now }
{
    match input {
        [0xFF, 0xFE, ..] => Some(ByteOrder::LittleEndian),
        [0xFE, 0xFF, ..] => Some(ByteOrder::BigEndian),
        _ => None,
    }
}

// The order of bytes that the byte-order mark of an input gives, or little-endian without a mark.
fn order_of(input: &[u8]) -> ByteOrder
    ensures { result ≡ order_of input.now }
{
    marked_order(input).unwrap_or(ByteOrder::LittleEndian)
}

// The input after the byte-order mark, or the whole input if it has no mark.
fn without_utf16_mark(input: &[u8]) -> &[u8]
    ensures { result.now ≡ without_utf16_mark input.now }
{
    match input {
        [0xFF, 0xFE, rest @ ..] | [0xFE, 0xFF, rest @ ..] => rest,
        _ => input,
    }
}

// The text of an input in UTF-16, after its first `skip` lines.
fn utf16_text(alloc: Global, input: &[u8], skip: usize) -> Result<String, DecodeError>
    ensures text { IfOk result (λ text.
        AreCharactersOf (utf16_characters skip input.now) (string_bytes text)) }
    ensures refused { IfErr result (λ e.
        IsUtf16Refusal (utf16_characters skip input.now) skip e) }
{
    let bytes = without_utf16_mark(input);
    let order = order_of(input);
    let mut text = String::with_capacity(alloc, bytes.len() / 2)?;
    for read in char::decode_utf16(units_below(Units { bytes, order }, skip)) {
        match read {
            Ok(character) => text.push(character)?,
            Err(_) => return Err(not_utf16(skip, text.as_str())),
        }
    }
    if bytes.len() % 2 == 1 {
        return Err(not_utf16(skip, text.as_str()));
    }
    Ok(text)
}

// The error if the unit or byte after the text `before` isn't part of a character. `above` is the
// number of lines of the input before this text.
fn not_utf16(above: usize, before: &str) -> DecodeError
    ensures { result ≡ DecodeError.NotUtf16 (line_number above before.now) }
{
    DecodeError::NotUtf16(line_number(above, before.as_bytes()))
}

// The units after the first `count` lines.
fn units_below(units: Units<'_>, count: usize) -> Units<'_>
    ensures { result ≡ below_lines count units.entry }
{
    let mut rest = units;
    for _ in 0..count {
        if rest.is_empty() {
            break;
        }
        rest = rest.below_line();
    }
    rest
}

// An iterator over the units of UTF-16 in `bytes`, each of two bytes. An odd byte at the end is in
// no unit.
#[derive(Drop)]
struct Units<'a> {
    bytes: &'a [u8],
    order: ByteOrder,
}

impl<'a> Model for Units<'a> {
    ghost use Rattle.std.specs.Prelude.{List, ℕ};
    ghost use Rattle.csv_records.specs.Encoding.{units};

    ghost Value = { List ℕ };

    ghost view = { λ u. units u.order u.bytes.now };
}

impl<'a> Units<'a> {
    fn is_empty(&self) -> bool
        ensures { result ≡ (length self.now == 0) }
    {
        self.bytes.len() < 2
    }

    // The units after the first line and its end.
    fn below_line(self) -> Units<'a>
        ensures { result ≡ below_line self.entry }
    {
        let mut rest = self;
        while let Some(unit) = rest.next() {
            if unit == 0x0A {
                return rest;
            }
            if unit == 0x0D {
                return rest.after_feed();
            }
        }
        rest
    }

    // The units after a line end whose carriage return was read before: without a line feed at the
    // start.
    fn after_feed(self) -> Units<'a>
        ensures { result ≡ drop (end_len (0x0D ∷ self.entry) - 1) self.entry }
    {
        match self.bytes {
            [first, second, rest @ ..] if unit(self.order, *first, *second) == 0x0A => Units {
                bytes: rest,
                order: self.order,
            },
            _ => self,
        }
    }
}

impl<'a> Iterator for Units<'a> {
    type Item = u16;

    ghost next_gives = { YieldsFirst (λ left. left) };

    ghost remaining = { item_count (λ left. left) };

    fn next(&mut self) -> Option<u16> {
        let [first, second, rest @ ..] = self.bytes else {
            return None;
        };
        self.bytes = rest;
        Some(unit(self.order, *first, *second))
    }
}

// The unit of UTF-16 that two bytes are in this order.
fn unit(order: ByteOrder, first: u8, second: u8) -> u16
    ensures { result ≡ unit order first second }
{
    match order {
        ByteOrder::LittleEndian => u16::from_le_bytes([first, second]),
        ByteOrder::BigEndian => u16::from_be_bytes([first, second]),
    }
}
