//! Replaces control characters in fields, and characters that change the direction of text, so that
//! a terminal shows each character in the terminal column that the table has for it.

ghost use Rattle.std.specs.Prelude.{◌≡◌, ◌∷◌, [], IfNone, IfOk, IfSome, OnOk, chars, if◌then◌else◌, not, string_bytes};
ghost use Rattle.std.specs.Iterator.{YieldsFirstBy, item_count};
ghost use Rattle.std.specs.List.{list_any};
ghost use Rattle.std.specs.Str.{IsCharBoundary};
ghost use Rattle.comfy_parts.specs.Text.{is_printable_ascii};
ghost use Rattle.comfy_parts.specs.VisibleText.{sequence_len};
ghost use Rattle.csv_records.specs.Cleaning.{after_character, after_piece, blanks_after, cleaned, is_harmful, is_replaced, may_begin_replaced, pieces, shown, start, turns_direction};
ghost use Rattle.csv_records.specs.Pieces.{part_of};

use crate::characters::split_first;
use comfy_parts::content_split::{is_printable, measure_text_width, sequence_len};
use std::alloc::{AllocError, Global};
use std::marker::Model;

// The number of terminal columns from one tab stop to the next.
const TAB_WIDTH: usize = 4;

/// Returns `field` as it is drawn. A TAB becomes one to four spaces, up to the next multiple of
/// four terminal columns in its line. A line break, which is a line feed, a carriage return, or a
/// carriage return with a line feed, becomes a line feed. Every other control character becomes
/// U+FFFD, and so does each character that changes the direction of text (U+202A to U+202E, U+2066
/// to U+2069). SGR sequences stay if `keeps_sequences` is true, and take no terminal columns. The
/// only error is that memory runs out.
pub fn cleaned(alloc: Global, field: &str, keeps_sequences: bool) -> Result<String, AllocError>
    ensures { IfOk result (λ text. string_bytes text ≡ cleaned keeps_sequences field.now) }
{
    if is_clean(field) {
        return String::from_str(alloc, field);
    }
    let mut cleaner = Cleaner::new(alloc);
    let pieces = Pieces {
        rest: field,
        keeps_sequences,
    };
    for piece in pieces {
        cleaner.push_piece(piece)?;
    }
    Ok(cleaner.text)
}

// True if a field is drawn as it is. Printable ASCII is tested first, because most fields consist
// of it and this test is faster.
fn is_clean(field: &str) -> bool
    ensures { result ≡ not (list_any is_harmful (chars field.now)) }
{
    is_printable(field.as_bytes()) || !has_harmful(field)
}

/// Returns true if a field is one line that `cleaned` leaves unchanged. Such a field has no control
/// character, for example no line feed and no TAB, and no character that changes the direction of
/// text. Printable ASCII is tested first, because most fields consist of it and this test is
/// faster.
#[inline(always)]
pub fn is_clean_line(field: &str) -> bool
    ensures { result ≡ not (list_any is_replaced (chars field.now)) }
{
    is_printable(field.as_bytes()) || !has_replaced(field)
}

// True if a field has a character for which `is_replaced` is true. Bytes are tested first, because
// few scripts have characters whose UTF-8 begins with the same bytes.
fn has_replaced(field: &str) -> bool
    ensures { result ≡ list_any is_replaced (chars field.now) }
{
    may_hold_replaced(field.as_bytes()) && field.chars().any(is_replaced)
}

// True if a byte may begin the UTF-8 of a character for which `is_replaced` is true.
fn may_hold_replaced(bytes: &[u8]) -> bool
    ensures { result ≡ list_any may_begin_replaced bytes.now }
{
    // A loop over all bytes without a branch is faster.
    let mut found = false;
    for byte in bytes {
        found |= may_begin_replaced(*byte);
    }
    found
}

// True if this byte may begin the UTF-8 of a character for which `is_replaced` is true.
fn may_begin_replaced(byte: u8) -> bool
    ensures { result ≡ may_begin_replaced byte }
{
    (byte < 0x20) | (byte == 0x7F) | (byte == 0xC2) | (byte == 0xE2)
}

fn has_harmful(field: &str) -> bool
    ensures { result ≡ list_any is_harmful (chars field.now) }
{
    field.chars().any(is_harmful)
}

// True if a character mustn't be drawn: it is a control character other than a line feed, or it
// changes the direction of text.
fn is_harmful(c: char) -> bool
    ensures { result ≡ is_harmful c }
{
    is_replaced(c) && c != '\n'
}

/// Returns true if a character is a control character, also a line feed, or changes the direction
/// of text. Such a character isn't drawn as it is, except that a line feed breaks the line.
fn is_replaced(c: char) -> bool
    ensures { result ≡ is_replaced c }
{
    c.is_control() || turns_direction(c)
}

// True if a character changes the direction of the text after it.
fn turns_direction(c: char) -> bool
    ensures { result ≡ turns_direction c }
{
    matches!(c, '\u{202a}'..='\u{202e}' | '\u{2066}'..='\u{2069}')
}

// A piece of a field: an SGR sequence that is kept, or a character.
#[derive(Clone, Copy)]
enum Piece<'a> {
    Sequence(&'a str),
    Character(char),
}

// An iterator over the pieces of a field. `rest` is the part of the field that is left.
#[derive(Drop)]
struct Pieces<'a> {
    rest: &'a str,
    keeps_sequences: bool,
}

impl<'a> Model for Pieces<'a> {
    ghost use Rattle.std.specs.Prelude.{List, chars};
    ghost use Rattle.comfy_parts.specs.VisibleText.{Part};
    ghost use Rattle.csv_records.specs.Cleaning.{pieces};

    ghost Value = { List Part };

    ghost view = { λ p. pieces p.keeps_sequences (chars p.rest.now) };
}

impl<'a> Iterator for Pieces<'a> {
    type Item = Piece<'a>;

    ghost next_gives = { YieldsFirstBy part_of (λ left. left) };

    ghost remaining = { item_count (λ left. left) };

    fn next(&mut self) -> Option<Piece<'a>> {
        let (piece, rest) = first_piece(self.rest, self.keeps_sequences)?;
        self.rest = rest;
        Some(piece)
    }
}

// The piece at the start of a text, and the text after it, or `None` if the text is empty.
fn first_piece(text: &str, keeps_sequences: bool) -> Option<(Piece<'_>, &str)>
    ensures some { IfSome result (λ halves. pieces keeps_sequences (chars text.now)
        ≡ part_of halves.0 ∷ pieces keeps_sequences (chars halves.1.now)) }
    ensures none { IfNone result (pieces keeps_sequences (chars text.now) ≡ []) }
{
    let len = kept_len(text, keeps_sequences);
    if len > 0 {
        let (sequence, rest) = text.split_at(len);
        return Some((Piece::Sequence(sequence), rest));
    }
    let (c, rest) = split_first(text)?;
    Some((Piece::Character(c), rest))
}

// The number of bytes of the SGR sequence at the start of a text; 0 if there is none, or if
// sequences aren't kept.
fn kept_len(text: &str, keeps_sequences: bool) -> usize
    ensures value { result ≡ (if keeps_sequences then sequence_len text.now else 0) }
    ensures boundary { IsCharBoundary text.now result }
{
    if keeps_sequences {
        sequence_len(text)
    } else {
        0
    }
}

// The state while a field is cleaned: the text that is written so far, and how it goes on.
#[derive(Drop)]
struct Cleaner {
    text: String,
    // the visible part of the last line of `text`, after the last tab stop that a TAB reached
    seen: String,
    // true if the last character of the field that was read is a carriage return
    after_return: bool,
}

impl Model for Cleaner {
    ghost use Rattle.std.specs.Prelude.{string_bytes};
    ghost use Rattle.csv_records.specs.Cleaning.{CleanedText};

    ghost Value = { CleanedText };

    ghost view = { λ c. record {
      text = string_bytes c.text;
      seen = string_bytes c.seen;
      after_return = c.after_return;
    } };
}

impl Cleaner {
    fn new(alloc: Global) -> Cleaner
        ensures { result ≡ start }
    {
        Cleaner {
            text: String::new(alloc),
            seen: String::new(alloc),
            after_return: false,
        }
    }

    // Writes a piece as it is drawn.
    fn push_piece(&mut self, piece: Piece<'_>) -> Result<(), AllocError>
        ensures { OnOk result (self.new ≡ after_piece self.old (part_of piece.entry)) }
    {
        match piece {
            Piece::Sequence(sequence) => {
                self.after_return = false;
                self.text.push_str(sequence)
            }
            Piece::Character(c) => self.push(c),
        }
    }

    // Writes a character as it is drawn.
    fn push(&mut self, c: char) -> Result<(), AllocError>
        ensures { OnOk result (self.new ≡ after_character self.old c) }
    {
        let follows_return = self.after_return;
        self.after_return = c == '\r';
        if c == '\n' && follows_return {
            return Ok(());
        }
        if c == '\n' || c == '\r' {
            self.seen.clear();
            return self.text.push('\n');
        }
        if c == '\t' {
            let blanks = blanks_after(self.seen.as_str());
            self.seen.clear();
            return self.text.push_str(blanks);
        }
        let drawn = shown(c);
        self.seen.push(drawn)?;
        self.text.push(drawn)
    }
}

// The spaces from the end of a text to the next tab stop. The text begins at a tab stop.
fn blanks_after(seen: &str) -> &'static str
    ensures { result.now ≡ blanks_after seen.now }
{
    match measure_text_width(seen) % TAB_WIDTH {
        0 => "    ",
        1 => "   ",
        2 => "  ",
        _ => " ",
    }
}

// U+FFFD for a character for which `is_replaced` is true, and otherwise the character itself.
pub(crate) fn shown(c: char) -> char
    ensures { result ≡ shown c }
{
    if is_replaced(c) { '\u{fffd}' } else { c }
}
