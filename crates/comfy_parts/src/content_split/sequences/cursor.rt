//! A cursor that passes once over the text lines of a cell, and knows the colour sequences that are
//! open at its position. A sequence is open until the next `ESC[0m`.

ghost use Rattle.std.specs.Prelude.{◌≡◌, ◌<◌, ◌++◌, [], true, false, map, take, drop, IfOk, IsUtf8, OnOk, string_bytes};
ghost use Rattle.std.specs.List.{concat};
ghost use Rattle.comfy_parts.specs.Cursor.{IsAfterGap, IsAt, at_byte, begins_with_sequence, past_bytes, bytes_up_to, character_parts, open_at_end, past_sequence, visible_ahead, sequence_part};
ghost use Rattle.comfy_parts.specs.Text.{begins_with};
ghost use Rattle.comfy_parts.specs.VisibleText.{opened_by, parts};
ghost use Rattle.comfy_parts.specs.Written.{written};

use crate::content_split::sequences::{RESET, TextPart, TextParts, split_sequence, split_visible};
use crate::error::Result;
use std::alloc::Global;
use std::marker::Model;

/// A position in a text line of a cell, and the colour sequences that are open there. A sequence is
/// open until the next `ESC[0m`, also in later text lines.
#[derive(Drop)]
pub(crate) struct Cursor<'a> {
    rest: &'a str,
    sequences: Vec<&'a str>,
}

impl<'a> Model for Cursor<'a> {
    ghost use Rattle.std.specs.Prelude.{IsUtf8, map};
    ghost use Rattle.comfy_parts.specs.VisibleText.{parts};
    ghost use Rattle.comfy_parts.specs.Cursor.{CursorValue};

    ghost Value = { CursorValue };

    ghost invariant = { λ c. IsUtf8 c.rest.now };

    ghost view = { λ c. record {
      sequences = map (λ s. s.now) c.sequences.items;
      ahead = parts c.rest.now;
    } };
}

impl<'a> Cursor<'a> {
    /// A cursor before the first text line of a cell, at which no sequence is open.
    pub(crate) fn new(alloc: Global) -> Cursor<'a>
        ensures { result ≡ record { sequences = []; ahead = [] } }
    {
        Cursor {
            rest: "",
            sequences: Vec::new(alloc),
        }
    }

    /// Moves to the front of `text`, the next text line of the cell. Sequences that are open at the
    /// end of the text line before it remain open. The only error is `OutOfMemory`.
    pub(crate) fn begin(&mut self, text: &'a str) -> Result<()>
        ensures { OnOk result (self.new ≡ record {
          sequences = open_at_end self.old;
          ahead = parts text.now;
        }) }
    {
        for part in TextParts(self.rest) {
            if let TextPart::Sequence(sequence) = part {
                self.add(sequence)?;
            }
        }
        self.rest = text;
        Ok(())
    }

    /// Passes the sequences and the delimiters before the next line. The only error is
    /// `OutOfMemory`.
    pub(crate) fn pass_gap(&mut self, delimiter: char) -> Result<()>
        ensures { OnOk result (IsAfterGap delimiter self.old self.new) }
    {
        self.pass_sequences()?;
        'gap: while self.pass_delimiter(delimiter) {
            self.pass_sequences()?;
        }
        Ok(())
    }

    /// Returns the text that is written for a line of `bytes` visible bytes, and passes these
    /// bytes. The text begins with the open sequences, and ends with `ESC[0m` if a sequence is then
    /// open. For 0 bytes it is empty. The only error is `OutOfMemory`.
    pub(crate) fn take_line(&mut self, bytes: usize) -> Result<String>
        requires { IsUtf8 (take bytes (visible_ahead self.old)) }
        ensures written { IfOk result
            (λ line. string_bytes line ≡ written bytes (at_byte 0 self.old)) }
        ensures is_at { OnOk result (IsAt self.new bytes self.old) }
        ensures visible { OnOk result
            (visible_ahead self.new ≡ drop bytes (visible_ahead self.old)) }
    {
        if bytes == 0 {
            return Ok(String::new(*self.sequences.allocator()));
        }
        self.pass_sequences()?;
        let mut line = self.resumed()?;
        line.push_str(self.take_visible(bytes)?)?;
        if !self.sequences.is_empty() {
            line.push_str(RESET)?;
        }
        Ok(line)
    }

    // The open sequences, joined.
    fn resumed(&self) -> Result<String>
        ensures { IfOk result (λ text. string_bytes text ≡ concat self.now.sequences) }
    {
        let sequences = self.sequences.as_slice();
        Ok(sequences.concat(*self.sequences.allocator())?)
    }

    // Passes `bytes` visible bytes and the sequences before each of them, and returns the text that
    // was passed.
    fn take_visible(&mut self, bytes: usize) -> Result<&'a str>
        requires { IsUtf8 (take bytes (visible_ahead self.old)) }
        ensures taken { IfOk result (λ taken. taken.now ≡ bytes_up_to bytes self.old) }
        ensures passed { OnOk result (self.new ≡ past_bytes bytes self.old) }
        ensures visible { OnOk result
            (visible_ahead self.new ≡ drop bytes (visible_ahead self.old)) }
    {
        let text = self.rest;
        self.pass_visible(bytes)?;
        let (taken, _) = text.split_at(text.len() - self.rest.len());
        Ok(taken)
    }

    // Passes `bytes` visible bytes and the sequences before each of them, or the whole rest of the
    // text line if it has fewer.
    fn pass_visible(&mut self, bytes: usize) -> Result<()>
        requires { IsUtf8 (take bytes (visible_ahead self.old)) }
        ensures passed { OnOk result (self.new ≡ past_bytes bytes self.old) }
        ensures visible { OnOk result
            (visible_ahead self.new ≡ drop bytes (visible_ahead self.old)) }
    {
        let mut left = bytes;
        'bytes: while left > 0 {
            if self.pass_sequence()? {
                continue;
            }
            let (passed, after) = split_visible(self.rest, left);
            self.rest = after;
            if passed.is_empty() {
                return Ok(());
            }
            left -= passed.len();
        }
        Ok(())
    }

    // Passes the sequences at the position of the cursor.
    fn pass_sequences(&mut self) -> Result<()>
        ensures { OnOk result (self.new ≡ at_byte 0 self.old) }
    {
        'sequences: while self.pass_sequence()? {}
        Ok(())
    }

    // Passes a sequence at the position of the cursor. Returns true if there is one.
    fn pass_sequence(&mut self) -> Result<bool>
        ensures passed { IfOk result (λ passed. passed ≡ begins_with_sequence self.old.ahead) }
        ensures after { OnOk result (self.new ≡ past_sequence self.old) }
    {
        let Some((sequence, after)) = split_sequence(self.rest) else {
            return Ok(false);
        };
        self.rest = after;
        self.add(sequence)?;
        Ok(true)
    }

    // Adds a sequence to the open ones, or closes all if it is a reset.
    fn add(&mut self, sequence: &'a str) -> Result<()>
        ensures { OnOk result (self.new ≡ record self.old {
          sequences = opened_by self.old.sequences (sequence_part sequence.now);
        }) }
    {
        if sequence == RESET {
            self.sequences.clear();
        } else {
            self.sequences.push(sequence)?;
        }
        Ok(())
    }

    // Passes a delimiter at the position of the cursor. Returns true if there is one.
    fn pass_delimiter(&mut self, delimiter: char) -> bool
        requires { begins_with_sequence self.old.ahead ≡ false }
        ensures passed { result ≡ true → self.old ≡ record self.new {
          ahead = character_parts delimiter ++ self.new.ahead;
        } }
        ensures stays { result ≡ false → self.new ≡ self.old }
        ensures other { result ≡ false → begins_with delimiter (visible_ahead self.old) ≡ false }
    {
        let Some(after) = self.rest.strip_prefix(delimiter) else {
            return false;
        };
        self.rest = after;
        true
    }
}
