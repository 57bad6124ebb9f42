//! A border and the spaces on its sides, which are copied together.

ghost use Rattle.std.specs.Prelude.{◌≡◌, ◌++◌, IfOk, IfSome, OnOk, string_bytes};
ghost use Rattle.comfy_parts.specs.Text.{spaces};
ghost use Rattle.comfy_table.specs.Gaps.{drawn_character};

use crate::utils::formatting::borders::push_border;
use comfy_parts::Result;
use std::alloc::Global;
use std::marker::Model;

/// The part of a line before, between or after the texts of cells: spaces, a border, and spaces.
#[derive(Drop)]
pub struct Gap {
    // true if the border is drawn, and its character
    drawn: bool,
    part: Option<char>,
    // the border between two runs of spaces, so that a gap is a slice of it
    text: String,
    // the length of the border in bytes
    border_len: usize,
}

impl Model for Gap {
    ghost use Rattle.std.specs.Prelude.{◌≡◌, ◌++◌, List, ℕ, length, string_bytes};
    ghost use Rattle.comfy_parts.specs.Text.{spaces};
    ghost use Rattle.comfy_table.specs.Gaps.{drawn_character};

    ghost Value = { List ℕ };

    ghost invariant = { λ g. (string_bytes g.text
        ≡ spaces 64 ++ (drawn_character g.drawn g.part ++ spaces 64))
        × (g.border_len ≡ length (drawn_character g.drawn g.part)) };

    ghost view = { λ g. drawn_character g.drawn g.part };
}

impl Gap {
    /// A gap with the character `part` of the style as its border, or with a space if `part` is
    /// `None`. If `drawn` is false, the gap has no border. The only error is `OutOfMemory`.
    pub fn new(alloc: Global, drawn: bool, part: Option<char>) -> Result<Gap>
        ensures { IfOk result (λ gap. gap ≡ drawn_character drawn part) }
    {
        let run = run_of_spaces();
        let mut text = String::with_capacity(alloc, 2 * run.len() + 4)?;
        text.push_str(run)?;
        push_border(&mut text, drawn, part)?;
        let border_len = text.len() - run.len();
        text.push_str(run)?;
        Ok(Gap {
            drawn,
            part,
            text,
            border_len,
        })
    }

    /// Appends `before` spaces, the border of the gap, and `after` spaces. The only error is
    /// `OutOfMemory`; `text` may then have a part of the gap.
    #[inline(always)]
    pub fn push(&self, text: &mut String, before: usize, after: usize) -> Result<()>
        ensures { OnOk result (string_bytes text.new
            ≡ string_bytes text.old ++ (spaces before ++ (self.now ++ spaces after))) }
    {
        let run = run_of_spaces().len();
        if before > run || after > run {
            return self.push_long(text, before, after);
        }
        let (_, rest) = self.text.as_str().split_at(run - before);
        let (gap, _) = rest.split_at(before + self.border_len + after);
        text.push_str(gap)?;
        Ok(())
    }

    // Appends a gap with more spaces than `text` has.
    #[inline(never)]
    fn push_long(&self, text: &mut String, before: usize, after: usize) -> Result<()>
        ensures { OnOk result (string_bytes text.new
            ≡ string_bytes text.old ++ (spaces before ++ (self.now ++ spaces after))) }
    {
        push_spaces(text, before)?;
        push_border(text, self.drawn, self.part)?;
        push_spaces(text, after)
    }
}

/// Appends `count` spaces to a text. The only error is `OutOfMemory`; fewer spaces may then be
/// appended.
pub fn push_spaces(text: &mut String, count: usize) -> Result<()>
    ensures { OnOk result (string_bytes text.new ≡ string_bytes text.old ++ spaces count) }
{
    let run = run_of_spaces();
    let mut left = count;
    while left > run.len() {
        text.push_str(run)?;
        left -= run.len();
    }
    let (front, _) = run.split_at(left);
    text.push_str(front)?;
    Ok(())
}

/// A text of `count` spaces; `None` if `count` is above 64.
pub fn few_spaces(count: usize) -> Option<&'static str>
    ensures { IfSome result (λ few. few.now ≡ spaces count) }
{
    let run = run_of_spaces();
    if count > run.len() {
        return None;
    }
    let (front, _) = run.split_at(count);
    Some(front)
}

// 64 spaces, the most that are copied at once.
fn run_of_spaces() -> &'static str
    ensures { result.now ≡ spaces 64 }
{
    "                                                                "
}
