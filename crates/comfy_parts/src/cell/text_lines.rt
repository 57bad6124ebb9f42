//! The text lines of a cell, and the width of each in terminal columns.

ghost use Rattle.std.specs.Prelude.{◌≡◌, ◌==◌, ◌∷◌, [], true, false, nat_lt, IfOk, IfSome, map, string_bytes};
ghost use Rattle.std.specs.List.{list_any, slice_split};
ghost use Rattle.comfy_parts.specs.CellValue.{HasTextLines, plain_cell};
ghost use Rattle.comfy_parts.specs.Text.{is_printable_ascii, measure};
ghost use Rattle.comfy_parts.specs.TextLines.{IsClearLine, IsVisible, texts_of, widths_of};
ghost use Rattle.comfy_parts.specs.VisibleText.{has_escape, visible_text};

use crate::content_split::{
    has_control, has_escape, is_printable, joined_columns, measure_text_width, summed_columns,
    visible_text,
};
use crate::error::Result;
use std::alloc::{AllocError, Global};
use std::marker::Model;
use std::slice;

// The text lines of a cell.
#[derive(Drop)]
pub(crate) struct TextLines {
    kept: Storage,
}

#[derive(Drop)]
enum Storage {
    // a single text line without ESC, as most cells have: it takes no memory except that of its
    // text
    Plain { text: String, width: usize },
    // any other text lines, in a box, so that a cell stays small
    Boxed(Box<BoxedLines>),
}

// Text lines, and their visible texts if a text line contains ESC. The visible texts are stored, so
// that a table can read them several times without taking memory.
#[derive(Drop)]
struct BoxedLines {
    raw: Texts,
    visible: Option<Texts>,
}

// Texts, and the width of each in terminal columns, in the same order. A single text has no list.
#[derive(Drop)]
enum Texts {
    Single {
        text: String,
        width: usize,
    },
    Multiple {
        texts: Vec<String>,
        widths: Vec<usize>,
    },
}

impl Model for TextLines {
    ghost use Rattle.std.specs.Prelude.{List, ℕ};
    ghost use Rattle.comfy_parts.specs.TextLines.{KeepsMeasured, kept_texts};

    ghost Value = { List (List ℕ) };

    ghost view = { λ t. kept_texts t.kept };

    ghost invariant = { λ t. KeepsMeasured t.kept };
}

impl TextLines {
    // The pieces of a text between its line feeds. A text of one line isn't copied.
    pub(crate) fn of_text(alloc: Global, text: String) -> Result<TextLines>
        ensures value { IfOk result (λ lines. lines ≡ (plain_cell (string_bytes text)).text_lines) }
        ensures text_lines { IfOk result HasTextLines }
    {
        if let Some(width) = clear_width(text.as_str()) {
            return Ok(TextLines {
                kept: Storage::Plain { text, width },
            });
        }
        TextLines::several(alloc, text)
    }

    // The single text line of a printable ASCII text, which has neither line feed nor ESC.
    pub(crate) fn of_printable(alloc: Global, text: &str) -> Result<TextLines>
        requires printable { is_printable_ascii text.now ≡ true }
        ensures value { IfOk result (λ lines. lines ≡ (plain_cell text.now).text_lines) }
        ensures text_lines { IfOk result HasTextLines }
    {
        let width = text.len();
        let text = String::from_str(alloc, text)?;
        Ok(TextLines {
            kept: Storage::Plain { text, width },
        })
    }

    // The general case: any number of lines, with or without ESC. Most texts are stored as `Plain`,
    // and this function isn't called for them.
    #[inline(never)]
    fn several(alloc: Global, text: String) -> Result<TextLines>
        ensures value { IfOk result (λ lines. lines ≡ (plain_cell (string_bytes text)).text_lines) }
        ensures text_lines { IfOk result HasTextLines }
    {
        let raw = Texts::of_text(alloc, text)?;
        let visible = raw.visible(alloc)?;
        let several = BoxedLines { raw, visible };
        Ok(TextLines {
            kept: Storage::Boxed(Box::new(alloc, several)?),
        })
    }

    // The text lines with their sequences, and the width of each in terminal columns.
    pub(crate) fn raw(&self) -> (&[String], &[usize])
        ensures texts { map string_bytes result.0.now ≡ self.now }
        ensures widths { result.1.now ≡ map measure self.now }
    {
        match &self.kept {
            Storage::Plain { text, width } => (slice::from_ref(text), slice::from_ref(width)),
            Storage::Boxed(several) => several.raw.measured(),
        }
    }

    // The visible text of each text line, and its width in terminal columns.
    #[tactic(auto, using(crate::proofs::EscapedLemmas::clear_lines, crate::proofs::EscapedLemmas::clear_text))]
    pub(crate) fn visible(&self) -> (&[String], &[usize])
        ensures texts { map string_bytes result.0.now ≡ map visible_text self.now }
        ensures widths { result.1.now ≡ map measure (map visible_text self.now) }
    {
        match &self.kept {
            Storage::Plain { text, width } => (slice::from_ref(text), slice::from_ref(width)),
            Storage::Boxed(several) => match &several.visible {
                Some(visible) => visible.measured(),
                None => several.raw.measured(),
            },
        }
    }

    // Returns true if a text line contains ESC.
    pub(crate) fn has_escape(&self) -> bool
        ensures { result ≡ list_any has_escape self.now }
    {
        match &self.kept {
            Storage::Plain { .. } => false,
            Storage::Boxed(several) => several.visible.is_some(),
        }
    }
}

impl Texts {
    // The pieces of a text between its line feeds.
    fn of_text(alloc: Global, text: String) -> Result<Texts>
        ensures texts { IfOk result
            (λ lines. texts_of lines ≡ slice_split (λ b. b == 0x0A) (string_bytes text)) }
        ensures widths { IfOk result (λ lines. widths_of lines ≡ map measure (texts_of lines)) }
    {
        if !text.contains('\n') {
            return Ok(Texts::one(text));
        }
        let mut texts = Vec::new(alloc);
        let mut widths = Vec::new(alloc);
        for line in text.split('\n') {
            texts.push(String::from_str(alloc, line)?)?;
            widths.push(measure_text_width(line))?;
        }
        Ok(Texts::Multiple { texts, widths })
    }

    fn one(text: String) -> Texts
        ensures texts { texts_of result ≡ string_bytes text ∷ [] }
        ensures widths { widths_of result ≡ map measure (string_bytes text ∷ []) }
    {
        Texts::Single {
            width: measure_text_width(text.as_str()),
            text,
        }
    }

    // The texts, and the width of each in terminal columns.
    fn measured(&self) -> (&[String], &[usize])
        ensures texts { map string_bytes result.0.now ≡ texts_of self.now }
        ensures widths { result.1.now ≡ widths_of self.now }
    {
        match self {
            Texts::Single { text, width } => (slice::from_ref(text), slice::from_ref(width)),
            Texts::Multiple { texts, widths } => (texts.as_slice(), widths.as_slice()),
        }
    }

    fn has_escape(&self) -> bool
        ensures { result ≡ list_any has_escape (texts_of self.now) }
    {
        let (texts, _) = self.measured();
        let mut found = false;
        for text in texts {
            found |= has_escape(text.as_str());
        }
        found
    }

    // The visible texts, which are the texts without their colour sequences. `None` if no text
    // contains ESC.
    fn visible(&self, alloc: Global) -> Result<Option<Texts>>
        ensures { IfOk result (IsVisible self.now) }
    {
        if !self.has_escape() {
            return Ok(None);
        }
        Ok(Some(match self {
            Texts::Single { text, .. } => Texts::one(visible_text(alloc, text.as_str())?),
            Texts::Multiple { texts, .. } => visible_lines(alloc, texts.as_slice())?,
        }))
    }
}

fn visible_lines(alloc: Global, lines: &[String]) -> Result<Texts>
    ensures texts { IfOk result (λ visible. texts_of visible
        ≡ map visible_text (map string_bytes lines.now)) }
    ensures widths { IfOk result (λ visible. widths_of visible ≡ map measure (texts_of visible)) }
{
    let mut texts = Vec::new(alloc);
    let mut widths = Vec::new(alloc);
    for line in lines {
        let visible = visible_text(alloc, line.as_str())?;
        widths.push(measure_text_width(visible.as_str()))?;
        texts.push(visible)?;
    }
    Ok(Texts::Multiple { texts, widths })
}

// The width in terminal columns of a text that is one text line without ESC. `None` for any other
// text.
fn clear_width(text: &str) -> Option<usize>
    ensures { IfSome result (IsClearLine text.now) }
{
    // Printable ASCII is one text line without ESC, and each of its bytes takes one terminal
    // column.
    if is_printable(text.as_bytes()) {
        return Some(text.len());
    }
    // A text whose characters don't join others is one text line without ESC too, because the sum
    // is `None` if there is a control character.
    if let Some(columns) = summed_columns(text) {
        return Some(columns);
    }
    if !is_clear_line(text) {
        return None;
    }
    Some(joined_columns(text))
}

// Returns true if a text is one text line without ESC. For most texts one pass over the bytes is
// enough, because they have no control character at all.
fn is_clear_line(text: &str) -> bool
    ensures unbroken { result ≡ true → list_any (λ b. b == 0x0A) text.now ≡ false }
    ensures clear { result ≡ true → has_escape text.now ≡ false }
{
    if !has_control(text.as_bytes()) {
        return true;
    }
    !text.contains('\n') && !has_escape(text)
}

// A copy has the same lines, in its own memory.
impl Clone for TextLines {
    ghost is_clone = { λ source copy. copy ≡ source };

    fn clone(&self) -> std::result::Result<TextLines, AllocError> {
        let kept = match &self.kept {
            Storage::Plain { text, width } => Storage::Plain {
                text: text.clone()?,
                width: *width,
            },
            Storage::Boxed(several) => Storage::Boxed(several.clone()?),
        };
        Ok(TextLines { kept })
    }
}

impl Clone for BoxedLines {
    ghost use Rattle.comfy_parts.specs.TextLines.{AreMeasured};

    ghost is_clone = { λ source copy. (texts_of copy.raw ≡ texts_of source.raw)
        × (AreMeasured source.raw source.visible → AreMeasured copy.raw copy.visible) };

    fn clone(&self) -> std::result::Result<BoxedLines, AllocError> {
        let raw = self.raw.clone()?;
        let visible = match &self.visible {
            Some(visible) => Some(visible.clone()?),
            None => None,
        };
        Ok(BoxedLines { raw, visible })
    }
}

impl Clone for Texts {
    ghost is_clone = { λ source copy. (texts_of copy ≡ texts_of source)
        × (widths_of copy ≡ widths_of source) };

    fn clone(&self) -> std::result::Result<Texts, AllocError> {
        match self {
            Texts::Single { text, width } => Ok(Texts::Single {
                text: text.clone()?,
                width: *width,
            }),
            Texts::Multiple { texts, widths } => Ok(Texts::Multiple {
                texts: texts.clone()?,
                widths: widths.clone()?,
            }),
        }
    }
}
