//! The lines of a wrapped text, one after another.

ghost use Rattle.std.specs.Prelude.{◌≡◌, ◌<◌, ◌≤◌, ◌∷◌, [], IfSome, None, false, length, map};
ghost use Rattle.std.specs.Iterator.{YieldsFirstBy, item_count};
ghost use Rattle.comfy_parts.specs.Following.{AreColumnsUpTo, IsAtLine, IsMeasuredAtEnd, IsWideFrom};
ghost use Rattle.comfy_parts.specs.Laws.{IsPrintable};
ghost use Rattle.comfy_parts.specs.Lines.{IsAtNext};
ghost use Rattle.comfy_parts.specs.Text.{begins_with, greatest, measure};
ghost use Rattle.comfy_parts.specs.Wrapping.{IsWrapped, wrapped};

use crate::content_split::bytes::is_printable;
use crate::content_split::display_info::ColumnDisplayInfo;
use crate::content_split::ends::{Measured, first_element, line_end, line_start, measured_element};
use crate::content_split::printable::{printable_line_end, printable_longest_line};
use crate::content_split::width::{measure_text_width, wide_end};
use std::marker::Model;

// If a text has more than this many bytes for each terminal column of a line, its first word may be
// very long. Then the word isn't measured as a whole.
const FAR: usize = 32;

/// An iterator over the remaining lines of a wrapped text, in order. Each line is borrowed from the
/// text, and the iterator takes no memory.
#[derive(Drop)]
pub struct WrappedLines<'a> {
    // the text from the first character of the next line on
    rest: &'a str,
    next: Next,
    width: usize,
    delimiter: char,
}

// The known facts about the text at the start of a line.
#[derive(Clone, Copy)]
enum Next {
    // text and delimiter are printable ASCII, and the width is at least 1
    Printable,
    // any other text, with its first element
    Element(Element),
}

// The first element of a text that is wrapped.
#[derive(Clone, Copy)]
struct Element {
    // the bytes of the element
    len: usize,
    // the width of the element in terminal columns; if the element is wider than a line, any number
    // above the width of a line
    columns: usize,
    // each suffix of the element with at least this many bytes is wider than a line; more bytes
    // than the element has if no such number is known
    wide: usize,
}

impl<'a> Model for WrappedLines<'a> {
    ghost use Rattle.std.specs.Prelude.{List, ℕ};
    ghost use Rattle.comfy_parts.specs.Lines.{IsAtNext};
    ghost use Rattle.comfy_parts.specs.Wrapping.{wrapped};

    ghost Value = { List (List ℕ) };

    ghost view = { λ s. wrapped s.width s.delimiter s.rest.now };

    ghost invariant = { λ s. IsAtNext s.next s.width s.delimiter s.rest.now };
}

/// Returns an iterator over the lines into which `split_line` wraps a text line. The lines are
/// borrowed from the text, so no memory is taken.
#[inline(always)]
pub fn wrapped_lines<'a>(
    line: &'a str,
    info: &ColumnDisplayInfo,
    delimiter: char,
) -> WrappedLines<'a>
    ensures lines { result ≡ wrapped info.now.content_width delimiter line.now }
    ensures slices { IsWrapped info.now.content_width delimiter line.now result }
{
    let width = usize::from(info.content_width);
    if width > 0 && (' '..='~').contains(&delimiter) && is_printable(line.as_bytes()) {
        return printable_lines(line, width, delimiter);
    }
    lines_after(line, width, delimiter, None)
}

// The lines of a printable ASCII text. Delimiters at its front are skipped.
fn printable_lines<'a>(text: &'a str, width: usize, delimiter: char) -> WrappedLines<'a>
    requires printable { IsPrintable width delimiter text.now }
    ensures { result ≡ wrapped width delimiter text.now }
{
    let rest = line_start(text, delimiter);
    lines_from(rest, Next::Printable, width, delimiter)
}

// The first line of a printable ASCII text, and the text from the next line on.
#[inline(always)]
fn split_printable_line(text: &str, width: usize, delimiter: char) -> (&str, &str)
    requires printable { IsPrintable width delimiter text.now }
    requires begins { begins_with delimiter text.now ≡ false }
    requires some { 0 < length text.now }
    ensures lines { wrapped width delimiter text.now
        ≡ result.0.now ∷ wrapped width delimiter result.1.now }
    ensures columns { length result.0.now ≡ measure result.0.now }
    ensures printable { IsPrintable width delimiter result.1.now }
    ensures begins { begins_with delimiter result.1.now ≡ false }
{
    let end = printable_line_end(text.as_bytes(), width, delimiter);
    let (line, after) = text.split_at(end);
    (line, line_start(after, delimiter))
}

// The lines of a text. Delimiters at its front are skipped. If `measured` is about the first
// element after these delimiters, and the element fits a line, the element isn't measured again.
fn lines_after<'a>(
    text: &'a str,
    width: usize,
    delimiter: char,
    measured: Option<Measured>,
) -> WrappedLines<'a>
    requires narrow { width ≤ 65535 }
    requires measured { IfSome measured
        (λ m. IsMeasuredAtEnd delimiter text.now m.left m.first m.columns) }
    ensures { result ≡ wrapped width delimiter text.now }
{
    let rest = line_start(text, delimiter);
    if let Some(next) = measured
        && next.left == rest.len()
        && next.columns <= width
    {
        let (len, columns, wide) = (next.first, next.columns, next.first + 1);
        let next = Next::Element(Element { len, columns, wide });
        return lines_from(rest, next, width, delimiter);
    }
    if rest.len() / FAR > width {
        let (word, _) = first_element(rest, delimiter);
        let wide = wide_end(word, width);
        let (len, columns) = (word.len(), columns_up_to(word, wide, width));
        let next = Next::Element(Element { len, columns, wide });
        return lines_from(rest, next, width, delimiter);
    }
    let (word, _, columns) = measured_element(rest, delimiter);
    let (len, wide) = (word.len(), word.len() + 1);
    let next = Next::Element(Element { len, columns, wide });
    lines_from(rest, next, width, delimiter)
}

// The lines of a text. The facts `next` about its first line are known.
fn lines_from<'a>(rest: &'a str, next: Next, width: usize, delimiter: char) -> WrappedLines<'a>
    requires at { IsAtNext next width delimiter rest.now }
    ensures { result ≡ wrapped width delimiter rest.now }
{
    WrappedLines {
        rest,
        next,
        width,
        delimiter,
    }
}

// The first line of a text that begins with this element, the line's width in terminal columns if
// it is known, and the lines after it.
fn split_at_element<'a>(
    rest: &'a str,
    element: Element,
    width: usize,
    delimiter: char,
) -> (&'a str, Option<usize>, WrappedLines<'a>)
    requires at { IsAtLine width delimiter rest.now element.len element.columns element.wide }
    requires some { 0 < length rest.now }
    ensures lines { wrapped width delimiter rest.now ≡ result.0.now ∷ result.2 }
    ensures columns { IfSome result.1 (λ columns. columns ≡ measure result.0.now) }
{
    let taken = line_end(rest, element.len, element.columns, width, delimiter);
    let (line, after) = rest.split_at(taken.bytes);
    if taken.bytes >= element.len {
        let lines = lines_after(after, width, delimiter, taken.measured);
        return (line, taken.columns, lines);
    }
    // The line ends inside a long element. The rest of the element begins the next line.
    let (len, wide) = (element.len - taken.bytes, element.wide);
    let columns = columns_up_to(after.split_at(len).0, wide, width);
    let next = Next::Element(Element { len, columns, wide });
    let lines = lines_from(after, next, width, delimiter);
    (line, taken.columns, lines)
}

impl<'a> WrappedLines<'a> {
    /// Returns the next line and its width in terminal columns, or `None` after the last line. The
    /// line itself is measured only if it has a part of a word that is too wide for a line, or if
    /// `adds_one_column` is false for the delimiter. Otherwise its width is the sum of the widths
    /// of its words and delimiters, which are known.
    #[inline(always)]
    pub fn next_measured(&mut self) -> Option<(&'a str, usize)>
        ensures ended { result ≡ None → self.old ≡ [] }
        ensures line { IfSome result (λ line. self.old ≡ line.0.now ∷ self.new) }
        ensures columns { IfSome result (λ line. line.1 ≡ measure line.0.now) }
    {
        let (line, columns) = self.next_line()?;
        let columns = match columns {
            Some(columns) => columns,
            None => measure_text_width(line),
        };
        Some((line, columns))
    }

    // The next line, and its width in terminal columns if it is known without measuring the line.
    #[inline(always)]
    fn next_line(&mut self) -> Option<(&'a str, Option<usize>)>
        ensures ended { result ≡ None → (self.old ≡ []) × (self.new ≡ []) }
        ensures line { IfSome result (λ line. self.old ≡ line.0.now ∷ self.new) }
        ensures columns { IfSome result
            (λ line. IfSome line.1 (λ columns. columns ≡ measure line.0.now)) }
    {
        if self.rest.is_empty() {
            return None;
        }
        match self.next {
            Next::Printable => {
                let (line, rest) = split_printable_line(self.rest, self.width, self.delimiter);
                self.rest = rest;
                Some((line, Some(line.len())))
            }
            Next::Element(element) => {
                let (line, columns, lines) = split_at_element(
                    self.rest,
                    element,
                    self.width,
                    self.delimiter,
                );
                *self = lines;
                Some((line, columns))
            }
        }
    }

    /// The width of the widest remaining line in terminal columns; 0 if no line remains.
    pub fn longest(self) -> usize
        ensures { result ≡ greatest (map measure self.entry) }
    {
        if matches!(self.next, Next::Printable) {
            return printable_longest_line(self.rest.as_bytes(), self.width, self.delimiter);
        }
        let mut longest = 0;
        let mut lines = self;
        while let Some((_line, columns)) = lines.next_measured() {
            longest = columns.max(longest);
        }
        longest
    }
}

impl<'a> Iterator for WrappedLines<'a> {
    type Item = &'a str;

    ghost next_gives = { YieldsFirstBy (λ line. line.now) (λ lines. lines) };

    ghost remaining = { item_count (λ lines. lines) };

    fn next(&mut self) -> Option<&'a str> {
        let (line, _) = self.next_line()?;
        Some(line)
    }
}

// The width of a word in terminal columns. If the word has at least `wide` bytes, it is wider than
// a line: then it isn't measured, and the result is `width + 1`.
fn columns_up_to(word: &str, wide: usize, width: usize) -> usize
    requires wide { IsWideFrom width wide word.now }
    requires narrow { width ≤ 65535 }
    ensures { AreColumnsUpTo width result word.now }
{
    if word.len() >= wide {
        width + 1
    } else {
        measure_text_width(word)
    }
}
