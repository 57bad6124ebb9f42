//! Reads texts whose fields are separated by spaces, as in the output of `df -h` and `ls -l`. A
//! *gap* is a run of spaces and TABs in a line.

ghost use Rattle.std.specs.Prelude.{◌≡◌, ◌++◌, ◌∷◌, [], IfOk, OnOk, false, length, map, max, option_map, string_bytes};
ghost use Rattle.std.specs.List.{list_any, position_or_len, prefix_len};
ghost use Rattle.csv_records.specs.Number.{halves};
ghost use Rattle.csv_records.specs.Spaces.{begins_with_digit, column_gaps, fewest_gaps, filled_lines, after_field, first_field, gaps_from, is_gap, is_indented, is_total, lacks_name, line_gaps, lines_text, most_gaps, name_gap, spaced, tabbed_line, tabbed_lines, tabbed_text, trimmed_line};

use crate::below_names::{columns_text, name_starts};
use std::alloc::{AllocError, Global};

/// The text with a TAB in place of each gap between its fields. Blank lines are left out. If there
/// is a header, a first line like `total 92` is the header, and otherwise it is left out. The only
/// error is that memory runs out.
pub(crate) fn tabbed_text(alloc: Global, text: &str, has_header: bool) -> Result<String, AllocError>
    ensures { IfOk result (λ tabbed. string_bytes tabbed ≡ tabbed_text has_header text.now) }
{
    let filled = filled_lines(alloc, text)?;
    match filled.as_slice() {
        [first, lines @ ..] if is_total(first) => {
            let mut tabbed = String::new(alloc);
            if has_header {
                push_line(&mut tabbed, first, 0)?;
            }
            tabbed.push_str(tabbed_lines(alloc, lines, false)?.as_str())?;
            Ok(tabbed)
        }
        lines => tabbed_lines(alloc, lines, has_header),
    }
}

/// Lines with TABs between their fields. If all fields are below the names of the first line
/// (`name_starts`), a field begins below each name. Otherwise gaps separate fields, and white space
/// of ASCII at the ends of a line is ignored. The last column takes the rest of a line, with a
/// space for each TAB.
///
/// If `has_names` is true, there are as many columns as the first line has fields, but no more than
/// the fullest line below it has. If only the first line begins with a gap, and it has one field
/// less than that fullest line, its first field is empty. If `has_names` is false, there are as
/// many columns as the line with the fewest fields has, and at least two.
fn tabbed_lines(alloc: Global, lines: &[&str], has_names: bool) -> Result<String, AllocError>
    ensures { IfOk result (λ tabbed. string_bytes tabbed
        ≡ tabbed_lines has_names (map (λ line. line.now) lines.now)) }
{
    match name_starts(alloc, lines)? {
        Some(starts) => columns_text(alloc, lines, starts.as_slice()),
        None if has_names => lines_text(alloc, name_gap(lines), lines, column_gaps(lines)),
        None => lines_text(alloc, "", lines, fewest_gaps(lines).max(1)),
    }
}

// The text `first`, and then each line with TABs in place of its first `gaps` gaps.
fn lines_text(alloc: Global, first: &str, lines: &[&str], gaps: usize) -> Result<String, AllocError>
    ensures { IfOk result (λ text. string_bytes text
        ≡ first.now ++ lines_text gaps (map (λ line. line.now) lines.now)) }
{
    let mut text = String::from_str(alloc, first)?;
    for line in lines {
        push_line(&mut text, line, gaps)?;
    }
    Ok(text)
}

// Appends a line with TABs in place of its first `gaps` gaps, and a line feed.
fn push_line(text: &mut String, line: &str, gaps: usize) -> Result<(), AllocError>
    ensures { OnOk result (string_bytes text.new
        ≡ string_bytes text.old ++ lines_text gaps (line.now ∷ [])) }
{
    push_tabbed(text, trimmed_line(line), gaps)?;
    text.push('\n')
}

// The lines of a text that aren't blank.
fn filled_lines(alloc: Global, text: &str) -> Result<Vec<&str>, AllocError>
    ensures { IfOk result (λ lines. map (λ line. line.now) lines.items ≡ filled_lines text.now) }
{
    let mut lines = Vec::new(alloc);
    for line in text.split('\n') {
        if !trimmed_line(line).is_empty() {
            lines.push(line)?;
        }
    }
    Ok(lines)
}

// True for a line like `total 92`, which `ls -l` writes above its list.
fn is_total(line: &str) -> bool
    ensures { result ≡ is_total line.now }
{
    let (word, rest) = split_field(line);
    word == "total" && begins_with_digit(rest.as_bytes())
}

fn begins_with_digit(bytes: &[u8]) -> bool
    ensures { result ≡ begins_with_digit bytes.now }
{
    matches!(bytes, [b'0'..=b'9', ..])
}

// A line without the white space of ASCII at its ends.
fn trimmed_line(line: &str) -> &str
    ensures { result.now ≡ trimmed_line line.now }
{
    line.trim_ascii()
}

// The number of gaps between columns that have names: that of the first line, but no more than that
// of the fullest line below it. If the first column has no name, that of the fullest line.
fn column_gaps(lines: &[&str]) -> usize
    ensures { result ≡ column_gaps (map (λ line. line.now) lines.now) }
{
    match lines {
        [] => 0,
        [first] => line_gaps(first),
        [_, others @ ..] if lacks_name(lines) => most_gaps(others),
        [first, others @ ..] => line_gaps(first).min(most_gaps(others)),
    }
}

// A TAB if the first column has no name, and otherwise an empty text.
fn name_gap(lines: &[&str]) -> &'static str
    ensures { result.now ≡ name_gap (map (λ line. line.now) lines.now) }
{
    if lacks_name(lines) { "\t" } else { "" }
}

// True if the first column has no name: only the first line begins with a gap, and the fullest line
// below it has one field more.
fn lacks_name(lines: &[&str]) -> bool
    ensures { result ≡ lacks_name (map (λ line. line.now) lines.now) }
{
    match lines {
        [] => false,
        [first, others @ ..] => {
            is_indented(first)
                && !any_indented(others)
                && most_gaps(others).saturating_sub(line_gaps(first)) == 1
        }
    }
}

fn any_indented(lines: &[&str]) -> bool
    ensures { result ≡ list_any is_indented (map (λ line. line.now) lines.now) }
{
    for line in lines {
        if is_indented(line) {
            return true;
        }
    }
    false
}

fn is_indented(line: &str) -> bool
    ensures { result ≡ is_indented line.now }
{
    match line.as_bytes() {
        [first, ..] => is_gap(*first),
        [] => false,
    }
}

// The greatest number of gaps of a line.
fn most_gaps(lines: &[&str]) -> usize
    ensures { result ≡ most_gaps (map (λ line. line.now) lines.now) }
{
    let mut most = 0usize;
    for line in lines {
        most = most.max(line_gaps(line));
    }
    most
}

// The number of gaps of the line with the fewest gaps.
fn fewest_gaps(lines: &[&str]) -> usize
    ensures { result ≡ fewest_gaps (map (λ line. line.now) lines.now) }
{
    let [first, others @ ..] = lines else {
        return 0;
    };
    let mut fewest = line_gaps(first);
    for line in others {
        fewest = fewest.min(line_gaps(line));
    }
    fewest
}

// The number of gaps of a line.
fn line_gaps(line: &str) -> usize
    ensures { result ≡ line_gaps line.now }
{
    gaps_of(trimmed_line(line).as_bytes())
}

// The number of gaps of a line that has no white space at its ends.
fn gaps_of(line: &[u8]) -> usize
    ensures { result ≡ gaps_from false line.now }
{
    let mut gaps = 0;
    let mut begun = false;
    for byte in line {
        if is_gap(*byte) && !begun {
            gaps += 1;
        }
        begun = is_gap(*byte);
    }
    gaps
}

// True for a space or a TAB.
fn is_gap(byte: u8) -> bool
    ensures { result ≡ is_gap byte }
{
    byte == b' ' || byte == b'\t'
}

// Appends a line with TABs in place of its first `gaps` gaps, or of all gaps if there are fewer.
fn push_tabbed(text: &mut String, line: &str, gaps: usize) -> Result<(), AllocError>
    ensures { OnOk result (string_bytes text.new
        ≡ string_bytes text.old ++ tabbed_line gaps line.now) }
{
    let mut rest = line;
    for _ in 0..gaps {
        let (field, after) = split_field(rest);
        if after.is_empty() {
            break;
        }
        text.push_str(field)?;
        text.push('\t')?;
        rest = after;
    }
    push_spaced(text, rest)
}

// The first field of a line, and the text after the gap that follows this field.
fn split_field(line: &str) -> (&str, &str)
    ensures field { result.0.now ≡ first_field line.now }
    ensures after { result.1.now ≡ after_field line.now }
{
    let (field, rest) = line.split_at(field_len(line.as_bytes()));
    (field, rest.split_at(gap_len(rest.as_bytes())).1)
}

// The number of bytes before the first gap.
fn field_len(bytes: &[u8]) -> usize
    ensures { result ≡ position_or_len is_gap bytes.now }
{
    bytes.iter().take_while(|byte| !is_gap(**byte)).count()
}

// The number of bytes of the gap at the start.
fn gap_len(bytes: &[u8]) -> usize
    ensures { result ≡ prefix_len is_gap bytes.now }
{
    bytes.iter().take_while(|byte| is_gap(**byte)).count()
}

// Appends the rest of a line, with a space for each TAB.
fn push_spaced(text: &mut String, line: &str) -> Result<(), AllocError>
    ensures { OnOk result (string_bytes text.new ≡ string_bytes text.old ++ spaced line.now) }
{
    let mut rest = line;
    while let Some((before, after)) = split_tab(rest) {
        text.push_str(before)?;
        text.push(' ')?;
        rest = after;
    }
    text.push_str(rest)?;
    Ok(())
}

// The texts before and after the first TAB, or `None` if there is no TAB.
fn split_tab(line: &str) -> Option<(&str, &str)>
    ensures { option_map (λ parts. (parts.0.now, parts.1.now)) result ≡ halves 0x09 line.now }
{
    line.split_once('\t')
}
