//! Lines whose fields are below the names of a first line, as `docker ps` and `kubectl get` write
//! them.

ghost use Rattle.std.specs.Prelude.{◌≡◌, ◌++◌, IfOk, OnOk, chars, map, option_map, string_bytes};
ghost use Rattle.std.specs.List.{list_all};
ghost use Rattle.csv_records.specs.BelowNames.{columns_of, columns_text, fits, name_starts, starts_of, with_space};

use crate::characters::split_first;
use std::alloc::{AllocError, Global};

/// The positions in the first line, counted in characters from 0, at which names begin after three
/// spaces or more. `None` if there are fewer than two such positions, or if a line doesn't fit
/// them. A line fits if it has two spaces or more before each of these positions, and if nothing
/// begins after two spaces or more at any other position. The only error is that memory runs out.
pub(crate) fn name_starts(alloc: Global, lines: &[&str]) -> Result<Option<Vec<usize>>, AllocError>
    ensures { IfOk result (λ found. option_map (λ starts. starts.items) found
        ≡ name_starts (map (λ line. line.now) lines.now)) }
{
    let [first, ..] = lines else {
        return Ok(None);
    };
    let starts = starts_of(alloc, first)?;
    if starts.len() >= 2 && all_fit(lines, starts.as_slice()) {
        Ok(Some(starts))
    } else {
        Ok(None)
    }
}

// The positions in a line, counted in characters from 0, at which names begin after three spaces or
// more.
fn starts_of(alloc: Global, line: &str) -> Result<Vec<usize>, AllocError>
    ensures { IfOk result (λ starts. starts.items ≡ starts_of (chars line.now)) }
{
    let mut starts = Vec::new(alloc);
    let mut rest = line;
    let mut at = 0;
    let mut spaces = 0usize;
    while let Some((c, after)) = split_first(rest) {
        if spaces >= 3 && c != ' ' {
            starts.push(at)?;
        }
        spaces = if c == ' ' { spaces + 1 } else { 0 };
        at += 1;
        rest = after;
    }
    Ok(starts)
}

fn all_fit(lines: &[&str], starts: &[usize]) -> bool
    ensures { result ≡ list_all (λ line. fits starts.now (chars line))
        (map (λ line. line.now) lines.now) }
{
    lines.iter().all(|line| fits(line, starts))
}

fn fits(line: &str, starts: &[usize]) -> bool
    ensures { result ≡ fits starts.now (chars line.now) }
{
    let mut rest = line;
    let mut at = 0;
    let mut spaces = 0usize;
    while let Some((c, after)) = split_first(rest) {
        let is_fit = if starts.contains(&at) {
            spaces >= 2
        } else {
            c == ' ' || spaces < 2
        };
        if !is_fit {
            return false;
        }
        spaces = if c == ' ' { spaces + 1 } else { 0 };
        at += 1;
        rest = after;
    }
    true
}

/// The text of `lines`, with a TAB before the character at each position of `starts`. A line feed
/// ends each line. Single spaces before a character stay, and all other spaces are left out. A TAB
/// in a line becomes a space. The only error is that memory runs out.
pub(crate) fn columns_text(
    alloc: Global,
    lines: &[&str],
    starts: &[usize],
) -> Result<String, AllocError>
    ensures { IfOk result (λ text. string_bytes text
        ≡ columns_text starts.now (map (λ line. line.now) lines.now)) }
{
    let mut text = String::new(alloc);
    for line in lines {
        push_columns(&mut text, line, starts)?;
        text.push('\n')?;
    }
    Ok(text)
}

// Appends a line as `columns_text` writes it, without the line feed.
fn push_columns(text: &mut String, line: &str, starts: &[usize]) -> Result<(), AllocError>
    ensures { OnOk result (string_bytes text.new
        ≡ string_bytes text.old ++ columns_of starts.now (chars line.now)) }
{
    let mut rest = line;
    let mut at = 0;
    let mut spaces = 0usize;
    while let Some((c, after)) = split_first(rest) {
        text.push_str(if starts.contains(&at) { "\t" } else { "" })?;
        push_with_space(text, spaces, c)?;
        spaces = if c == ' ' { spaces + 1 } else { 0 };
        at += 1;
        rest = after;
    }
    Ok(())
}

// Appends a character of a field, and before it a space if exactly one space precedes it. Appends
// nothing for a space, and a space for a TAB.
fn push_with_space(text: &mut String, spaces: usize, c: char) -> Result<(), AllocError>
    ensures { OnOk result (string_bytes text.new ≡ string_bytes text.old ++ with_space spaces c) }
{
    if c == ' ' {
        return Ok(());
    }
    text.push_str(if spaces == 1 { " " } else { "" })?;
    text.push(if c == '\t' { ' ' } else { c })
}
