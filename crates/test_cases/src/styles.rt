//! Makes presets and parts of a style from words.

use crate::words::optional_character;
use case_files::{Fault, Result};
use comfy_table::style::presets::by_name;
use comfy_table::style::{ContentLineStyle, LineStyle, TableStyle};
use std::alloc::Global;

/// Returns the preset that the first word names, changed by the modifiers after it: `rounded` and
/// `solid`. Returns `NotRead` if a word isn't known.
pub fn read_style(words: &[&str]) -> Result<TableStyle> {
    let Some((name, modifiers)) = words.split_first() else {
        return Err(Fault::NotRead("a style has a name"));
    };
    let Some(mut style) = by_name(name) else {
        return Err(Fault::NotRead("a style isn't known"));
    };
    for modifier in modifiers {
        style = match *modifier {
            "rounded" => style.with_rounded_corners(),
            "solid" => style.with_solid_inner_borders(),
            _ => return Err(Fault::NotRead("a modifier isn't known")),
        };
    }
    Ok(style)
}

/// Sets one of the six parts of a style. The first word names the part, and each word after it is a
/// character, or `_` for none. Returns `NotRead` if a word can't be read.
pub fn set_part(alloc: Global, style: &mut TableStyle, words: &[&str]) -> Result<()> {
    let Some((name, words)) = words.split_first() else {
        return Err(Fault::NotRead("a part has three or four characters"));
    };
    let characters = characters(alloc, words)?;
    match characters.as_slice() {
        [left, fill, junction, right] => {
            let line = LineStyle {
                left: *left,
                fill: *fill,
                junction: *junction,
                right: *right,
            };
            set_frame_part(style, name, line)
        }
        [left, junction, right] => {
            let line = ContentLineStyle {
                left: *left,
                junction: *junction,
                right: *right,
            };
            set_content_part(style, name, line)
        }
        _ => Err(Fault::NotRead("a part has three or four characters")),
    }
}

fn characters(alloc: Global, words: &[&str]) -> Result<Vec<Option<char>>> {
    let mut characters = Vec::new(alloc);
    for word in words {
        characters.push(optional_character(alloc, word)?)?;
    }
    Ok(characters)
}

fn set_frame_part(style: &mut TableStyle, name: &str, line: LineStyle) -> Result<()> {
    match name {
        "top" => style.top_border = line,
        "separator" => style.header_separator = line,
        "row" => style.row_separator = line,
        "bottom" => style.bottom_border = line,
        _ => return Err(Fault::NotRead("a part of four characters isn't known")),
    }
    Ok(())
}

fn set_content_part(style: &mut TableStyle, name: &str, line: ContentLineStyle) -> Result<()> {
    match name {
        "header" => style.header_lines = line,
        "content" => style.content_lines = line,
        _ => return Err(Fault::NotRead("a part of three characters isn't known")),
    }
    Ok(())
}
