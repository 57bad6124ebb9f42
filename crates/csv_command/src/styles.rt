//! The styles that arguments name: the program's own styles, and the presets.

ghost use Rattle.std.specs.Prelude.{◌≡◌, IfOk, map, option_map};
ghost use Rattle.csv_command.specs.Styles.{compact_style, is_compact, is_named, named_style, own_styles, style_for, style_names, style_within};

use comfy_parts::style::TableStyle;
use comfy_parts::style::presets::{self, ASCII_FULL, ASCII_MARKDOWN, NOTHING, UTF8_FULL};
use std::alloc::{AllocError, Global};

/// The names of styles, the program's own names first. The only error is that memory runs out.
pub(crate) fn style_names(alloc: Global) -> Result<Vec<&'static str>, AllocError>
    ensures { IfOk result (λ names. map (λ name. name.now) names.items ≡ style_names) }
{
    let mut names = names_of(alloc, &own_styles())?;
    names.extend_from_slice(names_of(alloc, &presets::ALL)?.as_slice())?;
    Ok(names)
}

/// The style with this name, in letters of either case. Without a name the style is `rounded`, and
/// for an unknown name `UTF8_FULL`.
pub(crate) fn style_of(name: Option<&str>) -> TableStyle
    ensures { result ≡ style_for (option_map (λ n. n.now) name.entry) }
{
    name.map_or(rounded(), named_style)
}

/// Returns true for the names `rounded` and `box`, and without a name, which means `rounded`. These
/// styles have lines between rows only if a row has more than one line.
pub(crate) fn is_compact(name: Option<&str>) -> bool
    ensures { result ≡ is_compact (option_map (λ n. n.now) name.entry) }
{
    name.is_none_or(|name| is_named("rounded", name) || is_named("box", name))
}

/// Returns true if two names are equal, in letters of either case.
pub(crate) fn is_named(name: &str, word: &str) -> bool
    ensures { result ≡ is_named name.now word.now }
{
    name.eq_ignore_ascii_case(word)
}

fn rounded() -> TableStyle
    ensures { result ≡ compact_style }
{
    UTF8_FULL.with_rounded_corners()
}

// The program's own names, and their styles.
fn own_styles() -> [(&'static str, TableStyle); 6]
    ensures { map (λ entry. (entry.0.now, entry.1)) result ≡ own_styles }
{
    [
        ("rounded", rounded()),
        ("box", UTF8_FULL),
        ("grid", rounded()),
        ("ascii", ASCII_FULL),
        ("plain", NOTHING),
        ("markdown", ASCII_MARKDOWN),
    ]
}

// The names of styles.
fn names_of(
    alloc: Global,
    styles: &[(&'static str, TableStyle)],
) -> Result<Vec<&'static str>, AllocError>
    ensures { IfOk result (λ names. map (λ name. name.now) names.items
        ≡ map (λ entry. entry.0.now) styles.now) }
{
    let mut names = Vec::with_capacity(alloc, styles.len())?;
    for (name, _) in styles {
        names.push(*name)?;
    }
    Ok(names)
}

fn named_style(name: &str) -> TableStyle
    ensures { result ≡ named_style name.now }
{
    match style_within(&own_styles(), name) {
        Some(style) => style,
        None => style_within(&presets::ALL, name).unwrap_or(UTF8_FULL),
    }
}

// The style of the first entry whose name is equal to this name.
fn style_within(styles: &[(&'static str, TableStyle)], name: &str) -> Option<TableStyle>
    ensures { result ≡ style_within (map (λ entry. (entry.0.now, entry.1)) styles.now) name.now }
{
    for (own, style) in styles {
        if is_named(own, name) {
            return Some(*style);
        }
    }
    None
}
