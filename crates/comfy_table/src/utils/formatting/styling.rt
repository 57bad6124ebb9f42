//! Colours and attributes as escape sequences: ESC, `[`, a code, `m`.

ghost use Rattle.std.specs.Prelude.{◌≡◌, ◌++◌, OnOk, codes, filter, flat_map, string_bytes};
ghost use Rattle.comfy_parts.specs.VisibleText.{reset};
ghost use Rattle.comfy_table.specs.ColorSequences.{color_sequence};
ghost use Rattle.comfy_table.specs.TextStyles.{styling};
ghost use Rattle.comfy_table.specs.Styling.{sequence, color_code, attribute_code, has_attribute, attribute_sequences, style_begin, style_end};

use crate::utils::formatting::text_style::TextStyle;
use comfy_parts::Result;
use comfy_parts::style::{Attribute, Color};

// All attributes, in the order in which they are written.
const ALL_ATTRIBUTES: [Attribute; 28] = [
    Attribute::Reset,
    Attribute::Bold,
    Attribute::Dim,
    Attribute::Italic,
    Attribute::Underlined,
    Attribute::DoubleUnderlined,
    Attribute::Undercurled,
    Attribute::Underdotted,
    Attribute::Underdashed,
    Attribute::SlowBlink,
    Attribute::RapidBlink,
    Attribute::Reverse,
    Attribute::Hidden,
    Attribute::CrossedOut,
    Attribute::Fraktur,
    Attribute::NoBold,
    Attribute::NormalIntensity,
    Attribute::NoItalic,
    Attribute::NoUnderline,
    Attribute::NoBlink,
    Attribute::NoReverse,
    Attribute::NoHidden,
    Attribute::NotCrossedOut,
    Attribute::Framed,
    Attribute::Encircled,
    Attribute::OverLined,
    Attribute::NotFramedOrEncircled,
    Attribute::NotOverLined,
];

/// Appends the sequences before a styled text: background, foreground, attributes. Appends nothing
/// if the style has neither a colour nor an attribute. The only error is `OutOfMemory`; `line` may
/// then have a part of the sequences.
pub(crate) fn push_style_begin(line: &mut String, style: &TextStyle<'_>) -> Result<()>
    ensures { OnOk result (string_bytes line.new
        ≡ string_bytes line.old ++ style_begin (styling style.now)) }
{
    push_color(line, style.background, "\u{1b}[48;", "\u{1b}[49m")?;
    push_color(line, style.foreground, "\u{1b}[38;", "\u{1b}[39m")?;
    push_attributes(line, style.attributes)
}

/// Appends the sequences after a styled text, which end its style. Appends nothing if the style has
/// neither a colour nor an attribute. The only error is `OutOfMemory`; `line` may then have a part
/// of the sequences.
pub(crate) fn push_style_end(line: &mut String, style: &TextStyle<'_>) -> Result<()>
    ensures { OnOk result (string_bytes line.new
        ≡ string_bytes line.old ++ style_end (styling style.now)) }
{
    if !style.attributes.is_empty() {
        return push_reset(line);
    }
    if style.background.is_some() {
        line.push_str("\u{1b}[49m")?;
    }
    if style.foreground.is_some() {
        line.push_str("\u{1b}[39m")?;
    }
    Ok(())
}

/// Appends the sequence that ends all colours and attributes, `ESC[0m`. The only error is
/// `OutOfMemory`.
pub(crate) fn push_reset(line: &mut String) -> Result<()>
    ensures { OnOk result (string_bytes line.new ≡ string_bytes line.old ++ reset) }
{
    line.push_str("\u{1b}[0m")?;
    Ok(())
}

// Appends the sequence of a colour, if there is one: `begin` and the colour's code, or `reset` for
// `Color::Reset`.
fn push_color(line: &mut String, color: Option<Color>, begin: &str, reset: &str) -> Result<()>
    ensures { OnOk result (string_bytes line.new
        ≡ string_bytes line.old ++ color_sequence begin.now reset.now color) }
{
    let Some(color) = color else {
        return Ok(());
    };
    if color == Color::Reset {
        line.push_str(reset)?;
        return Ok(());
    }
    line.push_str(begin)?;
    push_color_code(line, color)
}

// Appends the sequences of these attributes, each once, in the order of `ALL_ATTRIBUTES`.
fn push_attributes(line: &mut String, given: &[Attribute]) -> Result<()>
    ensures { OnOk result (string_bytes line.new
        ≡ string_bytes line.old ++ attribute_sequences given.now) }
{
    // most cells have none, or one
    match given {
        [] => Ok(()),
        [attribute] => {
            line.push_str(attribute_sequence(*attribute))?;
            Ok(())
        }
        _ => push_given(line, &ALL_ATTRIBUTES, given),
    }
}

// Appends the sequences of the `attributes` that are in `given`.
fn push_given(line: &mut String, attributes: &[Attribute], given: &[Attribute]) -> Result<()>
    ensures { OnOk result (string_bytes line.new
        ≡ string_bytes line.old ++ flat_map (λ a. sequence (attribute_code a))
        (filter (has_attribute given.now) attributes.now)) }
{
    for attribute in attributes {
        if has_attribute(given, *attribute) {
            line.push_str(attribute_sequence(*attribute))?;
        }
    }
    Ok(())
}

fn has_attribute(given: &[Attribute], attribute: Attribute) -> bool
    ensures { result ≡ has_attribute given.now attribute }
{
    given.contains(&attribute)
}

// Appends the code of a colour other than `Reset`, and the `m` that ends its sequence. The code is
// `5;` and a number below 256, or `2;` and the red, green and blue parts.
fn push_color_code(line: &mut String, color: Color) -> Result<()>
    ensures { OnOk result (string_bytes line.new
        ≡ string_bytes line.old ++ (color_code color ++ codes "m")) }
{
    let named = match color {
        Color::Reset => "m",
        Color::Black => "5;0m",
        Color::DarkRed => "5;1m",
        Color::DarkGreen => "5;2m",
        Color::DarkYellow => "5;3m",
        Color::DarkBlue => "5;4m",
        Color::DarkMagenta => "5;5m",
        Color::DarkCyan => "5;6m",
        Color::Grey => "5;7m",
        Color::DarkGrey => "5;8m",
        Color::Red => "5;9m",
        Color::Green => "5;10m",
        Color::Yellow => "5;11m",
        Color::Blue => "5;12m",
        Color::Magenta => "5;13m",
        Color::Cyan => "5;14m",
        Color::White => "5;15m",
        Color::AnsiValue(value) => {
            write!(line, "5;{value}m")?;
            return Ok(());
        }
        Color::Rgb { r, g, b } => {
            write!(line, "2;{r};{g};{b}m")?;
            return Ok(());
        }
    };
    line.push_str(named)?;
    Ok(())
}

fn attribute_sequence(attribute: Attribute) -> &'static str
    ensures { result.now ≡ sequence (attribute_code attribute) }
{
    match attribute {
        Attribute::Reset => "\u{1b}[0m",
        Attribute::Bold => "\u{1b}[1m",
        Attribute::Dim => "\u{1b}[2m",
        Attribute::Italic => "\u{1b}[3m",
        Attribute::Underlined => "\u{1b}[4m",
        Attribute::DoubleUnderlined => "\u{1b}[4:2m",
        Attribute::Undercurled => "\u{1b}[4:3m",
        Attribute::Underdotted => "\u{1b}[4:4m",
        Attribute::Underdashed => "\u{1b}[4:5m",
        Attribute::SlowBlink => "\u{1b}[5m",
        Attribute::RapidBlink => "\u{1b}[6m",
        Attribute::Reverse => "\u{1b}[7m",
        Attribute::Hidden => "\u{1b}[8m",
        Attribute::CrossedOut => "\u{1b}[9m",
        Attribute::Fraktur => "\u{1b}[20m",
        Attribute::NoBold => "\u{1b}[21m",
        Attribute::NormalIntensity => "\u{1b}[22m",
        Attribute::NoItalic => "\u{1b}[23m",
        Attribute::NoUnderline => "\u{1b}[24m",
        Attribute::NoBlink => "\u{1b}[25m",
        Attribute::NoReverse => "\u{1b}[27m",
        Attribute::NoHidden => "\u{1b}[28m",
        Attribute::NotCrossedOut => "\u{1b}[29m",
        Attribute::Framed => "\u{1b}[51m",
        Attribute::Encircled => "\u{1b}[52m",
        Attribute::OverLined => "\u{1b}[53m",
        Attribute::NotFramedOrEncircled => "\u{1b}[54m",
        Attribute::NotOverLined => "\u{1b}[55m",
    }
}
