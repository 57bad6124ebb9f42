//! Colours and attributes by their names.

use crate::words::named;
use case_files::{Fault, Result};
use comfy_table::style::{Attribute, Color};

const COLORS: [(&str, Color); 17] = [
    ("Reset", Color::Reset),
    ("Black", Color::Black),
    ("DarkGrey", Color::DarkGrey),
    ("Red", Color::Red),
    ("DarkRed", Color::DarkRed),
    ("Green", Color::Green),
    ("DarkGreen", Color::DarkGreen),
    ("Yellow", Color::Yellow),
    ("DarkYellow", Color::DarkYellow),
    ("Blue", Color::Blue),
    ("DarkBlue", Color::DarkBlue),
    ("Magenta", Color::Magenta),
    ("DarkMagenta", Color::DarkMagenta),
    ("Cyan", Color::Cyan),
    ("DarkCyan", Color::DarkCyan),
    ("White", Color::White),
    ("Grey", Color::Grey),
];

const ATTRIBUTES: [(&str, Attribute); 28] = [
    ("Reset", Attribute::Reset),
    ("Bold", Attribute::Bold),
    ("Dim", Attribute::Dim),
    ("Italic", Attribute::Italic),
    ("Underlined", Attribute::Underlined),
    ("DoubleUnderlined", Attribute::DoubleUnderlined),
    ("Undercurled", Attribute::Undercurled),
    ("Underdotted", Attribute::Underdotted),
    ("Underdashed", Attribute::Underdashed),
    ("SlowBlink", Attribute::SlowBlink),
    ("RapidBlink", Attribute::RapidBlink),
    ("Reverse", Attribute::Reverse),
    ("Hidden", Attribute::Hidden),
    ("CrossedOut", Attribute::CrossedOut),
    ("Fraktur", Attribute::Fraktur),
    ("NoBold", Attribute::NoBold),
    ("NormalIntensity", Attribute::NormalIntensity),
    ("NoItalic", Attribute::NoItalic),
    ("NoUnderline", Attribute::NoUnderline),
    ("NoBlink", Attribute::NoBlink),
    ("NoReverse", Attribute::NoReverse),
    ("NoHidden", Attribute::NoHidden),
    ("NotCrossedOut", Attribute::NotCrossedOut),
    ("Framed", Attribute::Framed),
    ("Encircled", Attribute::Encircled),
    ("OverLined", Attribute::OverLined),
    ("NotFramedOrEncircled", Attribute::NotFramedOrEncircled),
    ("NotOverLined", Attribute::NotOverLined),
];

const IS_NO_BYTE: Fault = Fault::NotRead("a number isn't of 0 to 255");

/// Returns the colour that a word means: one of the names, `Rgb:R,G,B` or `Ansi:N`. Returns
/// `NotRead` for any other word.
pub fn color(word: &str) -> Result<Color> {
    match word.split_once(':') {
        Some(("Rgb", numbers)) => rgb(numbers),
        Some(("Ansi", number)) => ansi(number),
        _ => named(&COLORS, word, "a colour isn't known"),
    }
}

fn rgb(word: &str) -> Result<Color> {
    let not_three = Err(Fault::NotRead("a colour has three parts"));
    let Some((red, rest)) = word.split_once(',') else {
        return not_three;
    };
    let Some((green, blue)) = rest.split_once(',') else {
        return not_three;
    };
    match (byte(red), byte(green), byte(blue)) {
        (Some(r), Some(g), Some(b)) => Ok(Color::Rgb { r, g, b }),
        _ => Err(IS_NO_BYTE),
    }
}

fn ansi(word: &str) -> Result<Color> {
    match byte(word) {
        Some(number) => Ok(Color::AnsiValue(number)),
        None => Err(IS_NO_BYTE),
    }
}

fn byte(word: &str) -> Option<u8> {
    word.parse::<u8>().ok()
}

/// Returns the attribute with this name, or `NotRead` if the name isn't known.
pub fn attribute(word: &str) -> Result<Attribute> {
    named(&ATTRIBUTES, word, "an attribute isn't known")
}
