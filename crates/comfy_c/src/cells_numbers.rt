//! The characters, alignments, colours and attributes that a caller's numbers mean.

ghost use Rattle.std.specs.Prelude.{◌≡◌, [], None, IfOk, IfSome, slice_index_or, true};
ghost use Rattle.comfy_table.specs.Styling.{all_attributes};
ghost use Rattle.comfy_c.specs.Looks.{look_settings};
ghost use Rattle.comfy_c.specs.Numbers.{alignments, attributes_by, char_of, color_of};

use comfy_parts::style::{Attribute, CellAlignment, Color};
use csv_tables::CellSettings;
use std::alloc::{AllocError, Global};

/// A colour of a text or of its background, as numbers.
#[derive(Clone, Copy, Debug)]
#[repr(C)]
pub struct ColorNumbers {
    /// The kind of the colour. 1 is the terminal's default colour, 2 the colour `number` of 256
    /// colours, and 3 a colour with the parts `red`, `green` and `blue`. Any other number sets no
    /// colour.
    pub kind: u8,
    /// The index of the colour among 256 colours, if `kind` is 2. Otherwise this field has no
    /// effect.
    pub number: u8,
    /// The red part of the colour, if `kind` is 3. Otherwise this field has no effect.
    pub red: u8,
    /// The green part of the colour, if `kind` is 3. Otherwise this field has no effect.
    pub green: u8,
    /// The blue part of the colour, if `kind` is 3. Otherwise this field has no effect.
    pub blue: u8,
}

/// The look of a text, as numbers: its alignment, colours and attributes.
#[derive(Clone, Copy, Debug)]
#[repr(C)]
pub struct LookNumbers {
    /// The alignment of the text: 1 for left, 2 for right, 3 for centred. Any other number sets no
    /// alignment, and that of the column counts.
    pub alignment: u32,
    /// The attributes of the text. Each attribute has a bit, in the order of the variants of
    /// `Attribute`. The lowest bit is for the first variant, and the four highest bits have no
    /// effect.
    pub attributes: u32,
    /// The colour of the text. A `kind` of 0 sets no colour.
    pub foreground: ColorNumbers,
    /// The background colour of the text. A `kind` of 0 sets no colour.
    pub background: ColorNumbers,
}

// The number that means U+0000, because 0 means no character. It follows the greatest code point.
const NUL: u32 = 0x11_0000;

static ATTRIBUTES: [Attribute; 28] = [
    Attribute::Reset,
    Attribute::Bold,
    Attribute::Dim,
    Attribute::Italic,
    Attribute::Underlined,
    Attribute::DoubleUnderlined,
    Attribute::Undercurled,
    Attribute::Underdotted,
    Attribute::Underdashed,
    Attribute::SlowBlink,
    Attribute::RapidBlink,
    Attribute::Reverse,
    Attribute::Hidden,
    Attribute::CrossedOut,
    Attribute::Fraktur,
    Attribute::NoBold,
    Attribute::NormalIntensity,
    Attribute::NoItalic,
    Attribute::NoUnderline,
    Attribute::NoBlink,
    Attribute::NoReverse,
    Attribute::NoHidden,
    Attribute::NotCrossedOut,
    Attribute::Framed,
    Attribute::Encircled,
    Attribute::OverLined,
    Attribute::NotFramedOrEncircled,
    Attribute::NotOverLined,
];

/// The character with this code point, or U+0000 for `NUL`. `None` for 0, and for any other number
/// that isn't the code point of a character.
pub(crate) fn char_of(number: u32) -> Option<char>
    ensures { result ≡ char_of number }
{
    match number {
        0 => None,
        NUL => Some('\0'),
        _ => char::from_u32(number),
    }
}

/// The alignment of texts that a number means; `None` if the number sets no alignment.
pub(crate) fn alignment_of(number: u32) -> Option<CellAlignment>
    ensures { result ≡ slice_index_or alignments number None }
{
    match number {
        1 => Some(CellAlignment::Left),
        2 => Some(CellAlignment::Right),
        3 => Some(CellAlignment::Center),
        _ => None,
    }
}

/// The colour of these numbers; `None` if the numbers set no colour.
pub(crate) fn color_of(color: ColorNumbers) -> Option<Color>
    ensures { result ≡ color_of color }
{
    match color.kind {
        1 => Some(Color::Reset),
        2 => Some(Color::AnsiValue(color.number)),
        3 => Some(Color::Rgb {
            r: color.red,
            g: color.green,
            b: color.blue,
        }),
        _ => None,
    }
}

// The attributes whose bits are set.
fn attributes_of(alloc: Global, bits: u32) -> Result<Vec<Attribute>, AllocError>
    ensures { IfOk result (λ attributes. attributes.items ≡ attributes_by all_attributes bits) }
{
    let mut attributes = Vec::new(alloc);
    if bits == 0 {
        return Ok(attributes);
    }
    let mut rest = bits;
    for attribute in &ATTRIBUTES {
        if rest % 2 == 1 {
            attributes.push(*attribute)?;
        }
        rest /= 2;
    }
    Ok(attributes)
}

/// The attribute whose bit is set, in a list. The list is empty if no attribute's bit is set.
/// `None` only if several bits are set.
pub(crate) fn lent_attributes(bits: u32) -> Option<&'static [Attribute]>
    ensures { IfSome result (λ attributes.
        attributes.now ≡ attributes_by all_attributes bits) }
{
    lent_among(&ATTRIBUTES, bits)
}

// The attribute of `all` whose bit is set, in a list, which is empty if there is no such attribute.
// `None` only if several bits are set.
fn lent_among(all: &'static [Attribute], bits: u32) -> Option<&'static [Attribute]>
    ensures { IfSome result (λ own. own.now ≡ attributes_by all.now bits) }
{
    let mut rest = bits;
    for position in 0..all.len() {
        if rest == 1 {
            return Some(&all[position..position + 1]);
        }
        if rest % 2 == 1 {
            return None;
        }
        rest /= 2;
    }
    Some(&[])
}

impl LookNumbers {
    /// Returns true only if the text has neither a colour nor an attribute.
    #[inline(always)]
    pub(crate) fn is_plain(&self) -> bool
        ensures foreground { result ≡ true → color_of self.now.foreground ≡ None }
        ensures background { result ≡ true → color_of self.now.background ≡ None }
        ensures attributes { result ≡ true
            → attributes_by all_attributes self.now.attributes ≡ [] }
    {
        self.attributes == 0 && self.foreground.kind == 0 && self.background.kind == 0
    }
}

/// The settings of a text with this look. The only error is that memory ran out.
pub(crate) fn look_settings(alloc: Global, look: &LookNumbers) -> Result<CellSettings, AllocError>
    ensures { IfOk result (λ settings. settings ≡ look_settings look.now) }
{
    Ok(CellSettings {
        alignment: alignment_of(look.alignment),
        foreground: color_of(look.foreground),
        background: color_of(look.background),
        attributes: attributes_of(alloc, look.attributes)?,
    })
}
