//! Attributes of a text in a terminal, besides its colours.

/// An attribute of a text in a terminal, such as bold. Without the escape sequences that are
/// written for the attribute, the second line of this example is `| Sum |`.
///
/// ```
/// let mut table = Table::new(alloc);
/// table
///     .enforce_styling()
///     .add_row([Cell::new(alloc, "Sum")?.add_attribute(Attribute::Bold)?])?;
/// let text = table.to_text()?;
/// // +-----+
/// // |\u{1b}[1m Sum \u{1b}[0m|
/// // +-----+
/// ```
#[derive(Copy, Clone, Debug, PartialEq, Eq, PartialOrd, Ord, Hash)]
pub enum Attribute {
    /// Ends all attributes and colours.
    Reset,
    /// The text is bold, or brighter than normal text.
    Bold,
    /// The text is less bright than normal text.
    Dim,
    /// The text is in italics.
    Italic,
    /// The text has a line below it.
    Underlined,
    /// The text has two lines below it.
    DoubleUnderlined,
    /// The text has a wavy line below it.
    Undercurled,
    /// The text has a dotted line below it.
    Underdotted,
    /// The text has a dashed line below it.
    Underdashed,
    /// The text blinks less than 150 times a minute.
    SlowBlink,
    /// The text blinks 150 times a minute or more.
    RapidBlink,
    /// Text and background colours are swapped.
    Reverse,
    /// The text isn't shown.
    Hidden,
    /// The text has a line through it.
    CrossedOut,
    /// The text is in blackletter.
    Fraktur,
    /// Ends `Bold`.
    NoBold,
    /// Ends `Bold` and `Dim`.
    NormalIntensity,
    /// Ends `Italic`.
    NoItalic,
    /// Ends each kind of underline.
    NoUnderline,
    /// Ends both kinds of blinking.
    NoBlink,
    /// Ends `Reverse`.
    NoReverse,
    /// Ends `Hidden`.
    NoHidden,
    /// Ends `CrossedOut`.
    NotCrossedOut,
    /// The text has a frame around it.
    Framed,
    /// The text has a circle around it.
    Encircled,
    /// The text has a line above it.
    OverLined,
    /// Ends `Framed` and `Encircled`.
    NotFramedOrEncircled,
    /// Ends `OverLined`.
    NotOverLined,
}
