//! The colours of a terminal.

/// A colour of a terminal: its default colour, one of sixteen named colours, a colour given by red,
/// green and blue, or one of 256 colours.
///
/// ```
/// let late = Cell::new(alloc, "late")?.fg(Color::Black).bg(Color::Yellow);
/// let orange = Cell::new(alloc, "door")?.fg(Color::AnsiValue(208));
/// ```
#[derive(Copy, Clone, Debug, PartialEq, Eq, PartialOrd, Ord, Hash)]
pub enum Color {
    /// The default colour of the terminal.
    Reset,
    /// Colour 0 of the 256 colours of a terminal.
    Black,
    /// Colour 8 of the 256 colours of a terminal.
    DarkGrey,
    /// Colour 9 of the 256 colours of a terminal.
    Red,
    /// Colour 1 of the 256 colours of a terminal.
    DarkRed,
    /// Colour 10 of the 256 colours of a terminal.
    Green,
    /// Colour 2 of the 256 colours of a terminal.
    DarkGreen,
    /// Colour 11 of the 256 colours of a terminal.
    Yellow,
    /// Colour 3 of the 256 colours of a terminal.
    DarkYellow,
    /// Colour 12 of the 256 colours of a terminal.
    Blue,
    /// Colour 4 of the 256 colours of a terminal.
    DarkBlue,
    /// Colour 13 of the 256 colours of a terminal.
    Magenta,
    /// Colour 5 of the 256 colours of a terminal.
    DarkMagenta,
    /// Colour 14 of the 256 colours of a terminal.
    Cyan,
    /// Colour 6 of the 256 colours of a terminal.
    DarkCyan,
    /// Colour 15 of the 256 colours of a terminal.
    White,
    /// Colour 7 of the 256 colours of a terminal.
    Grey,
    /// A colour given by its red, green and blue parts, from 0 to 255 each.
    Rgb { r: u8, g: u8, b: u8 },
    /// The colour with this number of the 256 colours of a terminal, counted from 0.
    AnsiValue(u8),
}
