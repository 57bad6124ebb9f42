//! Styles that are ready to use. There are thirteen:
//!
//! ```text
//! ASCII_FULL            ASCII_FULL_CONDENSED   ASCII_NO_BORDERS
//! +-------+-------+     +-------+-------+       Hello | there
//! | Hello | there |     | Hello | there |      ===============
//! +===============+     +===============+       a     | b
//! | a     | b     |     | a     | b     |      -------+-------
//! |-------+-------|     | c     | d     |       c     | d
//! | c     | d     |     +-------+-------+
//! +-------+-------+
//!
//! ASCII_BORDERS_ONLY    ASCII_HORIZONTAL_ONLY  ASCII_BORDERS_ONLY_CONDENSED
//! +---------------+     ---------------        +---------------+
//! | Hello   there |      Hello   there         | Hello   there |
//! +===============+     ===============        +===============+
//! | a       b     |      a       b             | a       b     |
//! |               |     ---------------        | c       d     |
//! | c       d     |      c       d             +---------------+
//! +---------------+     ---------------
//!
//! ASCII_MARKDOWN        NOTHING
//! | Hello | there |      Hello  there
//! |-------|-------|      a      b
//! | a     | b     |      c      d
//! | c     | d     |
//!
//! UTF8_FULL             UTF8_FULL_CONDENSED    UTF8_NO_BORDERS
//! ┌───────┬───────┐     ┌───────┬───────┐       Hello ┆ there
//! │ Hello ┆ there │     │ Hello ┆ there │      ═══════╪═══════
//! ╞═══════╪═══════╡     ╞═══════╪═══════╡       a     ┆ b
//! │ a     ┆ b     │     │ a     ┆ b     │      ╌╌╌╌╌╌╌┼╌╌╌╌╌╌╌
//! ├╌╌╌╌╌╌╌┼╌╌╌╌╌╌╌┤     │ c     ┆ d     │       c     ┆ d
//! │ c     ┆ d     │     └───────┴───────┘
//! └───────┴───────┘
//!
//! UTF8_BORDERS_ONLY     UTF8_HORIZONTAL_ONLY
//! ┌───────────────┐     ───────────────
//! │ Hello   there │      Hello   there
//! ╞═══════════════╡     ═══════════════
//! │ a       b     │      a       b
//! │ c       d     │     ───────────────
//! └───────────────┘      c       d
//!                       ───────────────
//! ```
//!
//! `load_style` sets the style of a table, which may be a preset or a changed preset. `by_name`
//! finds a preset by its name:
//!
//! ```
//! table.load_style(UTF8_FULL.with_rounded_corners());
//! ```

ghost use Rattle.std.specs.Prelude.{◌≡◌};
ghost use Rattle.comfy_parts.specs.Presets.{ascii_full, ascii_full_condensed, ascii_no_borders, ascii_borders_only, ascii_borders_only_condensed, ascii_horizontal_only, ascii_markdown, utf8_full, utf8_full_condensed, utf8_no_borders, utf8_borders_only, utf8_horizontal_only, nothing, preset_at, preset_named};

use crate::style::table_style::{ContentLineStyle, LineStyle, TableStyle};

// Lines of several presets. Each has a comment that shows its drawing.

// No character is set, so the line isn't drawn.
const NO_LINE: LineStyle = LineStyle {
    left: None,
    fill: None,
    junction: None,
    right: None,
};

// No character is set, so nothing is drawn beside or between the cells.
const NO_CONTENT: ContentLineStyle = ContentLineStyle {
    left: None,
    junction: None,
    right: None,
};

// +---+---+
const ASCII_BORDER: LineStyle = LineStyle {
    left: Some('+'),
    fill: Some('-'),
    junction: Some('+'),
    right: Some('+'),
};

// +-------+
const ASCII_PLAIN_BORDER: LineStyle = LineStyle {
    left: Some('+'),
    fill: Some('-'),
    junction: Some('-'),
    right: Some('+'),
};

// +=======+
const ASCII_SEPARATOR: LineStyle = LineStyle {
    left: Some('+'),
    fill: Some('='),
    junction: Some('='),
    right: Some('+'),
};

//  =======
const ASCII_OPEN_SEPARATOR: LineStyle = LineStyle {
    left: None,
    fill: Some('='),
    junction: Some('='),
    right: None,
};

//  -------
const ASCII_OPEN_LINE: LineStyle = LineStyle {
    left: None,
    fill: Some('-'),
    junction: Some('-'),
    right: None,
};

// | a | b |
const ASCII_CONTENT: ContentLineStyle = ContentLineStyle {
    left: Some('|'),
    junction: Some('|'),
    right: Some('|'),
};

//   a | b
const ASCII_DIVIDED_CONTENT: ContentLineStyle = ContentLineStyle {
    left: None,
    junction: Some('|'),
    right: None,
};

// | a   b |
const ASCII_ENCLOSED_CONTENT: ContentLineStyle = ContentLineStyle {
    left: Some('|'),
    junction: None,
    right: Some('|'),
};

// │ a ┆ b │
const UTF8_CONTENT: ContentLineStyle = ContentLineStyle {
    left: Some('│'),
    junction: Some('┆'),
    right: Some('│'),
};

//   a ┆ b
const UTF8_DIVIDED_CONTENT: ContentLineStyle = ContentLineStyle {
    left: None,
    junction: Some('┆'),
    right: None,
};

// │ a   b │
const UTF8_ENCLOSED_CONTENT: ContentLineStyle = ContentLineStyle {
    left: Some('│'),
    junction: None,
    right: Some('│'),
};

//  ───────
const UTF8_OPEN_LINE: LineStyle = LineStyle {
    left: None,
    fill: Some('─'),
    junction: Some('─'),
    right: None,
};

/// Lines everywhere, in ASCII. A new table has this style.
///
/// ```text
/// +-------+-------+
/// | Hello | there |
/// +===============+
/// | a     | b     |
/// |-------+-------|
/// | c     | d     |
/// +-------+-------+
/// ```
pub const ASCII_FULL: TableStyle = TableStyle {
    top_border: ASCII_BORDER,
    header_lines: ASCII_CONTENT,
    header_separator: ASCII_SEPARATOR,
    content_lines: ASCII_CONTENT,
    row_separator: LineStyle {
        left: Some('|'),
        fill: Some('-'),
        junction: Some('+'),
        right: Some('|'),
    },
    bottom_border: ASCII_BORDER,
};

/// Lines everywhere except between rows, in ASCII.
///
/// ```text
/// +-------+-------+
/// | Hello | there |
/// +===============+
/// | a     | b     |
/// | c     | d     |
/// +-------+-------+
/// ```
pub const ASCII_FULL_CONDENSED: TableStyle = TableStyle {
    top_border: ASCII_BORDER,
    header_lines: ASCII_CONTENT,
    header_separator: ASCII_SEPARATOR,
    content_lines: ASCII_CONTENT,
    row_separator: NO_LINE,
    bottom_border: ASCII_BORDER,
};

/// Lines everywhere except around the table, in ASCII.
///
/// ```text
///  Hello | there
/// ===============
///  a     | b
/// -------+-------
///  c     | d
/// ```
pub const ASCII_NO_BORDERS: TableStyle = TableStyle {
    top_border: NO_LINE,
    header_lines: ASCII_DIVIDED_CONTENT,
    header_separator: ASCII_OPEN_SEPARATOR,
    content_lines: ASCII_DIVIDED_CONTENT,
    row_separator: LineStyle {
        left: None,
        fill: Some('-'),
        junction: Some('+'),
        right: None,
    },
    bottom_border: NO_LINE,
};

/// Lines around the table and below the header, in ASCII, and a line of spaces between rows.
///
/// ```text
/// +---------------+
/// | Hello   there |
/// +===============+
/// | a       b     |
/// |               |
/// | c       d     |
/// +---------------+
/// ```
pub const ASCII_BORDERS_ONLY: TableStyle = TableStyle {
    top_border: ASCII_PLAIN_BORDER,
    header_lines: ASCII_ENCLOSED_CONTENT,
    header_separator: ASCII_SEPARATOR,
    content_lines: ASCII_ENCLOSED_CONTENT,
    row_separator: LineStyle {
        left: Some('|'),
        fill: None,
        junction: None,
        right: Some('|'),
    },
    bottom_border: ASCII_PLAIN_BORDER,
};

/// Lines around the table and below the header, in ASCII.
///
/// ```text
/// +---------------+
/// | Hello   there |
/// +===============+
/// | a       b     |
/// | c       d     |
/// +---------------+
/// ```
pub const ASCII_BORDERS_ONLY_CONDENSED: TableStyle = TableStyle {
    top_border: ASCII_PLAIN_BORDER,
    header_lines: ASCII_ENCLOSED_CONTENT,
    header_separator: ASCII_SEPARATOR,
    content_lines: ASCII_ENCLOSED_CONTENT,
    row_separator: NO_LINE,
    bottom_border: ASCII_PLAIN_BORDER,
};

/// Horizontal lines alone, in ASCII.
///
/// ```text
/// ---------------
///  Hello   there
/// ===============
///  a       b
/// ---------------
///  c       d
/// ---------------
/// ```
pub const ASCII_HORIZONTAL_ONLY: TableStyle = TableStyle {
    top_border: ASCII_OPEN_LINE,
    header_lines: NO_CONTENT,
    header_separator: ASCII_OPEN_SEPARATOR,
    content_lines: NO_CONTENT,
    row_separator: ASCII_OPEN_LINE,
    bottom_border: ASCII_OPEN_LINE,
};

/// The lines of a table for Markdown. Texts aren't escaped. A row with more than one line breaks
/// the table.
///
/// ```text
/// | Hello | there |
/// |-------|-------|
/// | a     | b     |
/// | c     | d     |
/// ```
pub const ASCII_MARKDOWN: TableStyle = TableStyle {
    top_border: NO_LINE,
    header_lines: ASCII_CONTENT,
    header_separator: LineStyle {
        left: Some('|'),
        fill: Some('-'),
        junction: Some('|'),
        right: Some('|'),
    },
    content_lines: ASCII_CONTENT,
    row_separator: NO_LINE,
    bottom_border: NO_LINE,
};

/// Lines everywhere, of box drawing characters.
///
/// ```text
/// ┌───────┬───────┐
/// │ Hello ┆ there │
/// ╞═══════╪═══════╡
/// │ a     ┆ b     │
/// ├╌╌╌╌╌╌╌┼╌╌╌╌╌╌╌┤
/// │ c     ┆ d     │
/// └───────┴───────┘
/// ```
pub const UTF8_FULL: TableStyle = TableStyle {
    top_border: LineStyle {
        left: Some('┌'),
        fill: Some('─'),
        junction: Some('┬'),
        right: Some('┐'),
    },
    header_lines: UTF8_CONTENT,
    header_separator: LineStyle {
        left: Some('╞'),
        fill: Some('═'),
        junction: Some('╪'),
        right: Some('╡'),
    },
    content_lines: UTF8_CONTENT,
    row_separator: LineStyle {
        left: Some('├'),
        fill: Some('╌'),
        junction: Some('┼'),
        right: Some('┤'),
    },
    bottom_border: LineStyle {
        left: Some('└'),
        fill: Some('─'),
        junction: Some('┴'),
        right: Some('┘'),
    },
};

/// Lines everywhere except between rows, of box drawing characters.
///
/// ```text
/// ┌───────┬───────┐
/// │ Hello ┆ there │
/// ╞═══════╪═══════╡
/// │ a     ┆ b     │
/// │ c     ┆ d     │
/// └───────┴───────┘
/// ```
pub const UTF8_FULL_CONDENSED: TableStyle = TableStyle {
    top_border: LineStyle {
        left: Some('┌'),
        fill: Some('─'),
        junction: Some('┬'),
        right: Some('┐'),
    },
    header_lines: UTF8_CONTENT,
    header_separator: LineStyle {
        left: Some('╞'),
        fill: Some('═'),
        junction: Some('╪'),
        right: Some('╡'),
    },
    content_lines: UTF8_CONTENT,
    row_separator: NO_LINE,
    bottom_border: LineStyle {
        left: Some('└'),
        fill: Some('─'),
        junction: Some('┴'),
        right: Some('┘'),
    },
};

/// Lines everywhere except around the table, of box drawing characters.
///
/// ```text
///  Hello ┆ there
/// ═══════╪═══════
///  a     ┆ b
/// ╌╌╌╌╌╌╌┼╌╌╌╌╌╌╌
///  c     ┆ d
/// ```
pub const UTF8_NO_BORDERS: TableStyle = TableStyle {
    top_border: NO_LINE,
    header_lines: UTF8_DIVIDED_CONTENT,
    header_separator: LineStyle {
        left: None,
        fill: Some('═'),
        junction: Some('╪'),
        right: None,
    },
    content_lines: UTF8_DIVIDED_CONTENT,
    row_separator: LineStyle {
        left: None,
        fill: Some('╌'),
        junction: Some('┼'),
        right: None,
    },
    bottom_border: NO_LINE,
};

/// Lines around the table and below the header, of box drawing characters.
///
/// ```text
/// ┌───────────────┐
/// │ Hello   there │
/// ╞═══════════════╡
/// │ a       b     │
/// │ c       d     │
/// └───────────────┘
/// ```
pub const UTF8_BORDERS_ONLY: TableStyle = TableStyle {
    top_border: LineStyle {
        left: Some('┌'),
        fill: Some('─'),
        junction: Some('─'),
        right: Some('┐'),
    },
    header_lines: UTF8_ENCLOSED_CONTENT,
    header_separator: LineStyle {
        left: Some('╞'),
        fill: Some('═'),
        junction: Some('═'),
        right: Some('╡'),
    },
    content_lines: UTF8_ENCLOSED_CONTENT,
    row_separator: NO_LINE,
    bottom_border: LineStyle {
        left: Some('└'),
        fill: Some('─'),
        junction: Some('─'),
        right: Some('┘'),
    },
};

/// Horizontal lines alone, of box drawing characters.
///
/// ```text
/// ───────────────
///  Hello   there
/// ═══════════════
///  a       b
/// ───────────────
///  c       d
/// ───────────────
/// ```
pub const UTF8_HORIZONTAL_ONLY: TableStyle = TableStyle {
    top_border: UTF8_OPEN_LINE,
    header_lines: NO_CONTENT,
    header_separator: LineStyle {
        left: None,
        fill: Some('═'),
        junction: Some('═'),
        right: None,
    },
    content_lines: NO_CONTENT,
    row_separator: UTF8_OPEN_LINE,
    bottom_border: UTF8_OPEN_LINE,
};

/// No lines: only the texts of cells, with their paddings.
///
/// ```text
///  Hello  there
///  a      b
///  c      d
/// ```
pub const NOTHING: TableStyle = TableStyle {
    top_border: NO_LINE,
    header_lines: NO_CONTENT,
    header_separator: NO_LINE,
    content_lines: NO_CONTENT,
    row_separator: NO_LINE,
    bottom_border: NO_LINE,
};

/// All presets, each with its name, which is the name of its constant. The position of a preset
/// never changes, because programs in other languages choose presets by position.
pub static ALL: [(&str, TableStyle); 13] = [
    ("ASCII_FULL", ASCII_FULL),
    ("ASCII_FULL_CONDENSED", ASCII_FULL_CONDENSED),
    ("ASCII_NO_BORDERS", ASCII_NO_BORDERS),
    ("ASCII_BORDERS_ONLY", ASCII_BORDERS_ONLY),
    ("ASCII_BORDERS_ONLY_CONDENSED", ASCII_BORDERS_ONLY_CONDENSED),
    ("ASCII_HORIZONTAL_ONLY", ASCII_HORIZONTAL_ONLY),
    ("ASCII_MARKDOWN", ASCII_MARKDOWN),
    ("UTF8_FULL", UTF8_FULL),
    ("UTF8_FULL_CONDENSED", UTF8_FULL_CONDENSED),
    ("UTF8_NO_BORDERS", UTF8_NO_BORDERS),
    ("UTF8_BORDERS_ONLY", UTF8_BORDERS_ONLY),
    ("UTF8_HORIZONTAL_ONLY", UTF8_HORIZONTAL_ONLY),
    ("NOTHING", NOTHING),
];

/// The preset whose constant has the name `name`, in capitals. `None` if no preset has this name.
///
/// ```
/// table.load_style(by_name("UTF8_FULL").unwrap_or(ASCII_FULL));
/// ```
pub fn by_name(name: &str) -> Option<TableStyle>
    ensures { result ≡ preset_named name.now }
{
    for (preset, style) in &ALL {
        if name == *preset {
            return Some(*style);
        }
    }
    None
}

/// The preset at position `position` of `ALL`, counted from 0: `ASCII_FULL` comes first, `NOTHING`
/// last. `None` if `position` is the number of presets or greater.
///
/// ```
/// let is_so = by_position(7) == Some(UTF8_FULL);
/// // true
/// ```
pub fn by_position(position: usize) -> Option<TableStyle>
    ensures { result ≡ preset_at position }
{
    if position < ALL.len() {
        Some(ALL[position].1)
    } else {
        None
    }
}

/// Each preset has the characters of its definition in `specs/Presets`. The function does nothing:
/// its clauses are the law.
pub fn presets_are_as_defined()
    ensures of_ascii_full { ASCII_FULL ≡ ascii_full }
    ensures of_ascii_full_condensed { ASCII_FULL_CONDENSED ≡ ascii_full_condensed }
    ensures of_ascii_no_borders { ASCII_NO_BORDERS ≡ ascii_no_borders }
    ensures of_ascii_borders_only { ASCII_BORDERS_ONLY ≡ ascii_borders_only }
    ensures of_ascii_borders_only_condensed { ASCII_BORDERS_ONLY_CONDENSED
        ≡ ascii_borders_only_condensed }
    ensures of_ascii_horizontal_only { ASCII_HORIZONTAL_ONLY ≡ ascii_horizontal_only }
    ensures of_ascii_markdown { ASCII_MARKDOWN ≡ ascii_markdown }
    ensures of_utf8_full { UTF8_FULL ≡ utf8_full }
    ensures of_utf8_full_condensed { UTF8_FULL_CONDENSED ≡ utf8_full_condensed }
    ensures of_utf8_no_borders { UTF8_NO_BORDERS ≡ utf8_no_borders }
    ensures of_utf8_borders_only { UTF8_BORDERS_ONLY ≡ utf8_borders_only }
    ensures of_utf8_horizontal_only { UTF8_HORIZONTAL_ONLY ≡ utf8_horizontal_only }
    ensures of_nothing { NOTHING ≡ nothing }
{}
