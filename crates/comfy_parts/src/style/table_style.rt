//! The characters of a table's frame.

ghost use Rattle.std.specs.Prelude.{◌≡◌};
ghost use Rattle.comfy_parts.specs.Borders.{draws_left_border, draws_right_border, draws_vertical_lines};
ghost use Rattle.comfy_parts.specs.Columns.{style_characters};
ghost use Rattle.comfy_parts.specs.Presets.{nothing};
ghost use Rattle.comfy_parts.specs.StyleModifiers.{with_rounded_corners, with_solid_inner_borders, RoundingTwiceIsOnce, SolidTwiceIsOnce};

/// The characters of a horizontal line of the frame. If none of them is set, the line isn't drawn.
///
/// A missing fill is drawn as spaces. A missing left, right or junction character is drawn as a
/// space if another line of the style has a character at the same place. If no line of the style
/// has one there, the place takes no terminal column.
///
/// ```text
/// ├╌╌╌╌╌╌╌╌┼╌╌╌╌╌╌╌╌┤
/// ^    ^   ^        ^
/// left fill junction right
/// ```
///
/// ```
/// let separator = LineStyle::new('├', '╌', '┼', '┤');
/// let underline = LineStyle::none().fill('=');
/// ```
#[derive(Copy, Clone, Debug, Default, PartialEq, Eq)]
pub struct LineStyle {
    /// The character of the left border. `None` is drawn as a space if another line of the style
    /// has a left character, and takes no terminal column otherwise.
    pub left: Option<char>,
    /// The character that fills the widths of the columns. `None` is drawn as spaces.
    pub fill: Option<char>,
    /// The character between two columns. `None` is drawn as a space if another line of the style
    /// has a junction, and takes no terminal column otherwise.
    pub junction: Option<char>,
    /// The character of the right border. `None` is drawn as a space if another line of the style
    /// has a right character, and takes no terminal column otherwise.
    pub right: Option<char>,
}

impl LineStyle {
    /// A line with all four characters set.
    pub fn new(left: char, fill: char, junction: char, right: char) -> LineStyle
        ensures { result ≡ record {
          left = Some left;
          fill = Some fill;
          junction = Some junction;
          right = Some right;
        } }
    {
        LineStyle {
            left: Some(left),
            fill: Some(fill),
            junction: Some(junction),
            right: Some(right),
        }
    }

    /// A line without characters, which isn't drawn.
    pub fn none() -> LineStyle
        ensures { result ≡ record { left = None; fill = None; junction = None; right = None } }
    {
        LineStyle::default()
    }

    /// Sets the character at the left end.
    pub fn left(self, end: char) -> LineStyle
        ensures { result ≡ record self { left = Some end } }
    {
        LineStyle {
            left: Some(end),
            ..self
        }
    }

    /// Sets the character that fills the widths of the columns.
    pub fn fill(self, character: char) -> LineStyle
        ensures { result ≡ record self { fill = Some character } }
    {
        LineStyle {
            fill: Some(character),
            ..self
        }
    }

    /// Sets the character between two columns.
    pub fn junction(self, crossing: char) -> LineStyle
        ensures { result ≡ record self { junction = Some crossing } }
    {
        LineStyle {
            junction: Some(crossing),
            ..self
        }
    }

    /// Sets the character at the right end.
    pub fn right(self, end: char) -> LineStyle
        ensures { result ≡ record self { right = Some end } }
    {
        LineStyle {
            right: Some(end),
            ..self
        }
    }
}

/// The characters of a line with the contents of cells.
///
/// A missing character is drawn as a space if another line of the style has a character at the same
/// place. If no line of the style has one there, the place takes no terminal column.
///
/// ```text
/// │ Hello  ┆ there  │
/// ^        ^        ^
/// left     junction right
/// ```
///
/// ```
/// let solid = ContentLineStyle::new('│', '│', '│');
/// let open = ContentLineStyle::none().junction('│');
/// ```
#[derive(Copy, Clone, Debug, Default, PartialEq, Eq)]
pub struct ContentLineStyle {
    /// The character of the left border. `None` is drawn as a space if another line of the style
    /// has a left character, and takes no terminal column otherwise.
    pub left: Option<char>,
    /// The character between two columns. `None` is drawn as a space if another line of the style
    /// has a junction, and takes no terminal column otherwise.
    pub junction: Option<char>,
    /// The character of the right border. `None` is drawn as a space if another line of the style
    /// has a right character, and takes no terminal column otherwise.
    pub right: Option<char>,
}

impl ContentLineStyle {
    /// A line with all three characters set.
    pub fn new(left: char, junction: char, right: char) -> ContentLineStyle
        ensures { result ≡ record {
          left = Some left;
          junction = Some junction;
          right = Some right;
        } }
    {
        ContentLineStyle::none()
            .left(left)
            .junction(junction)
            .right(right)
    }

    /// A line without characters.
    pub fn none() -> ContentLineStyle
        ensures { result ≡ record { left = None; junction = None; right = None } }
    {
        ContentLineStyle::default()
    }

    /// Sets the character of the left border.
    pub fn left(self, border: char) -> ContentLineStyle
        ensures { result ≡ record self { left = Some border } }
    {
        ContentLineStyle {
            left: Some(border),
            ..self
        }
    }

    /// Sets the character between two columns.
    pub fn junction(self, divider: char) -> ContentLineStyle
        ensures { result ≡ record self { junction = Some divider } }
    {
        ContentLineStyle {
            junction: Some(divider),
            ..self
        }
    }

    /// Sets the character of the right border.
    pub fn right(self, border: char) -> ContentLineStyle
        ensures { result ≡ record self { right = Some border } }
    {
        ContentLineStyle {
            right: Some(border),
            ..self
        }
    }
}

/// A style: the characters of the six kinds of lines of a table.
///
/// ```text
/// ┌───┬───┐ top_border
/// │ a ┆ b │ header_lines
/// ╞═══╪═══╡ header_separator
/// │ c ┆ d │ content_lines
/// ├╌╌╌┼╌╌╌┤ row_separator
/// │ e ┆ f │ content_lines
/// └───┴───┘ bottom_border
/// ```
///
/// ```
/// let style = TableStyle::new()
///     .header_separator(LineStyle::none().fill('='))
///     .content_lines(ContentLineStyle::none().junction('|'));
/// let mut table = Table::new(alloc);
/// table
///     .load_style(style)
///     .set_header(["a", "b"])?
///     .add_row(["c", "d"])?;
/// let text = table.trim_fmt()?;
/// //  a   b
/// // === ===
/// //  c | d
/// ```
#[derive(Copy, Clone, Debug, Default, PartialEq, Eq)]
pub struct TableStyle {
    /// The frame line above the table.
    pub top_border: LineStyle,
    /// The characters before, between and after the cells of the header.
    pub header_lines: ContentLineStyle,
    /// The frame line below the header.
    pub header_separator: LineStyle,
    /// The characters before, between and after the cells of a row.
    pub content_lines: ContentLineStyle,
    /// The frame line between two rows.
    pub row_separator: LineStyle,
    /// The frame line below the table.
    pub bottom_border: LineStyle,
}

impl TableStyle {
    /// A style without characters: only the texts of cells are drawn, with their paddings.
    pub fn new() -> TableStyle
        ensures { result ≡ nothing }
    {
        TableStyle {
            top_border: LineStyle::none(),
            header_lines: ContentLineStyle::none(),
            header_separator: LineStyle::none(),
            content_lines: ContentLineStyle::none(),
            row_separator: LineStyle::none(),
            bottom_border: LineStyle::none(),
        }
    }

    /// Sets the frame line above the table.
    pub fn top_border(self, line: LineStyle) -> TableStyle
        ensures { result ≡ record self { top_border = line } }
    {
        TableStyle {
            top_border: line,
            ..self
        }
    }

    /// Sets the characters before, between and after the cells of the header.
    pub fn header_lines(self, line: ContentLineStyle) -> TableStyle
        ensures { result ≡ record self { header_lines = line } }
    {
        TableStyle {
            header_lines: line,
            ..self
        }
    }

    /// Sets the frame line below the header.
    pub fn header_separator(self, line: LineStyle) -> TableStyle
        ensures { result ≡ record self { header_separator = line } }
    {
        TableStyle {
            header_separator: line,
            ..self
        }
    }

    /// Sets the characters before, between and after the cells of a row.
    pub fn content_lines(self, line: ContentLineStyle) -> TableStyle
        ensures { result ≡ record self { content_lines = line } }
    {
        TableStyle {
            content_lines: line,
            ..self
        }
    }

    /// Sets the frame line between two rows.
    pub fn row_separator(self, line: LineStyle) -> TableStyle
        ensures { result ≡ record self { row_separator = line } }
    {
        TableStyle {
            row_separator: line,
            ..self
        }
    }

    /// Sets the frame line below the table.
    pub fn bottom_border(self, line: LineStyle) -> TableStyle
        ensures { result ≡ record self { bottom_border = line } }
    {
        TableStyle {
            bottom_border: line,
            ..self
        }
    }

    /// Returns true if lines begin with a border: any of the six kinds of lines has a left
    /// character.
    pub fn draws_left_border(&self) -> bool
        ensures { result ≡ draws_left_border self.now }
    {
        self.top_border.left.is_some()
            || self.header_lines.left.is_some()
            || self.header_separator.left.is_some()
            || self.content_lines.left.is_some()
            || self.row_separator.left.is_some()
            || self.bottom_border.left.is_some()
    }

    /// Returns true if lines end with a border: any of the six kinds of lines has a right
    /// character.
    pub fn draws_right_border(&self) -> bool
        ensures { result ≡ draws_right_border self.now }
    {
        self.top_border.right.is_some()
            || self.header_lines.right.is_some()
            || self.header_separator.right.is_some()
            || self.content_lines.right.is_some()
            || self.row_separator.right.is_some()
            || self.bottom_border.right.is_some()
    }

    /// Returns true if vertical lines are drawn between the columns: any of the six kinds of lines
    /// has a junction.
    pub fn draws_vertical_lines(&self) -> bool
        ensures { result ≡ draws_vertical_lines self.now }
    {
        self.top_border.junction.is_some()
            || self.header_lines.junction.is_some()
            || self.header_separator.junction.is_some()
            || self.content_lines.junction.is_some()
            || self.row_separator.junction.is_some()
            || self.bottom_border.junction.is_some()
    }

    /// All characters, line by line from the top, and in each line from left to right with the fill
    /// after the left character. A content line has no fill.
    pub(crate) fn characters(&self) -> [Option<char>; 22]
        ensures { result ≡ style_characters self.now }
    {
        let (top, header, separator) = (self.top_border, self.header_lines, self.header_separator);
        let (lines, between, bottom) = (self.content_lines, self.row_separator, self.bottom_border);
        [
            top.left,
            top.fill,
            top.junction,
            top.right,
            header.left,
            header.junction,
            header.right,
            separator.left,
            separator.fill,
            separator.junction,
            separator.right,
            lines.left,
            lines.junction,
            lines.right,
            between.left,
            between.fill,
            between.junction,
            between.right,
            bottom.left,
            bottom.fill,
            bottom.junction,
            bottom.right,
        ]
    }

    /// Replaces the characters of the four outer corners by `╭`, `╮`, `╰` and `╯`. A corner that
    /// isn't set is set too.
    ///
    /// ```text
    /// ╭───────┬───────╮
    /// │ Hello ┆ there │
    /// ╞═══════╪═══════╡
    /// │ a     ┆ b     │
    /// ╰───────┴───────╯
    /// ```
    pub fn with_rounded_corners(self) -> TableStyle
        ensures value { result ≡ with_rounded_corners self }
        ensures once { RoundingTwiceIsOnce self }
    {
        TableStyle {
            top_border: self.top_border.left('╭').right('╮'),
            bottom_border: self.bottom_border.left('╰').right('╯'),
            ..self
        }
    }

    /// Sets solid lines, of box drawing characters, between columns and between rows. They replace
    /// the style's own lines there. A style without lines between columns or between rows gets
    /// them.
    ///
    /// ```text
    /// ┌───────┬───────┐
    /// │ Hello │ there │
    /// ╞═══════╪═══════╡
    /// │ a     │ b     │
    /// ├───────┼───────┤
    /// │ c     │ d     │
    /// └───────┴───────┘
    /// ```
    pub fn with_solid_inner_borders(self) -> TableStyle
        ensures value { result ≡ with_solid_inner_borders self }
        ensures once { SolidTwiceIsOnce self }
    {
        TableStyle {
            header_lines: self.header_lines.junction('│'),
            content_lines: self.content_lines.junction('│'),
            row_separator: self.row_separator.fill('─'),
            ..self
        }
    }
}
