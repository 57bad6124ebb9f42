//! The settings of a table. Only the truncation indicator takes memory.

ghost use Rattle.std.specs.Prelude.{◌≡◌, Some, true, IfOk, OnOk, OnErr, unwrap_or};
ghost use Rattle.std.specs.Borrow.{sem};
ghost use Rattle.comfy_table.specs.TableReference.{reference_of};
ghost use Rattle.comfy_table.specs.Lines.{cell_delimiter};
ghost use Rattle.comfy_table.specs.TableLoans.{LendsStyle, TableStaysIfErr};

use crate::table::{Table, TableReference, into_reference};
use comfy_parts::style::{ContentArrangement, TableStyle};
use comfy_parts::{Cell, Result};

impl Table {
    /// Replaces the style: the characters of the frame. The presets are in `style::presets`.
    ///
    /// ```
    /// table.load_style(UTF8_FULL.with_solid_inner_borders());
    /// ```
    pub fn load_style(&mut self, style: TableStyle) -> &mut Self
        ensures same_reference { result.ghost_name ≡ self.entry.ghost_name }
        ensures value { result.now ≡ record self.old { style = style } }
    {
        self.style = style;
        self
    }

    /// The style of the table: the characters of the frame.
    pub fn style(&self) -> TableStyle
        ensures { result ≡ self.now.style }
    {
        self.style
    }

    /// A mutable reference to the style: the characters of the frame. Writing through it changes
    /// the style, and nothing else of the table.
    pub fn style_mut(&mut self) -> &mut TableStyle
        ensures* lent { sem 𝓛 (LendsStyle self.entry result) }
        ensures value { result.now ≡ self.old.style }
    {
        &mut self.style
    }

    /// Sets the delimiter: the character at which texts may break. A delimiter that is set for a
    /// column or a cell takes precedence there. The delimiter of a new table is a space.
    pub fn set_delimiter(&mut self, delimiter: char) -> &mut Self
        ensures same_reference { result.ghost_name ≡ self.entry.ghost_name }
        ensures value { result.now ≡ record self.old { delimiter = Some delimiter } }
    {
        self.delimiter = Some(delimiter);
        self
    }

    /// Sets the truncation indicator: the text that follows a line that `Row::max_height` cuts. A
    /// new table has `…`. The indicator isn't drawn if it is wider than the column.
    /// Returns the table for further calls. After `OutOfMemory` the table is unchanged. To use this
    /// fact in a proof of your own, call `try_set_truncation_indicator` instead.
    pub fn set_truncation_indicator(&mut self, indicator: &str) -> Result<&mut Self>
        ensures* err { sem 𝓛 (TableStaysIfErr self.entry result) }
        ensures same_reference { IfOk result (λ table. table.ghost_name ≡ self.entry.ghost_name) }
        ensures set { IfOk result (λ table. table.now ≡ record self.old {
          indicator = indicator.now;
        }) }
    {
        into_reference(self.with_indicator_set(indicator))
    }

    /// Sets the truncation indicator as `set_truncation_indicator` does, but doesn't return the
    /// table. The only error is `OutOfMemory`. After it the table is unchanged. A proof of your own
    /// can use this fact only if it calls `try_set_truncation_indicator`, and not
    /// `set_truncation_indicator`.
    pub fn try_set_truncation_indicator(&mut self, indicator: &str) -> Result<()>
        ensures ok { OnOk result (self.new ≡ record self.old { indicator = indicator.now }) }
        ensures err { OnErr result (self.new ≡ self.old) }
    {
        let set = String::from_str(*self.rows.allocator(), indicator)?;
        self.indicator = Some(set);
        Ok(())
    }

    // `set_truncation_indicator` with the reference in a struct, so that its clause on
    // `OutOfMemory` can be proved.
    fn with_indicator_set<'a>(&'a mut self, indicator: &str) -> Result<TableReference<'a>>
        ensures* err { sem 𝓛 (TableStaysIfErr self.entry (reference_of result)) }
        ensures same_reference { IfOk (reference_of result)
            (λ table. table.ghost_name ≡ self.entry.ghost_name) }
        ensures set { IfOk (reference_of result)
            (λ table. table.now ≡ record self.old { indicator = indicator.now }) }
    {
        self.try_set_truncation_indicator(indicator)?;
        Ok(TableReference { table: self })
    }

    /// Sets the arrangement: the rule by which the widths of the columns are found. A new table has
    /// `Disabled`. `Dynamic` and `DynamicFullWidth` wrap texts so that the table keeps to its
    /// width, and act as `Disabled` if no width is known.
    pub fn set_content_arrangement(&mut self, arrangement: ContentArrangement) -> &mut Self
        ensures same_reference { result.ghost_name ≡ self.entry.ghost_name }
        ensures value { result.now ≡ record self.old { arrangement = arrangement } }
    {
        self.arrangement = arrangement;
        self
    }

    /// The rule by which the widths of the columns are found.
    pub fn content_arrangement(&self) -> ContentArrangement
        ensures { result ≡ self.now.arrangement }
    {
        self.arrangement
    }

    /// Sets the width of the table in terminal columns. `Dynamic` wraps texts so that the table
    /// isn't wider, and `DynamicFullWidth` also fills this width. The table may be wider if
    /// borders, paddings and constraints leave too little room for its columns, or if a character
    /// is wider than its column. `Disabled` uses this width only for constraints in percent, which
    /// are percentages of this width less the borders.
    ///
    /// ```
    /// table
    ///     .set_content_arrangement(ContentArrangement::DynamicFullWidth)
    ///     .set_width(80);
    /// ```
    pub fn set_width(&mut self, width: u16) -> &mut Self
        ensures same_reference { result.ghost_name ≡ self.entry.ghost_name }
        ensures value { result.now ≡ record self.old { set_width = Some width } }
    {
        self.set_width = Some(width);
        self
    }

    /// Makes SGR sequences in cells have no influence on widths, on line ends, and on the cuts by
    /// `Row::max_height`. An SGR sequence is ESC, `[`, digits, `;` and `:`, then `m`. Each line of
    /// a cell begins with the sequences that are active at its start, and ends with `ESC[0m` if a
    /// sequence is still open. A line that `Row::max_height` cuts has none of its text's sequences.
    /// In a new table this setting is off. It can't be turned off after this call.
    ///
    /// ```
    /// let mut table = Table::new(alloc);
    /// table
    ///     .custom_styling()
    ///     .set_content_arrangement(ContentArrangement::Dynamic)
    ///     .set_width(7)
    ///     .add_row(["\u{1b}[1mabcdef\u{1b}[0m"])?;
    /// let text = table.to_text()?;
    /// // +-----+
    /// // | \u{1b}[1mabc\u{1b}[0m |
    /// // | \u{1b}[1mdef\u{1b}[0m |
    /// // +-----+
    /// ```
    pub fn custom_styling(&mut self) -> &mut Self
        ensures same_reference { result.ghost_name ≡ self.entry.ghost_name }
        ensures value { result.now ≡ record self.old { custom_styling = true } }
    {
        self.custom_styling = true;
        self
    }

    /// Returns true if `custom_styling` was called. SGR sequences in cells then have no influence
    /// on widths, on line ends, and on the cuts by `Row::max_height`.
    pub fn has_custom_styling(&self) -> bool
        ensures { result ≡ self.now.custom_styling }
    {
        self.custom_styling
    }

    // The text that follows a line that is cut.
    pub(crate) fn truncation_indicator(&self) -> &str
        ensures { result.now ≡ self.now.indicator }
    {
        match &self.indicator {
            Some(indicator) => indicator.as_str(),
            None => "…",
        }
    }

    // The character at which the texts of a cell may break, in a column with this delimiter.
    pub(crate) fn delimiter_of(&self, cell: &Cell, column_delimiter: Option<char>) -> char
        ensures { result ≡ cell_delimiter self.now column_delimiter cell.now }
    {
        match cell.cell_delimiter() {
            Some(delimiter) => delimiter,
            None => self.delimiter_in(column_delimiter),
        }
    }

    // The character at which the texts of a cell without its own delimiter may break, in a column
    // with this delimiter.
    pub(crate) fn delimiter_in(&self, column_delimiter: Option<char>) -> char
        ensures { result ≡ unwrap_or column_delimiter (unwrap_or self.now.delimiter 0x20) }
    {
        match column_delimiter {
            Some(delimiter) => delimiter,
            None => self.delimiter.unwrap_or(' '),
        }
    }
}
