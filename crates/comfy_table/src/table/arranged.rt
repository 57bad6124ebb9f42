//! Tables with widths for their columns, and parts of such tables.

ghost use Rattle.std.specs.Prelude.{◌≡◌, ◌++◌, IfOk, IfSome, OnErr, OnOk, drop, string_bytes, take};
ghost use Rattle.std.specs.List.{All};
ghost use Rattle.comfy_parts.specs.CellValue.{IsColumn, IsRow};
ghost use Rattle.comfy_table.specs.Arrangement.{AreInfosOf};
ghost use Rattle.comfy_table.specs.Drawing.{part_of_drawing, terminated_text_of};
ghost use Rattle.comfy_table.specs.Output.{BeginsWith, with_lines};
ghost use Rattle.comfy_table.specs.TableValue.{with_other_rows};
ghost use Rattle.comfy_table.specs.Parts.{IsArrangedTable, part_text};

use crate::table::Table;
use crate::table::row_writer::RowWriter;
use crate::utils::arrangement::arrange;
use crate::utils::arrangement::source::TableSource;
use crate::utils::formatting::{FrameLines, Output, PartEnds, Writer};
use comfy_parts::content_split::ColumnDisplayInfo;
use comfy_parts::{Column, Result, Row};
use std::marker::Model;

/// A table with the widths of its columns. It is drawn in parts: some of its rows, with header and
/// borders, all at the widths of the whole table. For example, the parts are the pages of a large
/// table, or single records that are drawn one after another. `Table::arranged` makes an
/// `ArrangedTable` from a table, and `ArrangedTable::of_contents` from a table whose rows are
/// stored outside of it (`TableSource`).
///
/// Each line of a part is a line of the whole drawing, by the law
/// `laws::parts_have_lines_of_the_table`.
///
/// ```
/// let mut table = Table::new(alloc);
/// table
///     .add_row(["17", "dock 3"])?
///     .add_row(["8", "rented"])?;
/// let arranged = table.arranged()?;
/// let mut text = String::new(alloc);
/// arranged.push_rows(&mut text, 0, 1)?;
/// arranged.push_rows(&mut text, 1, 1)?;
/// print!(rt; "{text}")?;
/// // +----+--------+
/// // | 17 | dock 3 |
/// // +----+--------+
/// // +----+--------+
/// // | 8  | rented |
/// // +----+--------+
/// ```
#[derive(Drop)]
pub struct ArrangedTable<C: TableSource> {
    contents: C,
    infos: Vec<ColumnDisplayInfo>,
    frame: FrameLines,
}

impl<C: TableSource> Model for ArrangedTable<C> {
    ghost use Rattle.std.specs.Prelude.{◌≡◌};
    ghost use Rattle.comfy_table.specs.Drawing.{outer_widths};
    ghost use Rattle.comfy_table.specs.Gaps.{frame_of};
    ghost use Rattle.comfy_table.specs.ArrangedContents.{ArrangedContents};

    ghost Value = { ArrangedContents C };

    ghost invariant = { λ a. a.frame
        ≡ frame_of (C.whole a.contents).style (outer_widths a.infos.items) };

    ghost view = { λ a. record { contents = a.contents; infos = a.infos.items } };
}

impl Table {
    /// The table as it is now, with the widths of its columns, for drawing the table in parts. The
    /// only error is `OutOfMemory`.
    pub fn arranged(&self) -> Result<ArrangedTable<&Table>>
        ensures table { IfOk result (λ arranged. arranged.contents.now ≡ self.now) }
        ensures infos { IfOk result (λ arranged. IsArrangedTable self.now
            (record { table = self.now; infos = arranged.infos })) }
    {
        look_at_rows(self.rows.as_slice());
        ArrangedTable::of_contents(self)
    }
}

impl<C: TableSource> ArrangedTable<C> {
    /// The table of `contents`, with the widths of its columns. `contents` may store its rows
    /// outside of the `Table`. The only error is `OutOfMemory`.
    ///
    /// In a proof, the clause `drawing` applies if each row is well formed (`IsRow`): each cell
    /// then has at least one text line.
    pub fn of_contents(contents: C) -> Result<ArrangedTable<C>>
        ensures contents { IfOk result (λ arranged. arranged.contents ≡ contents) }
        ensures drawing { IfOk result (λ arranged. All IsRow (C.whole contents).rows
            → IsArrangedTable (C.whole contents)
            (record { table = C.whole contents; infos = arranged.infos })) }
        ensures infos { IfOk result (λ arranged.
            AreInfosOf (C.whole contents) arranged.infos) }
    {
        let infos = infos_of(&contents)?;
        let frame = FrameLines::new(contents.table(), infos.as_slice())?;
        Ok(ArrangedTable {
            contents,
            infos,
            frame,
        })
    }

    /// The value that this `ArrangedTable` was made from: the argument of `of_contents`, or a
    /// reference to the table after `Table::arranged`.
    pub fn contents(&self) -> &C
        ensures { result.now ≡ self.now.contents }
    {
        &self.contents
    }

    /// A writer that draws rows of the table one after another. The only error is `OutOfMemory`.
    pub fn row_writer(&self) -> Result<RowWriter<'_>>
        ensures table { IfOk result (λ writer. with_other_rows
            (C.whole self.now.contents).rows writer.table ≡ C.whole self.now.contents) }
        ensures infos { IfOk result (λ writer. writer.infos ≡ self.now.infos) }
    {
        RowWriter::new(self.contents.table(), self.infos.as_slice(), &self.frame)
    }

    /// The width and settings of each column, hidden ones included, in the order of the table's
    /// columns.
    pub fn infos(&self) -> &[ColumnDisplayInfo]
        ensures { result.now ≡ self.now.infos }
    {
        self.infos.as_slice()
    }

    // Appends the lines of these rows, with the frame lines and the header that `extent` requires.
    // After `OutOfMemory` the output still begins with its old content.
    pub(crate) fn draw<O: Output>(
        &self,
        rows: &[Row],
        extent: PartEnds,
        output: &mut O,
    ) -> Result<()>
        ensures ok { OnOk result (O.kept output.new
            ≡ with_lines O.kept_of (part_of_drawing (C.whole self.now.contents) self.now.infos
            extent.is_first extent.is_last rows.now) (O.kept output.old)) }
        ensures err { OnErr result (BeginsWith (O.kept output.new) (O.kept output.old)) }
    {
        let table = self.contents.table();
        let mut writer = Writer::new(table, self.infos.as_slice(), &self.frame)?;
        writer.draw(rows, extent, output)
    }
}

impl<'a> ArrangedTable<&'a Table> {
    /// Appends a part of the drawing: the table with only `count` of its rows, starting at position
    /// `first`. Positions are counted from 0, without the header. If the table has fewer rows from
    /// this position on, the part has only those rows, and perhaps only the header and the borders.
    /// Each line is followed by a line feed. The only error is `OutOfMemory`; `text` is then
    /// unchanged.
    ///
    /// ```
    /// let mut page = String::new(alloc);
    /// table.arranged()?.push_rows(&mut page, 40, 20)?;
    /// ```
    pub fn push_rows(&self, text: &mut String, first: usize, count: usize) -> Result<()>
        ensures ok { OnOk result (string_bytes text.new
            ≡ string_bytes text.old ++ part_text (record {
              table = self.now.contents.now;
              infos = self.now.infos;
            }) first count) }
        ensures err { OnErr result (string_bytes text.new ≡ string_bytes text.old) }
    {
        let table = self.contents;
        let rows = rows_from(table.rows.as_slice(), first, count);
        self.row_writer()?.push_rows(text, rows, PartEnds::WHOLE)
    }
}

// The width and settings of each column, in the order of the table's columns.
fn infos_of<C: TableSource>(contents: &C) -> Result<Vec<ColumnDisplayInfo>>
    ensures drawing { IfOk result (λ infos. All IsRow (C.whole contents.now).rows
        → IsArrangedTable (C.whole contents.now)
        (record { table = C.whole contents.now; infos = infos.items })) }
    ensures infos { IfOk result (λ infos. AreInfosOf (C.whole contents.now) infos.items) }
{
    let table = contents.table();
    look_at_columns(table.columns.as_slice());
    look_at_header(&table.header);
    // Proof only: reading the truncation indicator shows that it is UTF-8.
    let _ = &table.indicator;
    let infos = arrange(contents)?;
    Ok(infos)
}

// The first `count` rows starting at position `first`. There are fewer if the list ends before.
fn rows_from(rows: &[Row], first: usize, count: usize) -> &[Row]
    ensures { result.now ≡ take count (drop first rows.now) }
{
    let rest = &rows[first.min(rows.len())..];
    &rest[..count.min(rest.len())]
}

// Proof only: reading columns, the header and rows shows that their invariants hold.
fn look_at_columns(columns: &[Column])
    ensures { All IsColumn columns.now }
{
    columns.iter().for_each(|column| {
        let _ = column.column_delimiter();
    });
}

fn look_at_header(header: &Option<Row>)
    ensures { IfSome header.now IsRow }
{
    if let Some(row) = header {
        let _ = row.cell_count();
    }
}

fn look_at_rows(rows: &[Row])
    ensures { All IsRow rows.now }
{
    rows.iter().for_each(|row| {
        let _ = row.cell_count();
    });
}
