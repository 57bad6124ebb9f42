//! Makes the tables of records, without their rows, by a look.

ghost use Rattle.std.specs.Prelude.{◌≡◌, ◌+◌, ◌||◌, IfOk, decimal, option_map};
ghost use Rattle.csv_tables.specs.Cells.{number_of};
ghost use Rattle.csv_tables.specs.Drawn.{arrangement_for, empty_table, headed_table, markdown_look, markdown_style};
ghost use Rattle.csv_tables.specs.Styled.{dressed_table};

use crate::cells::header_of;
use crate::options::Look;
use crate::selected::SelectedRecords;
use crate::settings::{RowSettings, cell_settings};
use comfy_table::presets::ASCII_MARKDOWN;
use comfy_table::{ContentArrangement, LineStyle, Result, Table, TableStyle};
use csv_records::Record;
use std::alloc::Global;

impl SelectedRecords {
    // The number of the row at the place `at`, counted from 1, if rows are numbered. Places are
    // counted from 0.
    pub(crate) fn number_at(&self, at: usize) -> Option<u128>
        ensures { option_map decimal result ≡ number_of self.now.is_numbered (at + 1) }
    {
        if self.is_numbered {
            Some(at as u128 + 1)
        } else {
            None
        }
    }

    // A table with a header of these names, if there are any, and with the settings of rows.
    pub(crate) fn headed_table(
        &self,
        names: Option<Record<'_>>,
        settings: &[RowSettings],
        look: &Look,
    ) -> Result<Table>
        ensures { IfOk result (λ table. table ≡ dressed_table self.now settings.now
            (headed_table look.now self.now.is_numbered self.now.columns names.entry)) }
    {
        let mut table = empty_table(self.alloc, !settings.is_empty(), look);
        if let Some(names) = &names {
            let columns = self.columns.as_slice();
            let cells = cell_settings(settings.first());
            let header = header_of(self.alloc, self.is_numbered, names, columns, cells, look)?;
            table.try_set_header(header)?;
        }
        Ok(table)
    }
}

/// A table without rows that has the frame and the width of `look`, and treats SGR sequences as
/// `look` sets. If `is_styled` is true, or if the header is bold, colours and attributes are
/// written even if the output isn't a terminal.
pub(crate) fn empty_table(alloc: Global, is_styled: bool, look: &Look) -> Table
    ensures { result ≡ record (empty_table look.now) {
      enforce_styling = is_styled || look.now.has_bold_header;
    } }
{
    let mut table = Table::new(alloc);
    table
        .load_style(look.style)
        .set_content_arrangement(arrangement_of(look));
    if let Some(width) = look.width {
        table.set_width(width);
    }
    if is_styled || look.has_bold_header {
        table.enforce_styling();
    }
    if look.has_sequences {
        table.custom_styling();
    }
    table
}

// The rule for the widths of the columns.
fn arrangement_of(look: &Look) -> ContentArrangement
    ensures { result ≡ arrangement_for look.now.width look.now.fills_width }
{
    match look.width {
        None => ContentArrangement::Disabled,
        Some(_) if look.fills_width => ContentArrangement::DynamicFullWidth,
        Some(_) => ContentArrangement::Dynamic,
    }
}

/// The look of a table for Markdown: `look` with the style of Markdown, but without a width, a
/// greatest height, a bold header and SGR sequences.
pub(crate) fn markdown_look(look: Look) -> Look
    ensures { result ≡ markdown_look look }
{
    Look {
        style: markdown_style(),
        width: None,
        fills_width: false,
        max_height: None,
        has_bold_header: false,
        has_sequences: false,
        is_markdown: true,
        ..look
    }
}

// The style of a table for Markdown, without the line below the header, which `push_rule` writes.
fn markdown_style() -> TableStyle
    ensures { result ≡ markdown_style }
{
    ASCII_MARKDOWN.header_separator(LineStyle::none())
}
