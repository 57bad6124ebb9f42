//! Makes the cells of fields and names, and the header. A text that is drawn as it is may be
//! *lent*: its cell refers to the text without a copy. Any other text is cleaned first. The only
//! error of the functions is that memory runs out.

ghost use Rattle.std.specs.Prelude.{◌≡◌, ◌++◌, ◌∷◌, [], IfOk, IfSome, None, OnOk, Some, chars, decimal, false, if◌then◌else◌, map, option_map, string_bytes, true};
ghost use Rattle.std.specs.Cow.{cow_str_bytes};
ghost use Rattle.std.specs.List.{list_any};
ghost use Rattle.comfy_parts.specs.CellValue.{plain_cell, plain_row, with_cell};
ghost use Rattle.comfy_parts.specs.Text.{spaces};
ghost use Rattle.comfy_parts.specs.declared.style.cell.CellAlignment.TheVariants.{Right};
ghost use Rattle.comfy_table.specs.RowCells.{cell_of};
ghost use Rattle.comfy_table.specs.TextStyles.{styled_by, text_cell};
ghost use Rattle.csv_records.specs.Cleaning.{is_harmful, is_replaced};
ghost use Rattle.csv_tables.specs.Cells.{cell_for, field_text, header_for, is_blank, number_name, with_weight};
ghost use Rattle.csv_tables.specs.Columns.{name_or_number};
ghost use Rattle.csv_tables.specs.Contents.{IsKept, field_cells};
ghost use Rattle.csv_tables.specs.Decimals.{spaced};
ghost use Rattle.csv_tables.specs.Settings.{dressed, dressed_cells};
ghost use Rattle.csv_tables.specs.Styled.{placed};

use crate::columns::name_or_number;
use crate::decimals::{spaces_after, with_spaces};
use crate::markdown::{escaped, may_be_escaped};
use crate::options::{ColumnPlan, Look};
use crate::settings::{CellSettings, settings_of};
use comfy_parts::for_tables::printable_cell;
use comfy_parts::style::{Attribute, CellAlignment};
use comfy_parts::{Cell, Cells, IntoRow, Result, Row};
use comfy_table::for_records::{LinesCell, RowCell, TextCell, TextStyle};
use csv_records::{Record, cleaned, is_clean_line};
use std::alloc::{AllocError, Global};
use std::borrow::CowStr;

const BOLD: &TextStyle<'static> = &TextStyle {
    foreground: None,
    background: None,
    attributes: &[Attribute::Bold],
};

/// The cell of `text`, which isn't cleaned yet, followed by `after` spaces. The cell borrows `text`
/// if the text is drawn as it is, and otherwise has a cleaned copy.
#[inline(always)]
pub(crate) fn row_cell<'r>(
    alloc: Global,
    text: &'r str,
    after: usize,
    alignment: Option<CellAlignment>,
    is_bold: bool,
    look: &Look,
) -> Result<RowCell<'r>>
    ensures { IfOk result (λ cell. cell_of cell
        ≡ with_weight is_bold (cell_for look.now alignment (text.now ++ spaces after))) }
{
    if let Some(cell) = lent_cell(text, after, alignment, style_of(is_bold), look) {
        return Ok(RowCell::Lent(cell));
    }
    other_cell(alloc, text, after, alignment, is_bold, look)
}

/// The cell of `field` in the column `column`. If `is_aligned` is true, spaces after the field put
/// its decimal mark below the other marks of the column.
#[inline(always)]
pub(crate) fn field_cell<'r>(
    alloc: Global,
    field: &'r str,
    column: &ColumnPlan,
    is_aligned: bool,
    look: &Look,
) -> Result<RowCell<'r>>
    ensures { IfOk result (λ cell. cell_of cell ≡ cell_for look.now column.now.alignment
        (spaced look.now.has_sequences (if is_aligned then column.now.points else None)
        field.now)) }
{
    let after = spaces_of(alloc, field, column, is_aligned, look)?;
    row_cell(alloc, field, after, column.alignment, false, look)
}

/// Appends the cell that `field_cell` returns for `field` to `cells`. The cell gets the settings
/// `own`, unless they are `None`.
#[inline(always)]
pub(crate) fn push_field<'r>(
    cells: &mut Vec<RowCell<'r>>,
    alloc: Global,
    field: &'r str,
    column: &ColumnPlan,
    own: Option<&CellSettings>,
    is_aligned: bool,
    look: &Look,
) -> Result<()>
    ensures { OnOk result (map cell_of cells.new.items ≡ map cell_of cells.old.items
        ++ dressed (option_map (λ own. own.now) own.entry) (cell_for look.now column.now.alignment
        (spaced look.now.has_sequences (if is_aligned then column.now.points else None)
        field.now)) ∷ []) }
{
    let after = spaces_of(alloc, field, column, is_aligned, look)?;
    match own {
        None => push_text(cells, alloc, field, after, column.alignment, false, look),
        Some(own) => push_dressed(cells, alloc, field, after, column.alignment, own, look),
    }
}

// Appends the cell of a text, followed by `after` spaces, with the settings `own`.
#[inline(never)]
fn push_dressed<'r>(
    cells: &mut Vec<RowCell<'r>>,
    alloc: Global,
    text: &'r str,
    after: usize,
    alignment: Option<CellAlignment>,
    own: &CellSettings,
    look: &Look,
) -> Result<()>
    ensures { OnOk result (map cell_of cells.new.items ≡ map cell_of cells.old.items
        ++ dressed (Some own.now) (cell_for look.now alignment (text.now ++ spaces after)) ∷ []) }
{
    cells.push(dressed_cell(alloc, text, after, alignment, own, look)?)?;
    Ok(())
}

// The cell of a text, followed by `after` spaces, with the settings `own`. The text may be lent if
// the settings have no colour and no attribute.
#[inline(never)]
fn dressed_cell<'r>(
    alloc: Global,
    text: &'r str,
    after: usize,
    alignment: Option<CellAlignment>,
    own: &CellSettings,
    look: &Look,
) -> Result<RowCell<'r>>
    ensures { IfOk result (λ cell. cell_of cell
        ≡ dressed (Some own.now) (cell_for look.now alignment (text.now ++ spaces after))) }
{
    if own.is_plain() {
        return row_cell(alloc, text, after, own.side(alignment), false, look);
    }
    let cell = own.dressed(made_cell(alloc, text, after, alignment, false, look)?)?;
    Ok(RowCell::Made(Box::new(alloc, cell)?))
}

/// Appends the cell that `row_cell` returns for `text` to `cells`.
#[inline(always)]
pub(crate) fn push_text<'r>(
    cells: &mut Vec<RowCell<'r>>,
    alloc: Global,
    text: &'r str,
    after: usize,
    alignment: Option<CellAlignment>,
    is_bold: bool,
    look: &Look,
) -> Result<()>
    ensures { OnOk result (map cell_of cells.new.items ≡ map cell_of cells.old.items
        ++ with_weight is_bold (cell_for look.now alignment (text.now ++ spaces after)) ∷ []) }
{
    if let Some(cell) = lent_cell(text, after, alignment, style_of(is_bold), look) {
        cells.push(RowCell::Lent(cell))?;
        return Ok(());
    }
    push_other(cells, alloc, text, after, alignment, is_bold, look)
}

/// Appends a cell of `name` to `cells`. If `name` is `None`, the cell has the number of the column
/// at `position`, counted from 1. The position is counted from 0.
#[inline(always)]
pub(crate) fn push_name<'r>(
    cells: &mut Vec<RowCell<'r>>,
    alloc: Global,
    name: Option<&'r str>,
    position: usize,
    look: &Look,
) -> Result<()>
    ensures { OnOk result (map cell_of cells.new.items ≡ map cell_of cells.old.items
        ++ with_weight look.now.has_bold_header (cell_for look.now None
        (name_or_number (option_map (λ s. s.now) name.entry) position)) ∷ []) }
{
    match name {
        Some(name) => push_text(cells, alloc, name, 0, None, look.has_bold_header, look),
        None => {
            cells.push(name_cell(alloc, None, position, look)?)?;
            Ok(())
        }
    }
}

// The number of spaces that line up the decimal mark of a field, if `is_aligned`; else 0.
#[inline(always)]
fn spaces_of(
    alloc: Global,
    field: &str,
    column: &ColumnPlan,
    is_aligned: bool,
    look: &Look,
) -> std::result::Result<usize, AllocError>
    ensures { IfOk result (λ count. field.now ++ spaces count
        ≡ spaced look.now.has_sequences (if is_aligned then column.now.points else None)
        field.now) }
{
    let points = if is_aligned { column.points } else { None };
    spaces_after(alloc, points, field, look.has_sequences)
}

// Appends the cell of a text that can't be lent as a single line, followed by `after` spaces.
#[inline(never)]
fn push_other<'r>(
    cells: &mut Vec<RowCell<'r>>,
    alloc: Global,
    text: &'r str,
    after: usize,
    alignment: Option<CellAlignment>,
    is_bold: bool,
    look: &Look,
) -> Result<()>
    ensures { OnOk result (map cell_of cells.new.items ≡ map cell_of cells.old.items
        ++ with_weight is_bold (cell_for look.now alignment (text.now ++ spaces after)) ∷ []) }
{
    cells.push(other_cell(alloc, text, after, alignment, is_bold, look)?)?;
    Ok(())
}

/// The right-aligned cell of a record's number.
#[inline(never)]
pub(crate) fn number_cell<'r>(alloc: Global, number: u128, look: &Look) -> Result<RowCell<'r>>
    ensures { IfOk result (λ cell.
        cell_of cell ≡ cell_for look.now (Some Right) (decimal number)) }
{
    let text = format!(in alloc; "{number}")?;
    let right = Some(CellAlignment::Right);
    boxed_cell(alloc, text.as_str(), 0, right, false, look)
}

/// A cell of `name`. If `name` is `None`, the cell has the number of the column at `position`,
/// counted from 1. The position is counted from 0.
pub(crate) fn name_cell<'r>(
    alloc: Global,
    name: Option<&'r str>,
    position: usize,
    look: &Look,
) -> Result<RowCell<'r>>
    ensures { IfOk result (λ cell. cell_of cell
        ≡ with_weight look.now.has_bold_header (cell_for look.now None
        (name_or_number (option_map (λ s. s.now) name.entry) position))) }
{
    let is_bold = look.has_bold_header;
    match name_or_number(alloc, name, position)? {
        CowStr::Borrowed(name) => row_cell(alloc, name, 0, None, is_bold, look),
        CowStr::Owned(number) => boxed_cell(alloc, number.as_str(), 0, None, is_bold, look),
    }
}

// The cell of a text that can't be lent as a single line, followed by `after` spaces. The text is
// lent if it is drawn as it is on several lines. Otherwise the cell gets a copy.
#[inline(never)]
fn other_cell<'r>(
    alloc: Global,
    text: &'r str,
    after: usize,
    alignment: Option<CellAlignment>,
    is_bold: bool,
    look: &Look,
) -> Result<RowCell<'r>>
    ensures { IfOk result (λ cell. cell_of cell
        ≡ with_weight is_bold (cell_for look.now alignment (text.now ++ spaces after))) }
{
    if let Some(cell) = lines_cell(text, after, alignment, style_of(is_bold), look) {
        return Ok(RowCell::Several(cell));
    }
    boxed_cell(alloc, text, after, alignment, is_bold, look)
}

// A cell with a cleaned copy of a text, followed by `after` spaces, as a cell of a row.
#[inline(never)]
fn boxed_cell<'r>(
    alloc: Global,
    text: &str,
    after: usize,
    alignment: Option<CellAlignment>,
    is_bold: bool,
    look: &Look,
) -> Result<RowCell<'r>>
    ensures { IfOk result (λ cell. cell_of cell
        ≡ with_weight is_bold (cell_for look.now alignment (text.now ++ spaces after))) }
{
    let cell = made_cell(alloc, text, after, alignment, is_bold, look)?;
    Ok(RowCell::Made(Box::new(alloc, cell)?))
}

// A cell with a cleaned copy of a text, followed by `after` spaces.
fn made_cell(
    alloc: Global,
    text: &str,
    after: usize,
    alignment: Option<CellAlignment>,
    is_bold: bool,
    look: &Look,
) -> Result<Cell>
    ensures { IfOk result (λ cell. cell
        ≡ with_weight is_bold (cell_for look.now alignment (text.now ++ spaces after))) }
{
    let text = with_spaces(alloc, text, after)?;
    let cell = cleaned_cell(alloc, text.as_str(), alignment, look)?;
    if is_bold {
        return cell.add_attribute(Attribute::Bold);
    }
    Ok(cell)
}

/// The row of the header. Its texts are the fields of the record `names` at the positions of
/// `columns`; a missing field is an empty text. `settings` has the settings of the cells, by the
/// positions of fields. If `is_numbered` is true, the first cell names the column of record
/// numbers: `#`, or an empty text if `names` has no fields. The only error is `OutOfMemory`.
pub fn header_of(
    alloc: Global,
    is_numbered: bool,
    names: &Record<'_>,
    columns: &[ColumnPlan],
    settings: &[CellSettings],
    look: &Look,
) -> Result<Row>
    ensures { IfOk result (λ row. row ≡ plain_row (dressed_cells
        (placed is_numbered columns.now settings.now)
        (header_for look.now is_numbered columns.now names.now).cells)) }
{
    let capacity = columns.len() + usize::from(is_numbered);
    let mut row = Cells(Vec::with_capacity(alloc, capacity)?).into_row(alloc)?;
    if is_numbered {
        add_name(
            alloc,
            &mut row,
            number_name(names),
            Some(CellAlignment::Right),
            None,
            look,
        )?;
    }
    add_names(alloc, &mut row, names, columns, settings, look)?;
    Ok(row)
}

// Appends the cells of names, with their settings.
fn add_names(
    alloc: Global,
    row: &mut Row,
    names: &Record<'_>,
    columns: &[ColumnPlan],
    settings: &[CellSettings],
    look: &Look,
) -> Result<()>
    ensures { OnOk result (row.new ≡ record row.old {
      cells = row.old.cells ++ field_cells look.now look.now.has_bold_header false settings.now
          columns.now names.now;
    }) }
{
    for column in columns {
        let name = names.get(column.position).unwrap_or("");
        let own = settings_of(settings, column.position);
        add_name(alloc, row, name, column.alignment, own, look)?;
    }
    Ok(())
}

// Appends the cell of a name, with its settings if it has any.
fn add_name(
    alloc: Global,
    row: &mut Row,
    name: &str,
    alignment: Option<CellAlignment>,
    own: Option<&CellSettings>,
    look: &Look,
) -> Result<()>
    ensures { OnOk result (row.new ≡ with_cell (dressed (option_map (λ own. own.now) own.entry)
        (with_weight look.now.has_bold_header (cell_for look.now alignment name.now)))
        row.old) }
{
    let cell = made_cell(alloc, name, 0, alignment, look.has_bold_header, look)?;
    row.try_add_cell(dressed_if(cell, own)?)
}

// A cell with its settings, if it has any.
fn dressed_if(cell: Cell, own: Option<&CellSettings>) -> Result<Cell>
    ensures { IfOk result (λ made. made ≡ dressed (option_map (λ own. own.now) own.entry) cell) }
{
    match own {
        Some(own) => own.dressed(cell),
        None => Ok(cell),
    }
}

// The name of the column of record numbers: `#`, or an empty name if the header has no fields.
fn number_name(names: &Record<'_>) -> &'static str
    ensures { result.now ≡ number_name names.now }
{
    if names.len() == 0 { "" } else { "#" }
}

// The cell of a text. Printable ASCII needs no cleaning.
fn cleaned_cell(
    alloc: Global,
    text: &str,
    alignment: Option<CellAlignment>,
    look: &Look,
) -> Result<Cell>
    ensures { IfOk result (λ cell. cell ≡ cell_for look.now alignment text.now) }
{
    if !look.is_markdown && !is_blank(text.as_bytes()) {
        if let Some(cell) = printable_cell(alloc, text, alignment)? {
            return Ok(cell);
        }
    }
    let cell = Cell::new_owned(alloc, field_text(alloc, text, look)?)?;
    Ok(match alignment {
        Some(alignment) => cell.set_alignment(alignment),
        None => cell,
    })
}

// The text of a field's cell: cleaned, and escaped in Markdown. In other tables a blank text
// becomes empty.
fn field_text(alloc: Global, field: &str, look: &Look) -> Result<String>
    ensures { IfOk result (λ text. string_bytes text ≡ field_text look.now field.now) }
{
    if look.is_markdown {
        let text = cleaned(alloc, field, false)?;
        Ok(escaped(alloc, text.as_str())?)
    } else {
        let mut text = cleaned(alloc, field, look.has_sequences)?;
        if is_blank(text.as_bytes()) {
            text.clear();
        }
        Ok(text)
    }
}

// The style of a bold text; `None` if the text isn't bold.
#[inline(always)]
fn style_of(is_bold: bool) -> Option<&'static TextStyle<'static>>
    ensures { styled_by (option_map (λ style. style.now) result)
        ≡ with_weight is_bold (plain_cell []) }
{
    if is_bold { Some(BOLD) } else { None }
}

// The cell that a text is lent to, followed by `after` spaces, if the text is drawn as it is on one
// line. Printable ASCII is tried first, because most texts consist of it.
#[inline(always)]
fn lent_cell<'r>(
    text: &'r str,
    after: usize,
    alignment: Option<CellAlignment>,
    style: Option<&'r TextStyle<'r>>,
    look: &Look,
) -> Option<TextCell<'r>>
    ensures { IfSome result (λ cell. cell
        ≡ text_cell alignment (option_map (λ style. style.now) style.entry)
        (field_text look.now (text.now ++ spaces after))) }
{
    if is_changed(look, text, after) {
        return None;
    }
    if let Some(cell) = TextCell::of_printable(text, after, alignment, style) {
        return Some(cell);
    }
    if after > 0 {
        return None;
    }
    let cell = clean_cell(text, alignment, style)?;
    Some(cell)
}

// The cell that a text is lent to. `None` unless the text is one line that is drawn as it is.
#[inline(never)]
fn clean_cell<'r>(
    text: &'r str,
    alignment: Option<CellAlignment>,
    style: Option<&'r TextStyle<'r>>,
) -> Option<TextCell<'r>>
    ensures cell { IfSome result (λ cell. cell
        ≡ text_cell alignment (option_map (λ style. style.now) style.entry) text.now) }
    ensures clean { IfSome result (λ cell. list_any is_replaced (chars text.now) ≡ false) }
{
    if !is_clean_line(text) {
        return None;
    }
    let cell = TextCell::of_line(text, alignment, style)?;
    Some(cell)
}

// The cell that a text of several lines is lent to. `None` if spaces follow the text, if it is
// blank or for Markdown, or if one of its lines isn't drawn as it is.
fn lines_cell<'r>(
    text: &'r str,
    after: usize,
    alignment: Option<CellAlignment>,
    style: Option<&'r TextStyle<'r>>,
    look: &Look,
) -> Option<LinesCell<'r>>
    ensures { IfSome result (λ cell. cell
        ≡ text_cell alignment (option_map (λ style. style.now) style.entry)
        (field_text look.now (text.now ++ spaces after))) }
{
    if after > 0 || look.is_markdown || is_blank(text.as_bytes()) || !has_clean_lines(text) {
        return None;
    }
    let cell = LinesCell::of_lines(text, alignment, style)?;
    Some(cell)
}

// Returns true if each line of a text is drawn as it is.
fn has_clean_lines(text: &str) -> bool
    ensures { result ≡ true → list_any is_harmful (chars text.now) ≡ false }
{
    for line in text.split('\n') {
        if !is_clean_line(line) {
            return false;
        }
    }
    true
}

// Returns true if a clean field with spaces after it may be drawn as another text. A blank field
// becomes empty, and a field in Markdown may be escaped.
#[inline(always)]
fn is_changed(look: &Look, field: &str, after: usize) -> bool
    ensures { result ≡ false → IsKept look.now field.now after }
{
    if look.is_markdown {
        after > 0 || may_be_escaped(field)
    } else {
        is_blank(field.as_bytes()) && !(field.is_empty() && after == 0)
    }
}

// Returns true if all bytes are spaces and line feeds.
fn is_blank(bytes: &[u8]) -> bool
    ensures { result ≡ is_blank bytes.now }
{
    bytes.iter().all(|byte| matches!(*byte, b' ' | b'\n'))
}
