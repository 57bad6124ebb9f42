//! Checks of a drawing, made without the functions that draw.

use crate::controls::has_stray_control;
use crate::drawing::Drawing;
use crate::hidden::hidden_columns_change_nothing;
use crate::kept::Reader;
use crate::sample::Sample;
use crate::stays::shown_lines_stay;
use comfy_table::utils::arrangement::helper::count_border_columns;
use comfy_table::{ContentArrangement, Result, Table};
use std::alloc::Global;

/// Draws a sample, and returns the first fault of the drawing, or `None` if it has none.
pub fn fault_of(alloc: Global, sample: &Sample) -> Result<Option<&'static str>> {
    let drawing = drawing_of(alloc, &sample.table)?;
    let fault = fault_of_counts(sample, &drawing);
    if fault.is_some() {
        return Ok(fault);
    }
    fault_of_texts(alloc, sample, &drawing)
}

fn drawing_of(alloc: Global, table: &Table) -> Result<Drawing> {
    let mut drawing = Drawing::new(alloc, table.has_custom_styling());
    add_lines(alloc, table, &mut drawing)?;
    Ok(drawing)
}

fn add_lines(alloc: Global, table: &Table, drawing: &mut Drawing) -> Result<()> {
    for line in table.lines()? {
        drawing.add_line(alloc, line)?;
    }
    Ok(())
}

fn fault_of_counts(sample: &Sample, drawing: &Drawing) -> Option<&'static str> {
    let frame = drawing.frame_counts.first().copied().unwrap_or(0);
    if !are_all(drawing.frame_counts.as_slice(), frame) {
        return Some("frame lines have unlike counts");
    }
    if !keeps_to_width(&sample.table, frame) {
        return Some("the width doesn't hold");
    }
    if sample.contents.kind.is_printable
        && !is_cut(sample, drawing)
        && !are_all(drawing.row_counts.as_slice(), frame)
    {
        return Some("lines have unlike counts");
    }
    None
}

fn fault_of_texts(
    alloc: Global,
    sample: &Sample,
    drawing: &Drawing,
) -> Result<Option<&'static str>> {
    if !keeps_texts(alloc, sample, drawing)? {
        return Ok(Some("a text is lost or changed"));
    }
    if !hidden_columns_change_nothing(alloc, &sample.table)? {
        return Ok(Some("a hidden column changes the lines"));
    }
    if !shown_lines_stay(&sample.table)? {
        return Ok(Some("a further row changes lines above it"));
    }
    if !sample.has_own_indicator && has_stray_control(alloc, &sample.table)? {
        return Ok(Some("a line has a control character of no text"));
    }
    if drawing.leaves_open {
        return Ok(Some("a sequence is left open"));
    }
    if sample.contents.kind.has_sequences && !is_drawn_as_visible(alloc, sample, drawing)? {
        return Ok(Some("sequences change the lines"));
    }
    Ok(None)
}

// returns true if the drawing has all texts of the cells, without changes
fn keeps_texts(alloc: Global, sample: &Sample, drawing: &Drawing) -> Result<bool> {
    let has_sequences = sample.contents.kind.has_sequences;
    let mut reader = Reader::new(alloc, sample.delimiter, has_sequences);
    read_rows(&sample.table, drawing, &mut reader)?;
    Ok(reader.are_kept)
}

fn read_rows(table: &Table, drawing: &Drawing, reader: &mut Reader) -> Result<()> {
    let columns = table.column_iter().as_slice();
    reader.read_rows(
        columns,
        table.header(),
        table.row_iter().as_slice(),
        drawing,
    )
}

fn are_all(counts: &[usize], wanted: usize) -> bool {
    counts.iter().all(|count| *count == wanted)
}

// returns true if a row's height cut a line; with a truncation indicator of the sample's own, true
// if it may have cut one
fn is_cut(sample: &Sample, drawing: &Drawing) -> bool {
    if sample.has_own_indicator {
        sample.contents.is_limited
    } else {
        drawing.has_indicator
    }
}

// returns true if each line has as many visible characters as in the drawing of the same texts
// without sequences
fn is_drawn_as_visible(alloc: Global, sample: &Sample, drawing: &Drawing) -> Result<bool> {
    let visible = sample.as_visible(alloc)?;
    is_drawn_alike(alloc, &visible, drawing)
}

fn is_drawn_alike(alloc: Global, visible: &Sample, drawing: &Drawing) -> Result<bool> {
    let other = drawing_of(alloc, &visible.table)?;
    Ok(visible.contents.has_formed || other.has_counts_of(drawing))
}

/// Returns true if a frame line of `count` characters keeps to the table's width. It may have more
/// characters if borders, paddings and one character for each shown column are more than the width.
/// Also returns true if the table has no width to keep to, or if a shown column has a constraint.
pub fn keeps_to_width(table: &Table, count: usize) -> bool {
    let Some(width) = table.width() else {
        return true;
    };
    let mut visible: usize = 0;
    // the number of characters for borders, for the paddings of shown columns, and one for each
    // shown column
    let mut least: usize = 0;
    let mut are_free = true;
    for column in table.column_iter() {
        if !column.is_hidden() {
            visible = visible.saturating_add(1);
            least = least.saturating_add(1 + usize::from(column.padding_width()));
            are_free &= column.constraint().is_none();
        }
    }
    let least = least.saturating_add(count_border_columns(table, visible));
    let bound = least.max(usize::from(width));
    match table.content_arrangement() {
        _ if !are_free => true,
        ContentArrangement::Disabled => true,
        ContentArrangement::Dynamic => count <= bound,
        ContentArrangement::DynamicFullWidth => visible == 0 || count == bound,
    }
}
