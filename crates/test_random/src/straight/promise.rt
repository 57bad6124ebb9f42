//! The condition for straight edges: each character fits its column.

use comfy_table::utils::arrangement::arrange_content;
use comfy_table::utils::formatting::content_split::{
    ColumnDisplayInfo, characters_fit, visible_text,
};
use comfy_table::{Cell, Result, Row, Table};
use std::alloc::Global;

/// Returns true if each visible character of the texts in shown columns has room in its column.
pub fn characters_fit_columns(alloc: Global, table: &Table) -> Result<bool> {
    let infos = arrange_content(table)?;
    let mut do_fit = true;
    for row in table.header().into_iter().chain(table.row_iter()) {
        do_fit &= row_fits(alloc, row, infos.as_slice())?;
    }
    Ok(do_fit)
}

fn row_fits(alloc: Global, row: &Row, infos: &[ColumnDisplayInfo]) -> Result<bool> {
    let mut does_fit = true;
    for (info, cell) in infos.iter().zip(row.cell_iter()) {
        does_fit &= info.is_hidden() || cell_fits(alloc, cell, info.content_width)?;
    }
    Ok(does_fit)
}

fn cell_fits(alloc: Global, cell: &Cell, width: u16) -> Result<bool> {
    let content = cell.content()?;
    let visible = visible_text(alloc, content.as_str())?;
    Ok(
        visible
            .split('\n')
            .all(|line| characters_fit(line, usize::from(width))),
    )
}
