//! The columns of a table that are shown.

ghost use Rattle.std.specs.Prelude.{◌≡◌, IfOk};
ghost use Rattle.comfy_table.specs.Pieces.{shown_infos};

use comfy_parts::Result;
use comfy_parts::content_split::ColumnDisplayInfo;
use std::alloc::Global;
use std::marker::Model;

/// A column that isn't hidden, and its position in the table.
#[derive(Drop)]
pub struct ShownColumn<'a> {
    /// The position in the table's list of columns, counted from 0.
    pub position: usize,
    /// The width and settings of the column.
    pub info: &'a ColumnDisplayInfo,
}

impl<'a> Model for ShownColumn<'a> {
    ghost use Rattle.std.specs.Prelude.{ℕ};
    ghost use Rattle.comfy_parts.specs.CellValue.{ColumnInfo};

    ghost Value = { ℕ × ColumnInfo };

    ghost view = { λ c. (c.position, c.info.now) };
}

/// The columns of `infos` that aren't hidden, in the order of `infos`, each with its position in
/// `infos`. The only error is `OutOfMemory`.
pub fn shown_infos<'a>(
    alloc: Global,
    infos: &'a [ColumnDisplayInfo],
) -> Result<Vec<ShownColumn<'a>>>
    ensures { IfOk result (λ columns. columns.items ≡ shown_infos infos.now) }
{
    let mut columns = Vec::new(alloc);
    for (position, info) in infos.iter().enumerate() {
        if info.is_hidden() {
            continue;
        }
        columns.push(ShownColumn { position, info })?;
    }
    Ok(columns)
}
