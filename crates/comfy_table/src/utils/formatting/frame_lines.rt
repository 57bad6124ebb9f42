//! The frame lines of an arranged table, and the borders in the lines of its rows.

ghost use Rattle.std.specs.Prelude.{◌≡◌, IfOk};
ghost use Rattle.comfy_table.specs.Drawing.{outer_widths};
ghost use Rattle.comfy_table.specs.Gaps.{frame_of};

use crate::table::Table;
use crate::utils::formatting::borders::optional_frame_line;
use crate::utils::formatting::row_gaps::RowGaps;
use crate::utils::formatting::shown_column::shown_infos;
use comfy_parts::Result;
use comfy_parts::content_split::ColumnDisplayInfo;
use std::marker::Model;

/// The top border, the row separator and the bottom border, and the gaps (`Gap`) in the lines of
/// rows. A frame line that isn't drawn is `None`. The frame lines and gaps are made once for an
/// `ArrangedTable`, even if its rows are drawn in several parts (`PartEnds`).
#[derive(Drop)]
pub struct FrameLines {
    pub top: Option<String>,
    pub separator: Option<String>,
    pub bottom: Option<String>,
    pub gaps: RowGaps,
}

impl Model for FrameLines {
    ghost use Rattle.std.specs.Prelude.{map, option_to_list, string_bytes};
    ghost use Rattle.comfy_table.specs.Gaps.{FrameValue};

    ghost Value = { FrameValue };

    ghost view = { λ f. record {
      top = map string_bytes (option_to_list f.top);
      separator = map string_bytes (option_to_list f.separator);
      bottom = map string_bytes (option_to_list f.bottom);
      gaps = f.gaps;
    } };
}

impl FrameLines {
    /// The frame lines and gaps of `table`. `infos` has the width and settings of each column,
    /// hidden ones included. The only error is `OutOfMemory`.
    pub fn new(table: &Table, infos: &[ColumnDisplayInfo]) -> Result<FrameLines>
        ensures { IfOk result (λ frame. frame
            ≡ frame_of table.now.style (outer_widths infos.now)) }
    {
        let columns = shown_infos(*table.columns.allocator(), infos)?;
        let columns = columns.as_slice();
        let style = &table.style;
        Ok(FrameLines {
            top: optional_frame_line(table, &style.top_border, columns)?,
            separator: optional_frame_line(table, &style.row_separator, columns)?,
            bottom: optional_frame_line(table, &style.bottom_border, columns)?,
            gaps: RowGaps::new(table, &style.content_lines)?,
        })
    }
}
