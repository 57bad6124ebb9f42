//! The gaps (`Gap`) between the pieces of a row's lines.

ghost use Rattle.std.specs.Prelude.{◌≡◌, ◌++◌, IfOk, OnOk, string_bytes};
ghost use Rattle.comfy_parts.specs.Text.{spaces};
ghost use Rattle.comfy_table.specs.Gaps.{row_gaps};

use crate::table::Table;
use crate::utils::formatting::gap::Gap;
use comfy_parts::Result;
use comfy_parts::style::ContentLineStyle;
use std::marker::Model;

/// The gaps in the lines of rows. A gap (`Gap`) is a border with the spaces beside it: before the
/// first text of a line, between each two texts, or after the last text.
#[derive(Drop)]
pub struct RowGaps {
    left: Gap,
    junction: Gap,
    right: Gap,
}

impl Model for RowGaps {
    ghost use Rattle.comfy_table.specs.Gaps.{RowGapsValue};

    ghost Value = { RowGapsValue };

    ghost view = { λ g. record { left = g.left; junction = g.junction; right = g.right } };
}

impl RowGaps {
    /// The gaps in the lines of the header, or in the lines of rows. `line` has the characters of
    /// the borders in these gaps. The only error is `OutOfMemory`.
    pub fn new(table: &Table, line: &ContentLineStyle) -> Result<RowGaps>
        ensures { IfOk result (λ gaps. gaps ≡ row_gaps table.now.style line.now) }
    {
        let alloc = *table.columns.allocator();
        let style = &table.style;
        Ok(RowGaps {
            left: Gap::new(alloc, style.draws_left_border(), line.left)?,
            junction: Gap::new(alloc, style.draws_vertical_lines(), line.junction)?,
            right: Gap::new(alloc, style.draws_right_border(), line.right)?,
        })
    }

    /// The gap before the first piece of a line, with the left border.
    pub fn left(&self) -> &Gap
        ensures { result.now ≡ self.now.left }
    {
        &self.left
    }

    /// The gap between two pieces of a line, with the vertical line.
    pub fn junction(&self) -> &Gap
        ensures { result.now ≡ self.now.junction }
    {
        &self.junction
    }

    /// Appends the end of a line: `free` spaces and the right border. The only error is
    /// `OutOfMemory`; `text` may then have a part of this end.
    #[inline(always)]
    pub fn push_end(&self, text: &mut String, free: usize) -> Result<()>
        ensures { OnOk result (string_bytes text.new
            ≡ string_bytes text.old ++ (spaces free ++ self.now.right)) }
    {
        self.right.push(text, free, 0)
    }
}
