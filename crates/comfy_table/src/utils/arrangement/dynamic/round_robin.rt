//! Columns that take a width in turn, round and round, until none takes one.

ghost use Rattle.std.specs.Prelude.{◌≡◌, ◌<◌, ◌≤◌, IfOk, OnOk, length};
ghost use Rattle.comfy_parts.specs.CellValue.{column_padding};
ghost use Rattle.comfy_table.specs.Deciding.{HasGoneRound, all_needs, needs_in, position_after, width_at};
ghost use Rattle.comfy_table.specs.Dynamic.{lower_of_boundary, shrunk_at};

use super::budget::Budget;
use super::needs::WidthNeeds;
use crate::utils::arrangement::helper::absolute_width_with_padding;
use crate::utils::arrangement::source::TableSource;
use comfy_parts::Result;
use comfy_parts::content_split::ColumnDisplayInfo;

// The reason for which an undecided column takes its width.
#[derive(Copy, Clone)]
pub enum Rule {
    // its lower boundary is above the average
    Lower,
    // its lines leave three or more terminal columns of the average free
    Shrunk,
}

// The columns to which a rule is applied.
#[derive(Drop)]
pub struct Candidates<'a, C> {
    pub contents: &'a C,
    pub columns: &'a [WidthNeeds<'a>],
    pub rule: Rule,
}

impl<'a, C: TableSource> Candidates<'a, C> {
    // Lets the columns take their widths in turn, until none takes one. Each width that is taken
    // changes the room, and so perhaps the average. No column is tried twice at the same average.
    pub fn go_round(&self, budget: &mut Budget) -> Result<()>
        requires widths { length budget.old.widths.items ≡ length self.now.columns.now }
        requires room { budget.old.room ≤ 65535 }
        ensures { OnOk result (HasGoneRound self.now.rule
            (all_needs (C.whole self.now.contents.now) self.now.columns.now) budget.old
            budget.new) }
    {
        let mut position = 0;
        // the number of columns in a row, going round, that took nothing at this average
        let mut passed = 0;
        let mut undecided = budget.undecided();
        let mut average = budget.average(undecided);
        while passed < self.columns.len() {
            passed += 1;
            if let Some(width) = self.width_at(budget, position, average)? {
                budget.claim(position, width);
                undecided -= 1;
                let average_now = budget.average(undecided);
                if average_now != average {
                    average = average_now;
                    passed = 1;
                }
            }
            position = self.position_after(position);
        }
        Ok(())
    }

    // The next position, going round.
    fn position_after(&self, position: usize) -> usize
        requires { position < length self.now.columns.now }
        ensures { result ≡ position_after (length self.now.columns.now) position }
    {
        if position + 1 < self.columns.len() {
            position + 1
        } else {
            0
        }
    }

    // The width that the column at a position takes at this average; `None` if the column is
    // already decided or takes no width.
    fn width_at(&self, budget: &Budget, position: usize, average: usize) -> Result<Option<u16>>
        requires { average ≤ 65535 }
        ensures { IfOk result (λ width. width ≡ width_at self.now.rule average
            (all_needs (C.whole self.now.contents.now) self.now.columns.now)
            budget.now.widths.items position) }
    {
        if !budget.is_undecided(position) {
            return Ok(None);
        }
        let Some(column) = self.columns.get(position) else {
            return Ok(None);
        };
        match self.rule {
            Rule::Lower => Ok(lower_width(column, average)),
            Rule::Shrunk => shrunk_width(self.contents, column, average),
        }
    }
}

// The width that a column takes for its lower boundary, if that is above the average.
fn lower_width(column: &WidthNeeds<'_>, average: usize) -> Option<u16>
    ensures { result ≡ lower_of_boundary average
        (column_padding column.now.column.now) column.now.lower }
{
    match column.lower {
        Some(lower) if average < usize::from(lower) => {
            Some(absolute_width_with_padding(column.column, lower))
        }
        _ => None,
    }
}

// The width to which a column shrinks if it gets this average room: the width of its longest line
// in this room, if that leaves three or more terminal columns free.
fn shrunk_width<C: TableSource>(
    contents: &C,
    column: &WidthNeeds<'_>,
    average: usize,
) -> Result<Option<u16>>
    requires { average ≤ 65535 }
    ensures { IfOk result (λ width. width
        ≡ shrunk_at average (needs_in (C.whole contents.now) column.now)) }
{
    if average < 3 {
        return Ok(None);
    }
    let info = ColumnDisplayInfo::new(column.column, average as u16);
    let limit = average - 3;
    let longest = contents.longest_line(column.position, &info, limit)?;
    if longest <= limit {
        Ok(Some((longest as u16).max(1)))
    } else {
        Ok(None)
    }
}
