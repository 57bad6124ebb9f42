//! The widths that are decided, and the room that is left.

ghost use Rattle.std.specs.Prelude.{◌≡◌, ◌-◌, IfOk, Some, length, map, slice_set};
ghost use Rattle.comfy_table.specs.Arrangement.{room_beside_borders};
ghost use Rattle.comfy_table.specs.Deciding.{all_needs, average_room, is_undecided, undecided_count};
ghost use Rattle.comfy_table.specs.Dynamic.{content_room};
ghost use Rattle.comfy_table.specs.Widths.{ColumnNeeds, shown_count};

use super::needs::WidthNeeds;
use crate::utils::arrangement::helper::count_border_columns;
use crate::utils::arrangement::source::TableSource;
use comfy_parts::Result;

// The content widths of the shown columns while they are decided.
#[derive(Drop)]
pub struct Budget {
    // in the order of the table's columns; `None` while a column is undecided
    pub widths: Vec<Option<u16>>,
    // the terminal columns that are left for the contents of undecided columns
    pub room: usize,
}

impl Budget {
    // Only fixed widths are decided. The room is the table's width less these widths, the borders
    // and all paddings.
    pub fn new<C: TableSource>(
        contents: &C,
        columns: &[WidthNeeds<'_>],
        width: u16,
    ) -> Result<Budget>
        requires { length columns.now ≡ shown_count (C.whole contents.now) }
        ensures widths { IfOk result
            (λ budget. budget.widths.items
            ≡ map (λ (c : ColumnNeeds). c.fixed)
            (all_needs (C.whole contents.now) columns.now)) }
        ensures room { IfOk result (λ budget. budget.room
            ≡ content_room (room_beside_borders (C.whole contents.now) width)
            (all_needs (C.whole contents.now) columns.now)) }
    {
        let table = contents.table();
        let borders = count_border_columns(table, columns.len());
        let mut room = usize::from(width).saturating_sub(borders);
        let mut widths = Vec::new(*table.columns.allocator());
        for column in columns {
            room = room
                .saturating_sub(usize::from(column.fixed.unwrap_or(0)))
                .saturating_sub(column.padding());
            widths.push(column.fixed)?;
        }
        Ok(Budget { widths, room })
    }

    // Returns true if the column at a position is undecided.
    pub fn is_undecided(&self, position: usize) -> bool
        ensures { result ≡ is_undecided self.now.widths.items position }
    {
        matches!(self.widths.get(position), Some(None))
    }

    // The number of undecided columns.
    pub fn undecided(&self) -> usize
        ensures { result ≡ undecided_count self.now.widths.items }
    {
        let mut count = 0;
        for width in self.widths.as_slice() {
            if width.is_none() {
                count += 1;
            }
        }
        count
    }

    // The average room of an undecided column, rounded down; 0 if no column is undecided. The
    // number of undecided columns is a parameter, so that a loop needn't count them each time.
    pub fn average(&self, undecided: usize) -> usize
        requires { undecided ≡ undecided_count self.now.widths.items }
        ensures { result ≡ average_room self.now }
    {
        self.room.checked_div(undecided).unwrap_or(0)
    }

    // Decides the width of the column at a position, and subtracts it from the room, down to 0.
    pub fn claim(&mut self, position: usize, width: u16)
        ensures widths { self.new.widths.items
            ≡ slice_set self.old.widths.items position (Some width) }
        ensures room { self.new.room ≡ self.old.room - width }
    {
        if let Some(claimed) = self.widths.get_mut(position) {
            *claimed = Some(width);
        }
        self.room = self.room.saturating_sub(usize::from(width));
    }
}
