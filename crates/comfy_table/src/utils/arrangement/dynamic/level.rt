//! Decides columns whose upper boundary or content is at most the level. The level is a number of
//! terminal columns: the average room of the columns that are still undecided after this step.

ghost use Rattle.std.specs.Prelude.{◌≡◌, ◌≤◌, ◌<◌, Some, length};
ghost use Rattle.comfy_table.specs.Deciding.{HasSettled, HasTaken, all_needs, average_room, needs_in, undecided_among};
ghost use Rattle.comfy_table.specs.Dynamic.{IsLevel, average, settled_at, settled_claims};
ghost use Rattle.comfy_table.specs.TableValue.{TableValue};

use super::budget::Budget;
use super::needs::WidthNeeds;
use crate::utils::arrangement::helper::absolute_width_with_padding;

// Decides each undecided column whose upper boundary or content is at most the level. If the
// average room of the undecided columns is 0, no column is decided.
pub fn settle(columns: &[WidthNeeds<'_>], budget: &mut Budget)
    requires { length budget.old.widths.items ≡ length columns.now }
    ensures { (table : TableValue)
        → HasSettled (all_needs table columns.now) budget.old budget.new }
{
    let average = budget.average(budget.undecided());
    if 0 < average {
        let level = level_from(columns, budget, average);
        settle_at(columns, budget, level);
    }
}

// The level: starts at the average, and rises until the columns that it leaves undecided have no
// more average room than the level.
fn level_from(columns: &[WidthNeeds<'_>], budget: &Budget, average: usize) -> usize
    requires widths { length budget.now.widths.items ≡ length columns.now }
    requires average { average ≡ average_room budget.now }
    requires some { 0 < average }
    ensures { (table : TableValue)
        → IsLevel budget.now.room (undecided_among
        (all_needs table columns.now) budget.now.widths.items) (Some result) }
{
    let mut level = average;
    let mut raised = average_beside(columns, budget, level);
    while level < raised {
        level = raised;
        raised = average_beside(columns, budget, level);
    }
    level
}

// The average room of the columns that a level leaves undecided; 0 if it leaves none.
fn average_beside(columns: &[WidthNeeds<'_>], budget: &Budget, level: usize) -> usize
    ensures at_most { result ≤ budget.now.room }
    ensures average { (table : TableValue)
        → result ≡ average budget.now.room
        (undecided_among (all_needs table columns.now) budget.now.widths.items)
        (settled_claims (Some level)
        (undecided_among (all_needs table columns.now) budget.now.widths.items)) }
{
    let mut room = budget.room;
    let mut left = 0usize;
    for (position, column) in columns.iter().enumerate() {
        if budget.is_undecided(position) {
            match settled_width(column, level) {
                Some(width) => room = room.saturating_sub(usize::from(width)),
                None => left += 1,
            }
        }
    }
    room.checked_div(left).unwrap_or(0)
}

// Decides the undecided columns to which a level gives a width.
fn settle_at(columns: &[WidthNeeds<'_>], budget: &mut Budget, level: usize)
    ensures { (table : TableValue)
        → HasTaken (settled_claims (Some level)
        (undecided_among (all_needs table columns.now) budget.old.widths.items)) budget.old
        budget.new }
{
    for (position, column) in columns.iter().enumerate() {
        if budget.is_undecided(position)
            && let Some(width) = settled_width(column, level)
        {
            budget.claim(position, width);
        }
    }
}

// The width that a level gives an undecided column: its upper boundary less the paddings, if that
// is at most the level and at most the content. Otherwise its content, if that is at most the
// level, and otherwise `None`.
fn settled_width(column: &WidthNeeds<'_>, level: usize) -> Option<u16>
    ensures { (table : TableValue) → result ≡ settled_at (Some level) (needs_in table column.now) }
{
    let most = level.min(usize::from(column.content));
    if let Some(upper) = column.upper
        && usize::from(upper).saturating_sub(column.padding()) <= most
    {
        return Some(absolute_width_with_padding(column.column, upper));
    }
    if usize::from(column.content) <= level {
        Some(column.content.max(1))
    } else {
        None
    }
}
