//! Room that is spread evenly over columns.

ghost use Rattle.std.specs.Prelude.{◌≡◌, ◌≤◌, ◌<◌, IfOk, max};
ghost use Rattle.comfy_table.specs.Deciding.{HasRoomToSpread, final_widths, shared_evenly, undecided_count, with_room_spread};
ghost use Rattle.comfy_table.specs.Widths.{part_of};

use super::budget::Budget;
use comfy_parts::Result;
use std::alloc::Global;

// The final widths. The undecided columns share the room, and get at least one terminal column
// each. If no column is undecided and `full` is true, the room is spread over all columns.
pub fn final_widths(budget: &Budget, full: bool, alloc: Global) -> Result<Vec<u16>>
    requires { HasRoomToSpread budget.now }
    ensures { IfOk result (λ widths. widths.items ≡ final_widths full budget.now) }
{
    let undecided = budget.undecided();
    if full && undecided == 0 {
        widened(budget, alloc)
    } else {
        shared_evenly(budget, undecided, alloc)
    }
}

// All widths, with the room shared among the undecided columns.
fn shared_evenly(budget: &Budget, undecided: usize, alloc: Global) -> Result<Vec<u16>>
    requires room { budget.now.room ≤ 65535 }
    requires count { undecided ≡ undecided_count budget.now.widths.items }
    ensures { IfOk result (λ widths. widths.items ≡ shared_evenly budget.now) }
{
    let room = budget.room.max(undecided);
    let mut widths = Vec::new(alloc);
    let mut index = 0usize;
    for width in budget.widths.as_slice() {
        match width {
            Some(width) => widths.push(*width)?,
            None => {
                widths.push(even_part(room, undecided, index))?;
                index += 1;
            }
        }
    }
    Ok(widths)
}

// All widths, with the room spread over all of them.
fn widened(budget: &Budget, alloc: Global) -> Result<Vec<u16>>
    requires { HasRoomToSpread budget.now }
    ensures { IfOk result (λ widths. widths.items ≡ with_room_spread budget.now) }
{
    let count = budget.widths.len();
    let mut widths = Vec::new(alloc);
    for (position, width) in budget.widths.iter().enumerate() {
        widths.push(width.unwrap_or(0) + even_part(budget.room, count, position))?;
    }
    Ok(widths)
}

// The part at an index of a room in `count` even parts. The first parts are one larger, if the room
// can't be divided evenly.
fn even_part(room: usize, count: usize, index: usize) -> u16
    requires some { 0 < count }
    requires fits { room ≤ max 65535 count }
    ensures part { result ≡ part_of room count index }
    ensures at_most { result ≤ room }
{
    let more = usize::from(index < room % count);
    (room / count + more) as u16
}
