//! The memory of a row's pieces.

use crate::support::row_of;
use comfy_table::utils::formatting::content_format::format_row;
use comfy_table::utils::formatting::content_split::ColumnDisplayInfo;
use comfy_table::{Cell, Color, Column, Row, Table};
use std::alloc::{Alloc, Global};
use std::process::Abort;

// Fails unless the pieces of a row have room only for their bytes. Each is in a column of three
// terminal columns and two paddings.
fn assert_rooms(rt: &(impl Abort + Alloc<A = Global>), table: &Table, row: &Row, wanted: &[usize]) {
    let column = Column::new(0);
    let info = || ColumnDisplayInfo::new(&column, 3);
    let infos = [info(), info(), info(), info()];
    let lines = format_row(row, &infos, table).expect(rt, "memory");
    assert!(rt; lines.len() == 1);
    for pieces in &lines {
        assert!(rt; pieces.len() == wanted.len());
        for (piece, bytes) in pieces.iter().zip(wanted) {
            assert!(rt; piece.len() == *bytes);
            assert!(rt; piece.capacity() == *bytes);
        }
    }
}

#[test]
fn pieces_of_texts_have_room_for_their_bytes(rt: HostRuntime) {
    let table = Table::new(rt.alloc());
    let row = row_of(&rt, ["abc", "ééé", "年", ""]);
    assert_rooms(&rt, &table, &row, &[5, 8, 6, 5]);
}

// The sequence for red has nine bytes, and the one that ends it has five. A column without a cell
// has a piece of spaces.
#[test]
fn styled_pieces_have_room_for_their_sequences(rt: HostRuntime) {
    let mut table = Table::new(rt.alloc());
    table.enforce_styling();
    let cell = Cell::new(rt.alloc(), "xyz").expect(&rt, "memory");
    let row = row_of(&rt, [cell.fg(Color::Red)]);
    assert_rooms(&rt, &table, &row, &[19, 5, 5, 5]);
}

// The indicator has three bytes, and so has each letter.
#[test]
fn cut_pieces_have_room_for_their_indicators(rt: HostRuntime) {
    let table = Table::new(rt.alloc());
    let mut row = row_of(&rt, ["abcdef", "éé éé"]);
    row.max_height(1);
    assert_rooms(&rt, &table, &row, &[7, 9, 5, 5]);
}
