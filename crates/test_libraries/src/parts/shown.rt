//! Hashes of cells, and the debug texts of cells, rows, tables and infos. The debug text of a value
//! contains that of each part.

use crate::support::table_of;
use comfy_parts::content_split::ColumnDisplayInfo;
use comfy_parts::style::{Attribute, CellAlignment, Color};
use comfy_parts::{Cell, Column, IntoRow};
use std::alloc::{Alloc, Global};
use std::fmt::Debug;
use std::hash::{DefaultHasher, Hash, Hasher};
use std::process::Abort;

fn hash_of<T: Hash>(value: &T) -> u64 {
    let mut hasher = DefaultHasher::new();
    value.hash(&mut hasher);
    hasher.finish()
}

fn cell_of(rt: &(impl Abort + Alloc<A = Global>), text: &str) -> Cell {
    Cell::new(rt.alloc(), text).expect(rt, "memory")
}

// The same text with one setting each, and other texts.
fn other_cells(rt: &(impl Abort + Alloc<A = Global>)) -> [Cell; 7] {
    let bold = cell_of(rt, "a\nb").add_attribute(Attribute::Bold);
    [
        cell_of(rt, "a b"),
        cell_of(rt, "a\nb\n"),
        cell_of(rt, "a\nb").set_delimiter('-'),
        cell_of(rt, "a\nb").set_alignment(CellAlignment::Right),
        cell_of(rt, "a\nb").fg(Color::Green),
        cell_of(rt, "a\nb").bg(Color::Green),
        bold.expect(rt, "memory"),
    ]
}

#[test]
fn equal_cells_alone_hash_alike(rt: HostRuntime) {
    let hash = hash_of(&cell_of(&rt, "a\nb"));
    assert!(rt; hash_of(&cell_of(&rt, "a\nb")) == hash);
    for cell in &other_cells(&rt) {
        assert!(rt; hash_of(cell) != hash);
    }
}

const CELL: &str = "Cell { text_lines: [\"a\", \"b\"], delimiter: None, alignment: None, \
    foreground: Some(Green), background: None, attributes: [] }";

// Fails unless the debug text of a value contains these words.
fn assert_shown<T: Debug>(rt: &(impl Abort + Alloc<A = Global>), value: &T, words: &str) {
    let text = format!(in rt.alloc(); "{value:?}").expect(rt, "memory");
    assert!(rt; text.contains(words));
}

#[test]
fn debug_texts_show_the_parts(rt: HostRuntime) {
    let cell = cell_of(&rt, "a\nb").fg(Color::Green);
    assert_shown(&rt, &cell, CELL);
    let row = [cell].into_row(rt.alloc()).expect(&rt, "memory");
    assert_shown(&rt, &row, CELL);
    assert_shown(&rt, &table_of(&rt, row), CELL);
    let info = ColumnDisplayInfo::new(&Column::new(0), 5);
    assert_shown(&rt, &info, "content_width: 5");
}
