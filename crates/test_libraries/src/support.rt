//! Assertions and values that the tests share.

use comfy_parts::{IntoRow, Row};
use comfy_run::run::MemorySink;
use comfy_table::{Lines, Table};
use std::alloc::{Alloc, Global};
use std::fmt::Debug;
use std::process::Abort;

/// The drawing of the table in the README, as `ctable` writes it.
pub const README_DRAWN: &str = "\
+----------------------+----------------------+------------------------+
| Header1              | Header2              | Header3                |
+======================================================================+
| This is a text       | This is another text | This is the third text |
|----------------------+----------------------+------------------------|
| This is another text | Now                  | This is awesome        |
|                      | add some             |                        |
|                      | multi line stuff     |                        |
+----------------------+----------------------+------------------------+
";

/// Fails unless the two numbers are equal.
pub fn assert_number(rt: &impl Abort, number: usize, wanted: usize) {
    assert_eq!(rt; number, wanted);
}

/// Fails unless a call has returned this text.
pub fn assert_given<E: Debug + Drop>(rt: &impl Abort, text: Result<String, E>, wanted: &str) {
    let text = text.expect(rt, "memory");
    assert_eq!(rt; text.as_str(), wanted);
}

/// Fails unless the bytes are those of the text.
pub fn assert_bytes(rt: &impl Abort, bytes: &[u8], wanted: &str) {
    assert_eq!(rt; bytes, wanted.as_bytes());
}

/// Returns the row into which a value is converted. Fails if memory runs out.
pub fn row_of<T: IntoRow>(rt: &(impl Abort + Alloc<A = Global>), value: T) -> Row {
    value.into_row(rt.alloc()).expect(rt, "memory")
}

/// Returns a new table with this row. Fails if memory runs out.
pub fn table_of<T: IntoRow>(rt: &(impl Abort + Alloc<A = Global>), row: T) -> Table {
    let mut table = Table::new(rt.alloc());
    table.try_add_row(row).expect(rt, "memory");
    table
}

/// Fails unless the drawing of a table is this text.
pub fn assert_drawn(rt: &impl Abort, table: &Table, wanted: &str) {
    assert_given(rt, table.to_text(), wanted);
}

/// Fails unless the lines are those of the text, which are separated by line feeds.
pub fn assert_lines(rt: &impl Abort, lines: Lines, wanted: &str) {
    let mut wanted = wanted.split('\n');
    for line in lines {
        assert!(rt; wanted.next() == Some(line.as_str()));
    }
    assert!(rt; wanted.next().is_none());
}

/// Returns a sink in memory with room for `room` bytes. The write with the number `failing_write`,
/// counted from 1, fails. If this number is 0, no write fails for that reason.
pub fn sink_of(
    rt: &(impl Abort + Alloc<A = Global>),
    room: usize,
    failing_write: u64,
) -> MemorySink {
    MemorySink::new(rt.alloc(), room, failing_write).expect(rt, "memory")
}
