//! A row that always returns that memory was refused, and the state of a table after it.

ghost use Rattle.comfy_parts.specs.CellValue.{plain_row};
ghost use Rattle.std.specs.Prelude.{[]};

use crate::support::assert_number;
use comfy_table::{IntoRow, Result, Row, Table, TableError};
use std::alloc::Global;

// An empty row, or one that can't be made.
#[derive(Drop)]
enum Given {
    Empty,
    Refused,
}

impl IntoRow for Given {
    ghost row_of = { λ given. plain_row [] };

    fn into_row(self, alloc: Global) -> Result<Row> {
        match self {
            Given::Empty => Ok(Row::new(alloc)),
            Given::Refused => Err(TableError::OutOfMemory),
        }
    }
}

// Three rows, of which the one at this position, counted from 0, is refused.
fn rows_with_refused(position: usize) -> [Given; 3] {
    let mut rows = [Given::Empty, Given::Empty, Given::Empty];
    if let Some(row) = rows.get_mut(position) {
        *row = Given::Refused;
    }
    rows
}

#[test]
fn rows_before_a_refused_one_stay(rt: HostRuntime) {
    for position in 0..3 {
        let mut table = Table::new(rt.alloc());
        assert!(rt; table.add_rows(rows_with_refused(position)).is_err());
        assert_number(&rt, table.row_count(), position);
    }
}

// The rows before a refused one stay in the table, also in a call with a predicate.
#[test]
fn rows_before_a_refused_one_stay_on_a_condition(rt: HostRuntime) {
    for position in 0..3 {
        let mut table = Table::new(rt.alloc());
        let rows = rows_with_refused(position);
        assert!(rt; table.add_rows_if(|_count, _rows| true, rows).is_err());
        assert_number(&rt, table.row_count(), position);
    }
}

#[test]
fn a_refused_row_changes_nothing(rt: HostRuntime) {
    let mut table = Table::new(rt.alloc());
    table.try_add_row(Given::Empty).expect(&rt, "memory");
    assert!(rt;
        table
            .add_row_if(|_count, _row| true, Given::Refused)
            .is_err()
    );
    assert_number(&rt, table.row_count(), 1);
}
