//! Adding several rows at once, making a table of rows, and adding rows on a condition.

ghost use Rattle.std.specs.Prelude.{◌≡◌, ◌++◌, ◌∷◌, Bool, List, None, Some, true, IfOk, OnOk, OnErr, if◌then◌else◌, length, map};
ghost use Rattle.std.specs.Borrow.{sem};
ghost use Rattle.std.specs.Iterator.{IsFinite, YieldsThen};
ghost use Rattle.std.specs.Vec.Iter.{into_iter_items};
ghost use Rattle.comfy_parts.specs.Presets.{ascii_full};
ghost use Rattle.comfy_table.specs.Predicate.{Answers};
ghost use Rattle.comfy_table.specs.TableLoans.{TableHasFirstRowsIfErr, TableStaysIfErr};
ghost use Rattle.comfy_table.specs.TableReference.{reference_of};
ghost use Rattle.comfy_table.specs.TableValue.{IsWithRowsBeforeOne, new_table, with_header, with_row, with_rows};

use crate::table::{Table, TableReference, into_reference};
use comfy_parts::{IntoRow, Items, Result};
use std::alloc::Global;
use std::vec;

impl Table {
    /// A table with the header `header` and the rows `rows`, in the style `ASCII_FULL`. The number
    /// of columns is the greatest number of cells in the header or in a row. The only error is
    /// `OutOfMemory`.
    ///
    /// ```
    /// let bikes = [["17", "dock 3"], ["18", "rented"]];
    /// let table = Table::from_rows(alloc, ["Bike", "Where it stands"], bikes)?;
    /// ```
    pub fn from_rows<H, I>(alloc: Global, header: H, rows: I) -> Result<Table>
    where
        H: IntoRow,
        I: Items + Drop,
        I::Item: IntoRow,
        I::IntoIter: Drop,
        ensures { IfOk result (λ table. table ≡ with_rows (map I.Item.row_of (I.items_of rows))
            (with_header (H.row_of header) (new_table ascii_full))) }
    {
        let mut table = Table::new(alloc);
        table.set_header(header)?.add_rows(rows)?;
        Ok(table)
    }

    /// Appends `rows` in their order, each as `add_row` does. Returns the table for further calls.
    /// If memory runs out at a row, the error is `OutOfMemory`. The table then keeps the rows that
    /// were added before, and that row and the rows after it are dropped. To learn at which row
    /// memory ran out, call `try_add_rows` instead.
    ///
    /// ```
    /// table.add_rows([["17", "dock 3"], ["18", "rented"]])?;
    /// ```
    pub fn add_rows<I>(&mut self, rows: I) -> Result<&mut Self>
    where
        I: Items,
        I::Item: IntoRow,
        I::IntoIter: Drop,
        ensures* err { sem 𝓛 (TableHasFirstRowsIfErr
            (map I.Item.row_of (I.items_of rows)) self.entry result) }
        ensures same_reference { IfOk result (λ table. table.ghost_name ≡ self.entry.ghost_name) }
        ensures added { IfOk result
            (λ table. table.now ≡ with_rows (map I.Item.row_of (I.items_of rows)) self.old) }
    {
        into_reference(self.with_rows_added(rows))
    }

    /// Calls `predicate` once, with the number of rows in the table and the new row. If `predicate`
    /// returns true, `add_row_if` appends the row as `add_row` does. Otherwise nothing changes, no
    /// memory is taken, and the row is dropped. Returns the table for further calls. After
    /// `OutOfMemory` the table is unchanged. To use this fact in a proof of your own, call
    /// `try_add_row_if` instead.
    pub fn add_row_if<P, T>(&mut self, predicate: P, row: T) -> Result<&mut Self>
    where
        P: Fn(usize, &T) -> bool + Drop,
        T: IntoRow,
        requires { P.IsAlwaysCallable predicate }
        ensures* err { sem 𝓛 (TableStaysIfErr self.entry result) }
        ensures same_reference { IfOk result (λ table. table.ghost_name ≡ self.entry.ghost_name) }
        ensures called { IfOk result
            (λ table. (yes : Bool) × Answers P.Fn predicate (length self.old.rows) row yes
            × (table.now ≡ (if yes then with_row (T.row_of row) self.old else self.old))) }
        ensures refused_on_yes { OnErr result
            (Answers P.Fn predicate (length self.old.rows) row true) }
    {
        into_reference(self.with_row_added_if(predicate, row))
    }

    /// Calls `predicate` once, with the number of rows in the table and all new rows. If
    /// `predicate` returns true, `add_rows_if` appends the new rows as `add_rows` does. Otherwise
    /// nothing changes, no memory is taken, and the new rows are dropped. Returns the table for
    /// further calls. If memory runs out at a row, the error is `OutOfMemory`. The table then keeps
    /// the rows that were added before, and that row and the rows after it are dropped.
    pub fn add_rows_if<P, I>(&mut self, predicate: P, rows: I) -> Result<&mut Self>
    where
        P: Fn(usize, &I) -> bool + Drop,
        I: Items + Drop,
        I::Item: IntoRow,
        I::IntoIter: Drop,
        requires { P.IsAlwaysCallable predicate }
        ensures* err { sem 𝓛 (TableHasFirstRowsIfErr
            (map I.Item.row_of (I.items_of rows)) self.entry result) }
        ensures same_reference { IfOk result (λ table. table.ghost_name ≡ self.entry.ghost_name) }
        ensures called { IfOk result
            (λ table. (yes : Bool) × Answers P.Fn predicate (length self.old.rows) rows yes
            × (table.now ≡ (if yes
            then with_rows (map I.Item.row_of (I.items_of rows)) self.old
            else self.old))) }
        ensures refused_on_yes { OnErr result
            (Answers P.Fn predicate (length self.old.rows) rows true) }
    {
        into_reference(self.with_rows_added_if(predicate, rows))
    }

    /// Appends the rows that `rows`, an iterator over a `Vec`, still has, in their order, each as
    /// `add_row` does. If memory runs out at a row, the error is `OutOfMemory`. The table then
    /// keeps the rows that were added before, and the columns that were appended for them. The row
    /// at which memory ran out is dropped, and the iterator still has the rows after it. A proof of
    /// your own can use these facts.
    ///
    /// ```
    /// let mut rows = vec![in alloc; ["17", "dock 3"], ["18", "rented"]]?.into_iter();
    /// let added = table.try_add_rows(&mut rows);
    /// ```
    pub fn try_add_rows<T: IntoRow>(&mut self, rows: &mut vec::IntoIter<T>) -> Result<()>
        ensures ok { OnOk result (self.new
            ≡ with_rows (map T.row_of (into_iter_items rows.old)) self.old) }
        ensures err { OnErr result ((added : List T) × (refused : T)
            × (into_iter_items rows.old ≡ added ++ refused ∷ into_iter_items rows.new)
            × (self.new ≡ with_rows (map T.row_of added) self.old)) }
    {
        self.push_rows(rows)
    }

    /// Calls `predicate` once, with the number of rows in the table and the new row. If `predicate`
    /// returns true, `try_add_row_if` appends the row as `try_add_row` does. If `predicate` returns
    /// false, the table is unchanged and the row is dropped. The only error is `OutOfMemory`, which
    /// is possible only if `predicate` returned true. After it the table is unchanged and the row
    /// is dropped. If a proof of your own needs that the table is unchanged, call `try_add_row_if`
    /// and not `add_row_if`.
    pub fn try_add_row_if<P, T>(&mut self, predicate: P, row: T) -> Result<()>
    where
        P: Fn(usize, &T) -> bool + Drop,
        T: IntoRow,
        requires { P.IsAlwaysCallable predicate }
        ensures ok { OnOk result ((yes : Bool)
            × Answers P.Fn predicate (length self.old.rows) row yes
            × (self.new ≡ (if yes then with_row (T.row_of row) self.old else self.old))) }
        ensures err { OnErr result (Answers P.Fn predicate (length self.old.rows) row true
            × (self.new ≡ self.old)) }
    {
        if !self.answer_of(&predicate, &row) {
            return Ok(());
        }
        self.try_add_row(row)
    }

    // Appends the rows of an iterator, until the iterator ends or memory runs out at a row. After
    // the error the table has the rows before that row.
    fn push_rows<R>(&mut self, rows: &mut R) -> Result<()>
    where
        R: Iterator,
        R::Item: IntoRow,
        requires { R.can_next rows.old × IsFinite (R.remaining rows.old) }
        ensures ok { OnOk result ((added : List R.Item)
            × YieldsThen R.next_gives rows.old added None rows.new
            × (self.new ≡ with_rows (map R.Item.row_of added) self.old)) }
        ensures err { OnErr result ((added : List R.Item) × (refused : R.Item)
            × YieldsThen R.next_gives rows.old added (Some refused) rows.new
            × (self.new ≡ with_rows (map R.Item.row_of added) self.old)) }
    {
        while let Some(row) = rows.next() {
            self.try_add_row(row)?;
        }
        Ok(())
    }

    // Appends rows in their order. If memory runs out at a row, the table keeps the rows before it.
    fn push_items<I>(&mut self, rows: I) -> Result<()>
    where
        I: Items,
        I::Item: IntoRow,
        I::IntoIter: Drop,
        ensures ok { OnOk result (self.new
            ≡ with_rows (map I.Item.row_of (I.items_of rows)) self.old) }
        ensures err { OnErr result (IsWithRowsBeforeOne
            (map I.Item.row_of (I.items_of rows)) self.old self.new) }
    {
        let mut rows = rows.into_iter();
        self.push_rows(&mut rows)
    }

    // The result of a predicate that is called with the number of rows in the table and a value.
    fn answer_of<P, T>(&self, predicate: &P, value: &T) -> bool
    where
        P: Fn(usize, &T) -> bool,
        requires { P.IsAlwaysCallable predicate.now }
        ensures { Answers P.Fn predicate.now (length self.now.rows) value.now result }
    {
        predicate(self.row_count(), value)
    }

    // `add_rows` with the reference in a struct, so that its clause on `OutOfMemory` can be proved.
    fn with_rows_added<I>(&mut self, rows: I) -> Result<TableReference<'_>>
    where
        I: Items,
        I::Item: IntoRow,
        I::IntoIter: Drop,
        ensures* err { sem 𝓛 (TableHasFirstRowsIfErr
            (map I.Item.row_of (I.items_of rows)) self.entry (reference_of result)) }
        ensures same_reference { IfOk (reference_of result)
            (λ table. table.ghost_name ≡ self.entry.ghost_name) }
        ensures added { IfOk (reference_of result)
            (λ table. table.now ≡ with_rows (map I.Item.row_of (I.items_of rows)) self.old) }
    {
        self.push_items(rows)?;
        Ok(TableReference { table: self })
    }

    // `add_row_if` with the reference in a struct, so that its clause on `OutOfMemory` can be
    // proved.
    fn with_row_added_if<P, T>(&mut self, predicate: P, row: T) -> Result<TableReference<'_>>
    where
        P: Fn(usize, &T) -> bool + Drop,
        T: IntoRow,
        requires { P.IsAlwaysCallable predicate }
        ensures* err { sem 𝓛 (TableStaysIfErr self.entry (reference_of result)) }
        ensures same_reference { IfOk (reference_of result)
            (λ table. table.ghost_name ≡ self.entry.ghost_name) }
        ensures called { IfOk (reference_of result)
            (λ table. (yes : Bool) × Answers P.Fn predicate (length self.old.rows) row yes
            × (table.now ≡ (if yes then with_row (T.row_of row) self.old else self.old))) }
        ensures refused_on_yes { OnErr (reference_of result)
            (Answers P.Fn predicate (length self.old.rows) row true) }
    {
        self.try_add_row_if(predicate, row)?;
        Ok(TableReference { table: self })
    }

    // `add_rows_if` with the reference in a struct, so that its clause on `OutOfMemory` can be
    // proved.
    fn with_rows_added_if<P, I>(&mut self, predicate: P, rows: I) -> Result<TableReference<'_>>
    where
        P: Fn(usize, &I) -> bool + Drop,
        I: Items + Drop,
        I::Item: IntoRow,
        I::IntoIter: Drop,
        requires { P.IsAlwaysCallable predicate }
        ensures* err { sem 𝓛 (TableHasFirstRowsIfErr
            (map I.Item.row_of (I.items_of rows)) self.entry (reference_of result)) }
        ensures same_reference { IfOk (reference_of result)
            (λ table. table.ghost_name ≡ self.entry.ghost_name) }
        ensures called { IfOk (reference_of result)
            (λ table. (yes : Bool) × Answers P.Fn predicate (length self.old.rows) rows yes
            × (table.now ≡ (if yes
            then with_rows (map I.Item.row_of (I.items_of rows)) self.old
            else self.old))) }
        ensures refused_on_yes { OnErr (reference_of result)
            (Answers P.Fn predicate (length self.old.rows) rows true) }
    {
        if self.answer_of(&predicate, &rows) {
            self.push_items(rows)?;
        }
        Ok(TableReference { table: self })
    }
}
