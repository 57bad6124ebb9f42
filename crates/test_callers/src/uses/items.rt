//! A caller with an iterator of its own.

ghost use Rattle.std.specs.Prelude.{◌≡◌, [], ◌∷◌, OnOk, length, map};
ghost use Rattle.std.proofs.Common.{ap};
ghost use Rattle.std.specs.Iterator.{YieldsFirst, item_count};
ghost use Rattle.comfy_parts.specs.CellValue.{number_cell, plain_row};
ghost use Rattle.comfy_parts.specs.ItemsGiven.{gives_rest};
ghost use Rattle.comfy_table.specs.TableValue.{with_rows};
ghost use Rattle.test_callers.specs.Uses.{rows_left};

use comfy_table::{Items, Result, Table};

/// An iterator that yields a row of one number for each remaining number.
#[derive(Drop)]
struct NumberRows<'a> {
    left: &'a [u64],
}

impl<'a> Iterator for NumberRows<'a> {
    type Item = [u64; 1];

    ghost next_gives = { YieldsFirst rows_left };

    ghost remaining = { item_count rows_left };

    fn next(&mut self) -> Option<[u64; 1]> {
        let (first, left) = self.left.split_first()?;
        self.left = left;
        Some([*first])
    }
}

impl<'a> Items for NumberRows<'a> {
    ghost items_of = { rows_left };

    ghost gives_items = { λ numbers from made. record {
      can_be_called = tt;
      ends = tt;
      in_order =
          gives_rest (YieldsFirst rows_left) rows_left (λ s t none. ap length none.0)
          (λ s t number some. some) (rows_left numbers) from (ap rows_left made);
    } };
}

/// Appends a row of one cell to a table for each of the numbers.
pub fn append_numbers(table: &mut Table, numbers: &[u64]) -> Result<()>
    ensures { OnOk result (table.new
        ≡ with_rows (map (λ number. plain_row (number_cell number ∷ [])) numbers.now) table.old) }
{
    table.add_rows(NumberRows { left: numbers })?;
    Ok(())
}
