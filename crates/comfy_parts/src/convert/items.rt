//! Finite lists of values, and finite iterators over them.

ghost use Rattle.std.specs.Prelude.{List};
ghost use Rattle.std.proofs.Common.{ap};
ghost use Rattle.std.specs.Vec.Iter.{into_iter_items};
ghost use Rattle.comfy_parts.specs.Items.{GivesAll};
ghost use Rattle.comfy_parts.specs.ItemsGiven.{array_gives, vec_gives};

use std::vec;

/// A finite list of values in order, as `Table::add_rows` and `Table::set_constraints` take it: a
/// `Vec`, an array, or the iterator of a `Vec`. For your own iterator, write an `impl` that states
/// which items it returns, as the crate `test_callers` does in `src/uses/items.rt`.
///
/// ```
/// let constraints = [ColumnConstraint::ContentWidth, ColumnConstraint::Hidden];
/// table.set_constraints(constraints);
/// ```
pub trait Items: IntoIterator {
    // the values, in their order
    ghost items_of: { Self → List Self.Item };

    // the iterator returns these values, and ends
    ghost gives_items: { (values : Self) (from : Self.IntoIter) → Self.into_iter_gives values from
        → GivesAll Self.IntoIter.can_next Self.IntoIter.next_gives Self.IntoIter.remaining from
        (items_of values) };
}

impl<T: Drop> Items for Vec<T> {
    ghost items_of = { λ values. values.items };

    ghost gives_items = { λ values from made. record {
      can_be_called = tt;
      ends = tt;
      in_order = vec_gives from values.items made.0;
    } };
}

impl<T: Drop> Items for vec::IntoIter<T> {
    ghost items_of = { λ values. into_iter_items values };

    ghost gives_items = { λ values from made. record {
      can_be_called = tt;
      ends = tt;
      in_order = vec_gives from (into_iter_items values) (ap into_iter_items made);
    } };
}

impl<T: Drop, const N: usize> Items for [T; N] {
    ghost items_of = { λ values. values };

    ghost gives_items = { λ values from made. record {
      can_be_called = tt;
      ends = tt;
      in_order = array_gives from values made.0;
    } };
}
