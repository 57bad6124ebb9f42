//! Cells from borrowed lists, whose items are copied.

ghost use Rattle.std.specs.Prelude.{map};

use crate::convert::{Cells, IntoCell, IntoCells};
use crate::error::Result;
use std::alloc::Global;

impl<T: IntoCell + Copy, const N: usize> IntoCells for &[T; N] {
    ghost cells_of = { λ values. map T.cell_of values.now };

    fn into_cells(self, alloc: Global) -> Result<Cells> {
        self.as_slice().into_cells(alloc)
    }
}

impl<T: IntoCell + Copy> IntoCells for &Vec<T> {
    ghost cells_of = { λ values. map T.cell_of values.now.items };

    fn into_cells(self, alloc: Global) -> Result<Cells> {
        self.as_slice().into_cells(alloc)
    }
}

impl<T: IntoCell + Copy> IntoCells for &[T] {
    ghost cells_of = { λ values. map T.cell_of values.now };

    fn into_cells(self, alloc: Global) -> Result<Cells> {
        Vec::from_slice(alloc, self)?.into_cells(alloc)
    }
}
