//! Cells from whole numbers, written in decimal digits.

ghost use Rattle.comfy_parts.specs.CellValue.{number_cell, signed_cell};

use crate::cell::Cell;
use crate::convert::IntoCell;
use crate::error::Result;
use std::alloc::Global;

impl IntoCell for u8 {
    ghost cell_of = { number_cell };

    fn into_cell(self, alloc: Global) -> Result<Cell> {
        Cell::new(alloc, self)
    }
}

impl IntoCell for u16 {
    ghost cell_of = { number_cell };

    fn into_cell(self, alloc: Global) -> Result<Cell> {
        Cell::new(alloc, self)
    }
}

impl IntoCell for u32 {
    ghost cell_of = { number_cell };

    fn into_cell(self, alloc: Global) -> Result<Cell> {
        Cell::new(alloc, self)
    }
}

impl IntoCell for u64 {
    ghost cell_of = { number_cell };

    fn into_cell(self, alloc: Global) -> Result<Cell> {
        Cell::new(alloc, self)
    }
}

impl IntoCell for u128 {
    ghost cell_of = { number_cell };

    fn into_cell(self, alloc: Global) -> Result<Cell> {
        Cell::new(alloc, self)
    }
}

impl IntoCell for usize {
    ghost cell_of = { number_cell };

    fn into_cell(self, alloc: Global) -> Result<Cell> {
        Cell::new(alloc, self)
    }
}

impl IntoCell for i8 {
    ghost cell_of = { signed_cell };

    fn into_cell(self, alloc: Global) -> Result<Cell> {
        Cell::new(alloc, self)
    }
}

impl IntoCell for i16 {
    ghost cell_of = { signed_cell };

    fn into_cell(self, alloc: Global) -> Result<Cell> {
        Cell::new(alloc, self)
    }
}

impl IntoCell for i32 {
    ghost cell_of = { signed_cell };

    fn into_cell(self, alloc: Global) -> Result<Cell> {
        Cell::new(alloc, self)
    }
}

impl IntoCell for i64 {
    ghost cell_of = { signed_cell };

    fn into_cell(self, alloc: Global) -> Result<Cell> {
        Cell::new(alloc, self)
    }
}

impl IntoCell for i128 {
    ghost cell_of = { signed_cell };

    fn into_cell(self, alloc: Global) -> Result<Cell> {
        Cell::new(alloc, self)
    }
}

impl IntoCell for isize {
    ghost cell_of = { signed_cell };

    fn into_cell(self, alloc: Global) -> Result<Cell> {
        Cell::new(alloc, self)
    }
}
