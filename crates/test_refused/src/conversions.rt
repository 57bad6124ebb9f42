//! Conversions that allocate memory. A conversion owns its value, and drops it if memory is
//! refused.

use crate::outcome::{Outcome, succeeded};
use comfy_table::{Cell, IntoCell, IntoCells, IntoRow, Result};
use std::alloc::Global;

const TEXT: &str = "on the road,\nback at noon";

const TEXTS: [&str; 3] = ["17", "dock 3", TEXT];

const EIGHT: (&str, u32, bool, char, &str, u8, i64, &str) = (
    TEXT, 17, true, 'x', TEXT, 5, -1, "end",
);

/// Makes the conversion with this name, such as `str::into_cell`, and returns the outcome.
pub fn outcome_of(alloc: Global, name: &str) -> Result<Outcome> {
    let is_converted = match name {
        "str::into_cell" => succeeded(TEXT.into_cell(alloc)),
        "i128::into_cell" => succeeded(i128::MIN.into_cell(alloc)),
        "bool::into_cell" => succeeded(true.into_cell(alloc)),
        "char::into_cell" => succeeded('x'.into_cell(alloc)),
        "String::into_cell" => succeeded(String::from_str(alloc, TEXT)?.into_cell(alloc)),
        "Vec::into_cells" => succeeded(Vec::from_array(alloc, TEXTS)?.into_cells(alloc)),
        "array::into_cells" => succeeded(TEXTS.into_cells(alloc)),
        "Vec::into_row" => succeeded(Vec::from_array(alloc, TEXTS)?.into_row(alloc)),
        "array::into_row" => succeeded(TEXTS.into_row(alloc)),
        "cells::into_row" => succeeded([Cell::new(alloc, TEXT)?].into_row(alloc)),
        "tuple of eight::into_row" => succeeded(EIGHT.into_row(alloc)),
        _ => return Ok(Outcome::Unknown),
    };
    Ok(Outcome::of(is_converted))
}
