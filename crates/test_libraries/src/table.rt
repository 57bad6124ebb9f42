//! Tests of `comfy_table`.

mod answers;
mod parts;
mod pieces;
mod promised;
mod refused_rows;
mod surface;
mod tables;
