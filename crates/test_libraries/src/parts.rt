//! Tests of `comfy_parts`.

mod columns;
mod conversions;
mod shown;
mod wrapping;
