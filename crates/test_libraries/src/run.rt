//! Tests of `comfy_run`, and of the libraries for CSV.

mod counted;
mod doc_examples;
mod large;
mod limited;
mod pieces;
mod program;
mod promised;
mod records;
mod sizes;
mod streams;
mod styled;
