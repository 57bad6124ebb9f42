//! Draws tab-separated text as a table: the functions of the program `ctable`.
#![tactic(auto)]

mod arguments;
mod error;
mod rows;
pub mod run;
mod settings;
