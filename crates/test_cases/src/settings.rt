//! Makes cells and columns from words. Settings of cells and columns have the form `NAME=VALUE`.

use crate::looks::{attribute, color};
use crate::words::{character, named, width};
use case_files::{Fault, Result, first_or_empty, text};
use comfy_table::style::{
    Attribute, CellAlignment, Color, ColumnConstraint, ContentArrangement, Width,
};
use comfy_table::{Cell, Column};
use std::alloc::Global;
use std::str::Split;

const ARRANGEMENTS: [(&str, ContentArrangement); 3] = [
    ("disabled", ContentArrangement::Disabled),
    ("dynamic", ContentArrangement::Dynamic),
    ("full", ContentArrangement::DynamicFullWidth),
];

const ALIGNMENTS: [(&str, CellAlignment); 3] = [
    ("Left", CellAlignment::Left),
    ("Right", CellAlignment::Right),
    ("Center", CellAlignment::Center),
];

const HAS_NO_VALUE: Fault = Fault::NotRead("a setting has no =");

// a setting of a cell
#[derive(Clone, Copy)]
enum CellSetting {
    Alignment(CellAlignment),
    Delimiter(char),
    Foreground(Color),
    Background(Color),
    Attribute(Attribute),
}

/// Makes a cell. The first word is its text, and the words after it are settings of the form
/// `NAME=VALUE`, in their order.
pub fn cell_of(alloc: Global, words: &[&str]) -> Result<Cell> {
    let mut cell = plain_cell(alloc, first_or_empty(words))?;
    for word in words.get(1..).unwrap_or(&[]) {
        cell = with_setting(alloc, cell, word)?;
    }
    Ok(cell)
}

fn plain_cell(alloc: Global, word: &str) -> Result<Cell> {
    Ok(Cell::new_owned(alloc, text(alloc, word)?)?)
}

// the setting of a cell that a word means
fn cell_setting(alloc: Global, word: &str) -> Result<CellSetting> {
    let Some((name, value)) = word.split_once('=') else {
        return Err(HAS_NO_VALUE);
    };
    match name {
        "align" => alignment(value).map(CellSetting::Alignment),
        "delimiter" => character(alloc, value).map(CellSetting::Delimiter),
        "fg" => color(value).map(CellSetting::Foreground),
        "bg" => color(value).map(CellSetting::Background),
        "attribute" => attribute(value).map(CellSetting::Attribute),
        _ => Err(Fault::NotRead("a setting of a cell isn't known")),
    }
}

// the cell with one more setting, which a word means
fn with_setting(alloc: Global, cell: Cell, word: &str) -> Result<Cell> {
    let cell = match cell_setting(alloc, word)? {
        CellSetting::Alignment(alignment) => cell.set_alignment(alignment),
        CellSetting::Delimiter(delimiter) => cell.set_delimiter(delimiter),
        CellSetting::Foreground(color) => cell.fg(color),
        CellSetting::Background(color) => cell.bg(color),
        CellSetting::Attribute(attribute) => cell.add_attribute(attribute)?,
    };
    Ok(cell)
}

// a setting of a column
#[derive(Clone, Copy)]
enum ColumnSetting {
    Padding(u16, u16),
    Delimiter(char),
    Alignment(CellAlignment),
    Constraint(ColumnConstraint),
}

/// Changes settings of a column. Each word has the form `NAME=VALUE`. Returns `NotRead` if a word
/// can't be read; the words before it have taken effect then.
pub fn set_column(alloc: Global, column: &mut Column, words: &[&str]) -> Result<()> {
    for word in words {
        set_on_column(column, column_setting(alloc, word)?);
    }
    Ok(())
}

// the setting of a column that a word means
fn column_setting(alloc: Global, word: &str) -> Result<ColumnSetting> {
    let Some((name, value)) = word.split_once('=') else {
        return Err(HAS_NO_VALUE);
    };
    match name {
        "padding" => padding(value),
        "delimiter" => character(alloc, value).map(ColumnSetting::Delimiter),
        "align" => alignment(value).map(ColumnSetting::Alignment),
        "constraint" => constraint(value).map(ColumnSetting::Constraint),
        _ => Err(Fault::NotRead("a setting of a column isn't known")),
    }
}

// changes one setting of a column
fn set_on_column(column: &mut Column, setting: ColumnSetting) {
    match setting {
        ColumnSetting::Padding(left, right) => {
            column.set_padding((left, right));
        }
        ColumnSetting::Delimiter(delimiter) => {
            column.set_delimiter(delimiter);
        }
        ColumnSetting::Alignment(alignment) => column.set_cell_alignment(alignment),
        ColumnSetting::Constraint(constraint) => {
            column.set_constraint(constraint);
        }
    }
}

/// Returns the arrangement with this name: `disabled`, `dynamic` or `full`. Returns `NotRead` for
/// any other word.
pub fn arrangement(word: &str) -> Result<ContentArrangement> {
    named(&ARRANGEMENTS, word, "an arrangement isn't known")
}

fn padding(word: &str) -> Result<ColumnSetting> {
    let Some((left, right)) = word.split_once(',') else {
        return Err(Fault::NotRead("a padding has two numbers"));
    };
    Ok(ColumnSetting::Padding(width(left)?, width(right)?))
}

fn alignment(word: &str) -> Result<CellAlignment> {
    named(&ALIGNMENTS, word, "an alignment isn't known")
}

fn constraint(word: &str) -> Result<ColumnConstraint> {
    next_constraint(&mut word.split(':'))
}

// the constraint that the next words mean
fn next_constraint(words: &mut Split<char>) -> Result<ColumnConstraint> {
    match words.next().unwrap_or("") {
        "hidden" => Ok(ColumnConstraint::Hidden),
        "content" => Ok(ColumnConstraint::ContentWidth),
        "absolute" => next_width(words).map(ColumnConstraint::Absolute),
        "lower" => next_width(words).map(ColumnConstraint::LowerBoundary),
        "upper" => next_width(words).map(ColumnConstraint::UpperBoundary),
        "between" => between(words),
        _ => Err(Fault::NotRead("a constraint isn't known")),
    }
}

fn between(words: &mut Split<char>) -> Result<ColumnConstraint> {
    Ok(ColumnConstraint::Boundaries {
        lower: next_width(words)?,
        upper: next_width(words)?,
    })
}

// the width that the next two words mean
fn next_width(words: &mut Split<char>) -> Result<Width> {
    let kind = words.next().unwrap_or("");
    match (kind, words.next()) {
        ("fixed", Some(number)) => width(number).map(Width::Fixed),
        ("percent", Some(number)) => width(number).map(Width::Percentage),
        _ => Err(Fault::NotRead("a width is fixed or percent")),
    }
}
