//! The table of a case, which is built line by line through public functions. If the library has a
//! new function, the words for it are added here.

use crate::request::{Request, request_of};
use crate::settings::{arrangement, cell_of, set_column};
use crate::styles::{read_style, set_part};
use crate::words::{character, number, push_number, width};
use case_files::{Build, Fault, Result, first_or_empty, push_lines, text};
use comfy_table::utils::arrangement::arrange_content;
use comfy_table::{Row, Table, Terminal};
use std::alloc::Global;
use std::mem;

/// A table, and the row that was begun last, which isn't in the table yet.
#[derive(Drop)]
pub struct Builder {
    alloc: Global,
    table: Table,
    row: Row,
    begun: Begun,
}

// the kind of the row that was begun last, which isn't in the table yet
#[derive(Clone, Copy)]
enum Begun {
    Nothing,
    Header,
    Row,
}

impl Build for Builder {
    fn new(alloc: Global) -> Builder {
        Builder {
            alloc,
            table: Table::new(alloc),
            row: Row::new(alloc),
            begun: Begun::Nothing,
        }
    }

    fn apply(&mut self, first: &str, words: &[&str]) -> Result<()> {
        match request_of(first)? {
            Request::Cell | Request::Height if matches!(self.begun, Begun::Nothing) => {
                Err(Fault::NotRead("no row was begun"))
            }
            Request::Cell => self.add_cell(words),
            Request::Height => self.limit_height(first_or_empty(words)),
            request => {
                self.finish_row()?;
                self.set(request, words)
            }
        }
    }

    fn draw(&mut self, kind: &str, lines: &mut Vec<String>) -> Result<()> {
        self.finish_row()?;
        match kind {
            "lines" => self.draw_lines(lines),
            "trim" => self.draw_trimmed(lines),
            _ => self.draw_numbers(kind, lines),
        }
    }
}

impl Builder {
    // begins a row, or changes the table, its style or its columns
    fn set(&mut self, request: Request, words: &[&str]) -> Result<()> {
        let first = first_or_empty(words);
        match request {
            Request::Header => self.begun = Begun::Header,
            Request::Row => self.begun = Begun::Row,
            Request::Style => {
                self.table.load_style(read_style(words)?);
            }
            Request::Part => return set_part(self.alloc, self.table.style_mut(), words),
            Request::Column => return self.set_column(words),
            Request::Late => return self.add_late_cell(words),
            Request::Indicator => return self.set_indicator(first),
            Request::Discover => self.table.discover_columns()?,
            Request::Terminal => return self.set_terminal(words),
            Request::Width => {
                self.table.set_width(width(first)?);
            }
            Request::Delimiter => {
                self.table.set_delimiter(character(self.alloc, first)?);
            }
            Request::Arrangement => {
                self.table.set_content_arrangement(arrangement(first)?);
            }
            _ => self.switch_on(request),
        }
        Ok(())
    }

    // the switches on terminals and styling
    fn switch_on(&mut self, request: Request) {
        match request {
            Request::CustomStyling => {
                self.table.custom_styling();
            }
            Request::NoTty => {
                self.table.force_no_tty();
            }
            Request::Stderr => {
                self.table.use_stderr();
            }
            Request::Enforce => {
                self.table.enforce_styling();
            }
            _ => self.table.style_text_only(),
        }
    }

    fn set_terminal(&mut self, words: &[&str]) -> Result<()> {
        let [stdout, stderr, width] = words else {
            return Err(Fault::NotRead("a terminal has three facts"));
        };
        self.table.set_terminal(terminal(stdout, stderr, width));
        Ok(())
    }

    fn set_indicator(&mut self, word: &str) -> Result<()> {
        let indicator = text(self.alloc, word)?;
        self.table.set_truncation_indicator(indicator.as_str())?;
        Ok(())
    }

    fn set_column(&mut self, words: &[&str]) -> Result<()> {
        let Some(column) = self.table.column_mut(number(first_or_empty(words))?) else {
            return Err(Fault::NotRead("no column has this position"));
        };
        set_column(self.alloc, column, words.get(1..).unwrap_or(&[]))
    }

    // adds a cell to the last row in the table
    fn add_late_cell(&mut self, words: &[&str]) -> Result<()> {
        let cell = cell_of(self.alloc, words)?;
        let last = self.table.row_count().saturating_sub(1);
        match self.table.row_mut(last) {
            Some(row) => Ok(row.try_add_cell(cell)?),
            None => Err(Fault::NotRead("a late cell has no row")),
        }
    }

    // adds the row that was begun last to the table
    fn finish_row(&mut self) -> Result<()> {
        let row = mem::replace(&mut self.row, Row::new(self.alloc));
        match self.begun {
            Begun::Nothing => {}
            Begun::Header => {
                self.table.set_header(row)?;
            }
            Begun::Row => {
                self.table.add_row(row)?;
            }
        }
        self.begun = Begun::Nothing;
        Ok(())
    }

    fn add_cell(&mut self, words: &[&str]) -> Result<()> {
        self.row.add_cell(cell_of(self.alloc, words)?)?;
        Ok(())
    }

    fn limit_height(&mut self, word: &str) -> Result<()> {
        self.row.max_height(number(word)?);
        Ok(())
    }

    fn draw_lines(&self, lines: &mut Vec<String>) -> Result<()> {
        for line in self.table.lines()? {
            lines.push(line)?;
        }
        Ok(())
    }

    fn draw_trimmed(&self, lines: &mut Vec<String>) -> Result<()> {
        let text = self.table.trim_fmt()?;
        push_lines(self.alloc, lines, text.as_str())
    }

    // draws numbers as one line, with a space between them
    fn draw_numbers(&self, kind: &str, lines: &mut Vec<String>) -> Result<()> {
        let mut line = String::new(self.alloc);
        match kind {
            "max_widths" => write_max_widths(&self.table, &mut line)?,
            "widths" => write_widths(&self.table, &mut line)?,
            _ => return Err(Fault::NotRead("an expectation isn't known")),
        }
        Ok(lines.push(line)?)
    }
}

fn write_max_widths(table: &Table, line: &mut String) -> Result<()> {
    for width in &table.column_max_content_widths()? {
        push_number(line, *width)?;
    }
    Ok(())
}

fn write_widths(table: &Table, line: &mut String) -> Result<()> {
    for info in &arrange_content(table)? {
        push_number(line, info.content_width)?;
    }
    Ok(())
}

// the facts about a terminal: `true` if standard output is one, `true` if standard error is one,
// and the width, or `-` for no width
fn terminal(stdout: &str, stderr: &str, columns: &str) -> Terminal {
    Terminal {
        stdout_is_tty: stdout == "true",
        stderr_is_tty: stderr == "true",
        width: width(columns).ok(),
    }
}
