//! A case, and the value that its lines build.

use crate::case::Case;
use crate::fault::{Fault, Result};
use crate::words::{first_or_empty, parts};
use std::alloc::Global;

/// A value that the lines of a case build, such as a table.
pub trait Build: Drop {
    /// Returns the value before the first line of a case.
    fn new(alloc: Global) -> Self;

    /// Changes the value as a line requests. `first` is the first word of the line, and `words` are
    /// the words after it. Returns `NotRead` if the line can't be read.
    fn apply(&mut self, first: &str, words: &[&str]) -> Result<()>;

    /// Draws the value in the form that `kind` names, and adds the lines of the drawing to `lines`.
    /// Returns `NotRead` for an unknown kind.
    fn draw(&mut self, kind: &str, lines: &mut Vec<String>) -> Result<()>;
}

/// A case, and the value that its lines build.
#[derive(Drop)]
pub(crate) struct Trial<B: Build> {
    alloc: Global,
    // the expected lines, and those that are drawn
    pub(crate) case: Case,
    built: B,
}

impl<B: Build> Trial<B> {
    /// Returns a case without a name, of which no line was read yet.
    pub(crate) fn new(alloc: Global) -> Trial<B> {
        Trial {
            alloc,
            case: Case::new(alloc),
            built: B::new(alloc),
        }
    }

    /// Reads the line with this number, unless an earlier line of the case couldn't be read. The
    /// only error is `OutOfMemory`.
    pub(crate) fn take(&mut self, number: u64, line: &str) -> Result<()> {
        if self.case.passes_over(line) {
            return Ok(());
        }
        let done = self.apply(line);
        self.case.keep(number, done)
    }

    fn apply(&mut self, line: &str) -> Result<()> {
        if self.case.name.is_empty() {
            return Err(Fault::NotRead("a line stands in no case"));
        }
        if let Some(wanted) = line.strip_prefix('=') {
            return self.case.want(wanted);
        }
        let words = parts(self.alloc, line, '\t')?;
        match words.as_slice() {
            ["expect", others @ ..] => self.expect(first_or_empty(others)),
            [first, others @ ..] => self.built.apply(first, others),
            [] => Ok(()),
        }
    }

    fn expect(&mut self, kind: &str) -> Result<()> {
        self.case.expect(kind)?;
        self.built.draw(kind, &mut self.case.drawn)
    }
}
