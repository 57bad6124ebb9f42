//! One case: the lines that it expects, and the lines that are drawn.

use crate::fault::{Fault, Result};
use crate::words::text;
use std::alloc::Global;

/// A case of a file, which is being read or has ended.
#[derive(Drop)]
pub struct Case {
    alloc: Global,
    /// The name of the case, which is empty before the case begins.
    pub name: String,
    /// The lines that the case expects. The kind of each expectation, such as `lines`, is before
    /// its lines.
    pub wanted: Vec<String>,
    /// The lines that are drawn for each expectation, after its kind. The case passes if they are
    /// equal to `wanted`.
    pub drawn: Vec<String>,
    /// The number of the first line of the file that can't be read, counted from 1, and the reason.
    /// `None` if all lines could be read.
    pub unread: Option<(u64, &'static str)>,
}

impl Case {
    /// Returns a case without a name, of which no line was read yet.
    pub fn new(alloc: Global) -> Case {
        Case {
            alloc,
            name: String::new(alloc),
            wanted: Vec::new(alloc),
            drawn: Vec::new(alloc),
            unread: None,
        }
    }

    /// Begins the case, and gives it this name.
    pub fn begin(&mut self, name: &str) -> Result<()> {
        Ok(self.name.push_str(name)?)
    }

    /// Returns true if the case hasn't begun, and no line before it was refused.
    pub fn is_new(&self) -> bool {
        self.name.is_empty() && self.unread.is_none()
    }

    /// Returns true if the drawn lines aren't those that the case expects.
    pub fn differs(&self) -> bool {
        self.drawn.as_slice() != self.wanted.as_slice()
    }

    /// Stores the number of a line that can't be read, and the reason. Has no effect after the
    /// first such line.
    pub fn refuse(&mut self, line: u64, reason: &'static str) {
        self.unread.get_or_insert((line, reason));
    }

    /// Ends the case at the line with this number. A case without expected lines counts as one that
    /// can't be read.
    pub fn end(&mut self, line: u64) {
        if self.wanted.is_empty() {
            self.refuse(line, "nothing is wanted");
        }
    }

    /// Returns true if a line has no effect: it is empty or a comment, or an earlier line couldn't
    /// be read.
    pub fn passes_over(&self, line: &str) -> bool {
        self.unread.is_some() || line.is_empty() || line.starts_with('#')
    }

    /// Takes the result of reading a line with this number. If the line couldn't be read, the
    /// reason is stored in the case, and `Ok` is returned. The only error is `OutOfMemory`.
    pub fn keep(&mut self, line: u64, done: Result<()>) -> Result<()> {
        match done {
            Err(Fault::NotRead(reason)) => {
                self.refuse(line, reason);
                Ok(())
            }
            done => done,
        }
    }

    /// Begins an expectation: adds its kind to the expected and to the drawn lines.
    pub fn expect(&mut self, kind: &str) -> Result<()> {
        self.wanted.push(String::from_str(self.alloc, kind)?)?;
        Ok(self.drawn.push(String::from_str(self.alloc, kind)?)?)
    }

    /// Adds a line that the case expects, after replacing its escapes. Returns `NotRead` before the
    /// first expectation.
    pub fn want(&mut self, word: &str) -> Result<()> {
        if self.wanted.is_empty() {
            return Err(Fault::NotRead("a line is wanted of nothing"));
        }
        Ok(self.wanted.push(text(self.alloc, word)?)?)
    }
}
