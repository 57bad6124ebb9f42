//! The printed results of the cases.

use crate::case::Case;
use std::io;

/// The number of lines that were read, and the number of cases with each result.
#[derive(Default, Drop)]
pub struct Tally {
    pub lines: u64,
    pub passed: u64,
    pub failed: u64,
    pub not_read: u64,
}

impl Tally {
    /// Adds a case to the counts, and prints its name and the reason or the differences if it
    /// didn't pass.
    pub fn count(&mut self, rt: &impl Print, case: &Case) -> io::Result<()> {
        let name = case.name.as_str();
        if let Some((line, reason)) = case.unread {
            self.not_read = self.not_read.saturating_add(1);
            return println!(rt; "{name}: not read: line {line}: {reason}");
        }
        if case.differs() {
            self.failed = self.failed.saturating_add(1);
            return print_differences(rt, case);
        }
        self.passed = self.passed.saturating_add(1);
        Ok(())
    }

    /// Returns true if there was a case, and every case passed.
    pub fn all_passed(&self) -> bool {
        self.passed > 0 && self.failed == 0 && self.not_read == 0
    }

    /// Prints the numbers of cases that passed and failed. The number of cases that couldn't be
    /// read is on a line above, if there are any.
    pub fn print(&self, rt: &impl Print) -> io::Result<()> {
        if self.not_read > 0 {
            println!(rt; "{} not read", self.not_read)?;
        }
        println!(rt; "{} passed, {} failed", self.passed, self.failed)
    }
}

// prints the expected lines and the drawn lines, the lines of each expectation after its kind
fn print_differences(rt: &impl Print, case: &Case) -> io::Result<()> {
    println!(rt; "{}: expected", case.name)?;
    print_lines(rt, case.wanted.as_slice())?;
    println!(rt; "{}: drawn", case.name)?;
    print_lines(rt, case.drawn.as_slice())
}

fn print_lines(rt: &impl Print, lines: &[String]) -> io::Result<()> {
    for line in lines {
        println!(rt; "={line}")?;
    }
    Ok(())
}
