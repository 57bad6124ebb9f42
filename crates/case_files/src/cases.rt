//! The cases of a file, line by line.

use crate::tally::Tally;
use crate::trial::{Build, Trial};
use std::alloc::Global;
use std::process::ExitCode;

/// The cases of a file: the number of cases with each result, and the case that is being read.
#[derive(Drop)]
pub struct Cases<B: Build> {
    alloc: Global,
    tally: Tally,
    trial: Trial<B>,
}

impl<B: Build> Cases<B> {
    /// Returns `Cases` that have read no line yet.
    pub fn new(alloc: Global) -> Cases<B> {
        Cases {
            alloc,
            tally: Tally::default(),
            trial: Trial::new(alloc),
        }
    }

    /// Reads the next line of the file, which begins a case, ends it, or belongs to it. At the end
    /// of a case, its result is counted, and printed if the case didn't pass.
    pub fn take(&mut self, rt: &impl Print, line: &str) -> anyhow::Result<()> {
        self.tally.lines = self.tally.lines.saturating_add(1);
        match line.strip_prefix("case\t") {
            Some(name) => {
                self.close(rt)?;
                Ok(self.trial.case.begin(name)?)
            }
            None if line == "end" => self.end(rt),
            None => Ok(self.trial.take(self.tally.lines, line)?),
        }
    }

    /// Prints the number of cases with each result. Returns `ExitCode::FAILURE` if a case failed or
    /// couldn't be read, or if there was no case.
    pub fn finish(&mut self, rt: &impl Print) -> anyhow::Result<ExitCode> {
        self.close(rt)?;
        self.tally.print(rt)?;
        if self.tally.all_passed() {
            Ok(ExitCode::SUCCESS)
        } else {
            Ok(ExitCode::FAILURE)
        }
    }

    fn end(&mut self, rt: &impl Print) -> anyhow::Result<()> {
        self.trial.case.end(self.tally.lines);
        self.tally.count(rt, &self.trial.case)?;
        self.trial = Trial::new(self.alloc);
        Ok(())
    }

    // Ends a case without an end, or lines before a case, as one that can't be read.
    fn close(&mut self, rt: &impl Print) -> anyhow::Result<()> {
        if self.trial.case.is_new() {
            return Ok(());
        }
        self.trial
            .case
            .refuse(self.tally.lines, "the case has no end");
        self.end(rt)
    }
}
