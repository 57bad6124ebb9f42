//! Reads cases from standard input, draws the table of each case, and compares the lines. A case
//! with a line that can't be read is counted separately. The status is 1 if a case failed or
//! couldn't be read, or if there was no case.
#![tactic(auto)]

mod builder;
mod looks;
mod request;
mod settings;
mod styles;
mod words;

use builder::Builder;
use case_files::Cases;
use std::process::ExitCode;

fn main(rt: HostRuntime) -> anyhow::Result<ExitCode> {
    let mut cases: Cases<Builder> = Cases::new(rt.alloc());
    for line in rt.lines(rt.alloc()) {
        cases.take(&rt, line?.as_str())?;
    }
    cases.finish(&rt)
}
