//! Reads cases from standard input, draws the records of each case as its arguments request, and
//! compares the output. The status is 1 if a case differs or can't be read, or if there was no
//! case.
#![tactic(auto)]

mod run;

use case_files::Cases;
use run::Run;
use std::process::ExitCode;

fn main(rt: HostRuntime) -> anyhow::Result<ExitCode> {
    let mut cases: Cases<Run> = Cases::new(rt.alloc());
    for line in rt.lines(rt.alloc()) {
        cases.take(&rt, line?.as_str())?;
    }
    cases.finish(&rt)
}
