//! `csvtable` with a column that isn't there: status 1, and nothing on standard output.
#![tactic(auto)]

use csv_command::run_with_arguments;
use std::process::ExitCode;

fn main(rt: HostRuntime) -> ExitCode {
    run_with_arguments(&rt)
}
