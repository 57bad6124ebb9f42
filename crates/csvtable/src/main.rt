//! Draws the records of a CSV file as a table.
#![tactic(auto)]

use csv_command::run_with_arguments;
use std::process::ExitCode;

fn main(rt: HostRuntime) -> ExitCode {
    run_with_arguments(&rt)
}
