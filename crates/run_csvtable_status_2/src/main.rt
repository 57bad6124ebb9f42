//! `csvtable` with a word that isn't known: status 2, and nothing on standard output.
#![tactic(auto)]

use csv_command::run_with_arguments;
use std::process::ExitCode;

fn main(rt: HostRuntime) -> ExitCode {
    run_with_arguments(&rt)
}
