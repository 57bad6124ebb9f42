//! `ctable` with a width, an arrangement and a style, and 200 kB of input.
#![tactic(auto)]

use comfy_run::run::run_with_arguments;
use std::process::ExitCode;

fn main(rt: HostRuntime) -> ExitCode {
    run_with_arguments(&rt)
}
