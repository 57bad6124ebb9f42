//! The whole program as a process runs it: its arguments, its standard streams and its status.

use crate::error::RunError;
use crate::run::command::program;
use devices::{FromReader, ToWriter, Uninterrupted, arguments_of_process};
use std::alloc::AllocError;
use std::io;
use std::process::ExitCode;

/// Calls `program` with the standard streams and the arguments after the program's name, and
/// returns the exit status. If an argument isn't UTF-8, or memory runs out for the arguments, the
/// status is 1, and nothing is read. In both cases the message is `ctable: out of memory`.
///
/// ```
/// fn main(rt: HostRuntime) -> ExitCode {
///     run_with_arguments(&rt)
/// }
/// ```
pub fn run_with_arguments(rt: &HostRuntime) -> ExitCode {
    match run_for_process(rt) {
        Ok(status) => status,
        Err(_) => {
            let _ = eprintln!(rt; "ctable: {}", RunError::from(AllocError));
            ExitCode::FAILURE
        }
    }
}

// Calls `program` with the standard streams and the arguments after the program's name. An error is
// one of reading the arguments.
fn run_for_process(rt: &HostRuntime) -> io::Result<ExitCode> {
    let arguments = arguments_of_process(rt)?;
    let mut after_name = Vec::new(rt.alloc());
    for argument in arguments.iter().skip(1) {
        after_name.push(argument.as_str())?;
    }
    let mut source = FromReader::new(Uninterrupted::new(rt.stdin()));
    let mut sink = ToWriter::new(Uninterrupted::new(rt.stdout()));
    let mut messages = ToWriter::new(Uninterrupted::new(rt.stderr()));
    let words = after_name.as_slice();
    let status = program(rt.alloc(), words, &mut source, &mut sink, &mut messages);
    Ok(ExitCode::from(status))
}
