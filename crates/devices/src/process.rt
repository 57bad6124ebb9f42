//! Calls that read facts of the process.

use std::{env, io};

/// Returns the program's name, and the arguments after it. The error has the kind `InvalidData` if
/// the name or an argument isn't UTF-8. Any other error is that memory runs out.
pub fn arguments_of_process(rt: &HostRuntime) -> io::Result<Vec<String>> {
    let mut arguments = Vec::new(rt.alloc());
    for argument in env::args(rt)? {
        arguments.push(argument)?;
    }
    Ok(arguments)
}
