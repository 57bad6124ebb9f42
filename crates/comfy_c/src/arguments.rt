//! The arguments that a caller passes as one text.

ghost use Rattle.std.specs.Prelude.{◌≡◌, ◌<◌, IfOk, length, map};
ghost use Rattle.comfy_c.specs.Calls.{IsCommandLine, closed, ended};

use std::alloc::{AllocError, Global};

const PROGRAM: &str = "csvtable";

/// Returns the program's name, and after it the arguments that `text` holds. A zero byte ends each
/// argument. The zero byte of the last argument may be missing. An empty text holds no arguments.
/// The only error is that memory ran out.
pub(crate) fn command_line(alloc: Global, text: &str) -> Result<Vec<&str>, AllocError>
    ensures { IfOk result (λ arguments.
        IsCommandLine text.now (map (λ argument. argument.now) arguments.items)) }
{
    let mut arguments = Vec::new(alloc);
    arguments.push(PROGRAM)?;
    if text.is_empty() {
        return Ok(arguments);
    }
    for argument in without_end(text).split('\0') {
        arguments.push(argument)?;
    }
    Ok(arguments)
}

// The text without the zero byte at its end, if there is such a byte.
fn without_end(text: &str) -> &str
    ensures { 0 < length text.now → ended result.now ≡ closed text.now }
{
    text.strip_suffix('\0').unwrap_or(text)
}
