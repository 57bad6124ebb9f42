//! Draws an input in memory as arguments request, and returns the drawing as a text.

ghost use Rattle.std.specs.Prelude.{◌≡◌, IfErr, IfOk, map, string_bytes};
ghost use Rattle.clap.specs.Words.{kind_of};
ghost use Rattle.csv_command.specs.Refusals.{IsRendered, IsRefusalByKind, IsRefusalOfInput, IsRefusedFor};
ghost use Rattle.csv_command.specs.Run.{IsInputRefusal};
ghost use Rattle.csv_command.specs.declared.drawing.Refusal.TheVariants.{OutOfMemory};

use crate::arguments::{Invocation, OutputContext, parse};
use crate::ending::{message_of, text_of_clap};
use crate::error::CsvError;
use crate::transfer::output_of_input;
use clap::error::{Error, ErrorKind};
use std::alloc::{AllocError, Global};

// The destination of an output that is returned to a caller: no terminal, and an environment
// without `COLUMNS` and `NO_COLOR`.
const NOT_A_TERMINAL: OutputContext<'static> = OutputContext {
    is_terminal: false,
    columns: None,
    no_color: None,
};

/// The reason why `render_csv` returns no drawing.
#[derive(Debug, Drop)]
pub enum Refusal {
    /// The arguments are refused, or they request the help or the version of `csvtable`. The text
    /// is the message on the refused argument, the help, or the version.
    Arguments(String),
    /// The input can't be drawn as the arguments request, for example if an argument names a column
    /// that the input doesn't have. The text is the line that `csvtable` writes on standard error.
    Input(String),
    /// Memory ran out.
    OutOfMemory,
}

impl From<AllocError> for Refusal {
    ghost from_gives = { λ _ e. e ≡ OutOfMemory };

    fn from(_error: AllocError) -> Refusal {
        Refusal::OutOfMemory
    }
}

/// Returns what `csvtable` writes to standard output for `arguments` and an input of the bytes
/// `input`. The first argument is the program's name. The option `--count` counts as given: if
/// `--limit` leaves out records, the last line has the number of all records. Standard output
/// counts as no terminal, and neither `COLUMNS` nor `NO_COLOR` counts as set.
///
/// No file is opened. An argument for a file names the input in messages, and the extension of this
/// name may set the delimiter. The error is the reason why there is no drawing (`Refusal`).
///
/// ```
/// let drawing = render_csv(rt.alloc(), &["csvtable", "-s", "grid"], b"a,b\n1,2\n")?;
/// ```
pub fn render_csv<'a>(
    alloc: Global,
    arguments: &'a [&'a str],
    input: &[u8],
) -> Result<String, Refusal>
    ensures drawn { IfOk result (λ drawing.
        IsRendered (map (λ w. w.now) arguments.entry.now) input.now (string_bytes drawing)) }
    ensures refused { IfErr result (λ refusal.
        IsRefusedFor (map (λ w. w.now) arguments.entry.now) input.now refusal) }
{
    let invocation = match parse(alloc, arguments, NOT_A_TERMINAL) {
        Ok(invocation) => invocation,
        Err(error) => return Err(refusal_of_arguments(alloc, &error)),
    };
    let input = Vec::from_slice(alloc, input)?;
    match output_of_input(alloc, input, &invocation.options) {
        Ok(output) => Ok(output),
        Err(error) => Err(refusal_of_input(alloc, &invocation, &error)),
    }
}

// The refusal of arguments for which clap has a text.
fn refusal_of_arguments(alloc: Global, error: &Error) -> Refusal
    ensures { IsRefusalByKind (kind_of error.now) result }
{
    if error.kind() == ErrorKind::OutOfMemory {
        return Refusal::OutOfMemory;
    }
    match text_of_clap(alloc, error) {
        Ok(text) => Refusal::Arguments(text),
        Err(AllocError) => Refusal::OutOfMemory,
    }
}

// The refusal of an input after this error.
fn refusal_of_input(alloc: Global, invocation: &Invocation, error: &CsvError) -> Refusal
    ensures { IsRefusalOfInput invocation.now error.now result }
{
    if matches!(error, CsvError::OutOfMemory) {
        return Refusal::OutOfMemory;
    }
    match message_of(alloc, invocation, None, error) {
        Ok(message) => Refusal::Input(message),
        Err(AllocError) => Refusal::OutOfMemory,
    }
}
