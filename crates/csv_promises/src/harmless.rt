//! No file can control your terminal.

ghost use Rattle.std.specs.Prelude.{IfOk, IfSome, string_bytes};
ghost use Rattle.csv_promises.specs.Harmless.{IsHarmlessFor, ShowsNothingHarmful};
ghost use Rattle.csv_promises.specs.Messages.{IsTameLine};
ghost use Rattle.csv_command.specs.Drawn.{IsDrawnOf};

use csv_command::{CsvError, Invocation, Options, OutputContext, Refusal, draw, parse, render_csv};
use devices::{MemorySink, MemorySource};
use std::alloc::Global;

/// Returns the parsed arguments, and the output of `csvtable` for `arguments` and a file with the
/// bytes `input`. The promise holds for all bytes and every terminal. The visible text is the
/// output without sequences for colours and attributes. Line feeds are the only control characters
/// of the visible text, and no character of it turns the direction of text.
///
/// The only sequences begin and end bold, and there are none without a bold header. With `--ansi`
/// the output may have any sequence for colours and attributes, but none is open at the end of a
/// line.
///
/// Returns `None` if the arguments are refused, or request help or the version. Also returns `None`
/// if the input can't be drawn, if the output has more than `room` bytes, or if memory runs out.
pub fn harmless_output(
    alloc: Global,
    arguments: &[&str],
    context: OutputContext<'_>,
    input: &[u8],
    room: usize,
) -> Option<(Invocation, MemorySink)>
    ensures { IfSome result (λ drawn. IsHarmlessFor drawn.0.options.look drawn.1.bytes) }
{
    let invocation = parse(alloc, arguments, context).ok()?;
    let sink = output_for(alloc, input, room, &invocation.options).ok()?;
    Some((invocation, sink))
}

/// Returns the drawing that `render_csv` returns for `arguments` and `input`. The visible text is
/// the drawing without sequences for colours and attributes. Line feeds are the only control
/// characters of the visible text, and no character of it turns the direction of text.
///
/// Returns `None` if the arguments are refused, or request help or the version. Also returns `None`
/// if the input can't be drawn, or if memory runs out.
pub fn harmless_drawing(alloc: Global, arguments: &[&str], input: &[u8]) -> Option<String>
    ensures { IfSome result (λ drawing. ShowsNothingHarmful (string_bytes drawing)) }
{
    render_csv(alloc, arguments, input).ok()
}

/// Returns the line that `csvtable` writes on standard error if the input can't be drawn as the
/// arguments request. Whatever the input, the names in it and the name of the file are, the line
/// has a single control character: the line feed at its end. No character of the line turns the
/// direction of text.
///
/// Returns `None` if the input can be drawn, or if memory runs out. Also returns `None` if the
/// arguments are refused, or request help or the version.
pub fn harmless_message(alloc: Global, arguments: &[&str], input: &[u8]) -> Option<String>
    ensures { IfSome result (λ message. IsTameLine (string_bytes message)) }
{
    match render_csv(alloc, arguments, input) {
        Err(Refusal::Input(message)) => Some(message),
        _ => None,
    }
}

/// Returns a sink in memory that holds the output for an input. The error is `CsvError::Write` if
/// the output has more than `room` bytes.
pub(crate) fn output_for(
    alloc: Global,
    input: &[u8],
    room: usize,
    options: &Options,
) -> Result<MemorySink, CsvError>
    ensures { IfOk result (λ sink. IsDrawnOf options.now input.now sink.bytes) }
{
    let mut source = MemorySource::new(input, 0);
    let mut sink = MemorySink::new(alloc, room, 0)?;
    draw(alloc, &mut source, &mut sink, options)?;
    Ok(sink)
}
