//! Straight edges: all lines show the same number of terminal columns.

ghost use Rattle.std.specs.Prelude.{IfOk, IfSome, map};
ghost use Rattle.csv_records.specs.Reading.{AreRecordsFor};
ghost use Rattle.csv_promises.specs.Straight.{EachField, IsPlainField, IsStraight, IsStraightWhereFieldsFit};
ghost use Rattle.csv_promises.specs.Width.{IsStraightWhereTwoFit};
ghost use Rattle.csv_promises.specs.Written.{IsWritten};
ghost use Rattle.promises.specs.Tables.{HasCharactersWithin};

use crate::harmless::output_for;
use csv_command::{CsvError, Invocation, Options, OutputContext, parse};
use csv_records::{Records, decoded, read_records};
use devices::MemorySink;
use std::alloc::Global;

/// Returns the parsed arguments, the records of a file with the bytes `input`, and the output of
/// `csvtable` for this file. All lines of the output show the same number of terminal columns,
/// except those that count records. This promise holds under every width and height, with a bold
/// header, and if records are expanded, which means that each is a table of its own.
///
/// The promise requires that each character of each field takes at most one terminal column, and
/// that no character is U+FE01.
///
/// Returns `None` if the arguments are refused, or request `--ansi`, Markdown, help or the version.
/// Also returns `None` if the whole input can't be read or drawn, if the output has more than
/// `room` bytes, or if memory runs out.
pub fn straight_output(
    alloc: Global,
    arguments: &[&str],
    context: OutputContext<'_>,
    input: &[u8],
    room: usize,
) -> Option<(Invocation, Records, MemorySink)>
    ensures { IfSome result (λ drawn.
        EachField (HasCharactersWithin 1) drawn.1
        → IsStraight drawn.0.options drawn.1 drawn.2.bytes) }
{
    let (parsed, records, sink) = written(alloc, arguments, context, input, room, false)?;
    Some((parsed, records, sink))
}

/// Returns the arguments, the records and the output that `straight_output` returns, or `None` if
/// it returns `None`. All lines of the output show the same number of terminal columns, except
/// those that count records. This promise is for texts of every script.
///
/// The promise requires that each character of each drawn field and name has room in its column. It
/// also requires that U+FE01 is nowhere directly next to U+FE0E or U+FE0F. A character takes at
/// most two terminal columns, except U+17D8, which takes three.
pub fn straight_fitting_output(
    alloc: Global,
    arguments: &[&str],
    context: OutputContext<'_>,
    input: &[u8],
    room: usize,
) -> Option<(Invocation, Records, MemorySink)>
    ensures { IfSome result (λ drawn.
        IsStraightWhereFieldsFit drawn.0.options drawn.1 drawn.2.bytes) }
{
    let (chosen, records, sink) = written(alloc, arguments, context, input, room, false)?;
    Some((chosen, records, sink))
}

/// Returns the arguments, the records and the output that `straight_output` returns, or `None` if
/// it returns `None`. All lines of the output show the same number of terminal columns, except
/// those that count records. This promise is for texts of every script, and for a width that has
/// room for their characters.
///
/// The promise requires that each character of each field takes at most two terminal columns, as
/// every character except U+17D8 does. No character may be U+FE01 or U+FE0E. The width must be at
/// least 1 + 5 n terminal columns. Here n is 2 if records are always expanded (each is a table of
/// its own), or if they may be expanded and a record is drawn. Otherwise n is the number of drawn
/// columns, including that of record numbers.
pub fn straight_wide_output(
    alloc: Global,
    arguments: &[&str],
    context: OutputContext<'_>,
    input: &[u8],
    room: usize,
) -> Option<(Invocation, Records, MemorySink)>
    ensures { IfSome result (λ drawn.
        IsStraightWhereTwoFit drawn.0.options drawn.1 drawn.2.bytes) }
{
    let (wanted, records, sink) = written(alloc, arguments, context, input, room, false)?;
    Some((wanted, records, sink))
}

/// Returns the arguments, the records and the output that `straight_output` returns. All lines of
/// the output show the same number of terminal columns, except those that count records. This
/// promise is for texts of every script, without a width. Returns `None` if `straight_output`
/// returns `None`, if the arguments or the terminal set a width, or if the arguments have `-m`.
///
/// The promise requires that each field takes at most 65535 terminal columns, and that cleaning
/// doesn't change it. Such a field has no control character, and no character that turns the
/// direction of text.
pub fn straight_whole_output(
    alloc: Global,
    arguments: &[&str],
    context: OutputContext<'_>,
    input: &[u8],
    room: usize,
) -> Option<(Invocation, Records, MemorySink)>
    ensures { IfSome result (λ drawn.
        EachField IsPlainField drawn.1 → IsStraight drawn.0.options drawn.1 drawn.2.bytes) }
{
    let (invocation, records, sink) = written(alloc, arguments, context, input, room, false)?;
    if invocation.options.look.width.is_some() || invocation.options.look.max_height.is_some() {
        return None;
    }
    Some((invocation, records, sink))
}

// Returns the parsed arguments, the records of an input, and the output for both, which is for
// Markdown if `is_markdown` is true. Returns `None` if fields keep their SGR sequences, if the
// arguments request the other kind of output, and after any error.
pub(crate) fn written(
    alloc: Global,
    arguments: &[&str],
    context: OutputContext<'_>,
    input: &[u8],
    room: usize,
    is_markdown: bool,
) -> Option<(Invocation, Records, MemorySink)>
    ensures { IfSome result (λ w.
        IsWritten is_markdown (map (λ x. x.now) arguments.entry.now) context.entry w.0 input.now
        w.1 w.2.bytes) }
{
    let invocation = parse(alloc, arguments, context).ok()?;
    let look = invocation.options.look;
    if look.has_sequences || look.is_markdown != is_markdown {
        return None;
    }
    let records = records_for(alloc, input, &invocation.options).ok()?;
    let sink = output_for(alloc, input, room, &invocation.options).ok()?;
    Some((invocation, records, sink))
}

// The records of an input, read with these options.
fn records_for(alloc: Global, input: &[u8], options: &Options) -> Result<Records, CsvError>
    ensures { IfOk result (λ records. AreRecordsFor options.now.input input.now records) }
{
    let bytes = Vec::from_slice(alloc, input)?;
    let text = decoded(alloc, bytes, &options.input)?;
    Ok(read_records(alloc, text.as_str(), &options.input)?)
}
