//! A width is kept.

ghost use Rattle.std.specs.Prelude.{IfSome};
ghost use Rattle.csv_promises.specs.Width.{KeepsItsWidth};

use crate::straight::written;
use csv_command::{Invocation, OutputContext};
use csv_records::Records;
use devices::MemorySink;
use std::alloc::Global;

/// Returns the parsed arguments, the records of a file with the bytes `input`, and the output of
/// `csvtable` for this file. If a width is set, no line shows more terminal columns than the
/// greater of two numbers: the width, and 1 + 4 n for a frame of n columns. Lines that count
/// records are exempt. If the arguments request `--full` and the width is at least 1 + 4 n, each
/// line shows exactly as many terminal columns as the width. Here n is 2 if records are always
/// expanded (each is a table of its own), or if they may be expanded and a record is drawn.
/// Otherwise n is the number of drawn columns, including that of record numbers.
///
/// The promise requires that each character of each field takes at most one terminal column, and
/// that no character is U+FE01. The promise also holds if each character takes at most two terminal
/// columns, no character is U+FE01 or U+FE0E, and the width is at least 1 + 5 n.
///
/// Returns `None` if the arguments are refused, or request `--ansi`, Markdown, help or the version.
/// Also returns `None` if the whole input can't be read or drawn, if the output has more than
/// `room` bytes, or if memory runs out.
pub fn output_within(
    alloc: Global,
    arguments: &[&str],
    context: OutputContext<'_>,
    input: &[u8],
    room: usize,
) -> Option<(Invocation, Records, MemorySink)>
    ensures { IfSome result (λ drawn. KeepsItsWidth drawn.0.options drawn.1 drawn.2.bytes) }
{
    let (invocation, records, sink) = written(alloc, arguments, context, input, room, false)?;
    Some((invocation, records, sink))
}
