//! A Markdown table gives back its fields.

ghost use Rattle.std.specs.Prelude.{IfSome};
ghost use Rattle.csv_promises.specs.MarkdownTable.{IsWrittenAsMarkdown};

use crate::straight::written;
use csv_command::{Invocation, OutputContext};
use csv_records::Records;
use devices::MemorySink;
use std::alloc::Global;

/// Returns the parsed arguments, the records of a file with the bytes `input`, and the output of
/// `csvtable` for this file as Markdown. The output has a line for the names, a rule with a part
/// for each column, and one line for each drawn record. A reader of the table splits each line at
/// its bars. A backslash means the character after it, and `<br>` means a line break. The reader
/// then gets the cleaned fields of the record, without the spaces at their ends. If not all records
/// are drawn, an empty line and a line that counts the records follow.
///
/// The promise requires that no line of a field, as it is written, takes more than 65535 terminal
/// columns. Returns `None` unless the arguments request `--markdown` without `--ansi`. Also returns
/// `None` if the whole input can't be read or drawn, if the output has more than `room` bytes, or
/// if memory runs out.
pub fn markdown_output(
    alloc: Global,
    arguments: &[&str],
    context: OutputContext<'_>,
    input: &[u8],
    room: usize,
) -> Option<(Invocation, Records, MemorySink)>
    ensures { IfSome result (λ drawn.
        IsWrittenAsMarkdown drawn.0.options drawn.1 drawn.2.bytes) }
{
    let (invocation, records, sink) = written(alloc, arguments, context, input, room, true)?;
    Some((invocation, records, sink))
}
