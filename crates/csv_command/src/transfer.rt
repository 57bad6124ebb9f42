//! Reads an input, draws the table of its records, and writes the drawing.

ghost use Rattle.std.specs.Prelude.{◌≡◌, ◌≤◌, ◌^◌, ◌⊎◌, OnOk, IfErr, IfNone, IfOk, IfSome, None, Some, false, if◌then◌else◌, option_map, string_bytes, true};
ghost use Rattle.csv_command.specs.Columns.{IsColumnsRefusal, columns_for};
ghost use Rattle.csv_command.specs.Drawn.{HasLimit, IsNotEnough, RendersChosen, RendersExtent, RendersInput, most_drawn};
ghost use Rattle.csv_command.specs.LongRecords.{AreLongRecordsOf, AreLongRecordsOfInput};
ghost use Rattle.csv_command.specs.Run.{IsAfter, IsInputRefusal, IsRefusal, is_read_fault, is_write_fault};
ghost use Rattle.devices.specs.Outcome.{Between};
ghost use Rattle.devices.specs.Run.{AreFindings};

use crate::arguments::Options;
use crate::columns::{Counts, columns_of};
use crate::error::{ColumnsError, CsvError};
use comfy_parts::pieces::joined;
use csv_records::{
    FirstRecords, LongRecords, Records, decoded, read_beginning, read_first_records,
};
use csv_tables::{Layout, RecordDrawing, Selection, drawn_records};
use devices::{Render, Rendered, Sink, Source};
use std::alloc::Global;

/// Reads `source`, and writes the table of its records to `sink`, with a line feed after each line.
/// If not all records are drawn, the last line reports the number of all records. An input without
/// records has an empty output.
///
/// The source is read whole, unless `options.selection` has a limit and `options.counts_all` is
/// false. In this case the first 65536 bytes are tried, then the first 131072, and so on. Reading
/// stops if the complete lines of these bytes have more records than are drawn, and show the
/// delimiter. The last line of the drawing then says only that there are more records. The rest of
/// the source isn't checked. The drawing doesn't depend on the sizes in which the source delivers
/// its bytes.
///
/// Returns a report of the drawn records that have more fields than the header, or `None` if no
/// drawn record has more fields.
///
/// # Errors
///
/// The drawing is written in pieces. After `Read`, `Decode`, `Records` and `Columns` nothing was
/// written. After `Write` a beginning of the drawing was written. After `OutOfMemory` nothing or a
/// beginning of the drawing was written, but never the whole drawing.
///
/// ```
/// let mut source = FromReader::new(rt.stdin());
/// let mut sink = ToWriter::new(rt.stdout());
/// draw(rt.alloc(), &mut source, &mut sink, &options)?;
/// ```
pub fn draw<R: Source, W: Sink>(
    alloc: Global,
    source: &mut R,
    sink: &mut W,
    options: &Options,
) -> Result<Option<LongRecords>, CsvError>
    ensures ended { OnOk result ((R.end_was_read source.new ≡ true) ⊎ HasLimit options.now) }
    ensures source { R.has_failed source.new ≡ is_read_fault result }
    ensures sink { W.has_failed sink.old ≡ false → W.has_failed sink.new ≡ is_write_fault result }
    ensures known { Between R.Source W.Sink (source.old, sink.old) (source.new, sink.new)
        (IsAfter options.now result) }
    ensures long_records { Between R.Source W.Sink (source.old, sink.old) (source.new, sink.new)
        (AreFindings (IsNotEnough options.now) (AreLongRecordsOf options.now) result) }
{
    Ok(devices::run(alloc, source, sink, options)?)
}

// A drawing, and a report of its records that have more fields than the header.
type Drawing = Rendered<RecordDrawing, Option<LongRecords>>;

impl Render for Options {
    type Error = CsvError;

    type Output = RecordDrawing;

    type Findings = Option<LongRecords>;

    ghost is_not_enough = { IsNotEnough };

    ghost is_output = { RendersExtent };

    ghost are_findings = { AreLongRecordsOf };

    ghost is_refusal = { IsRefusal };

    fn render(&self, alloc: Global, input: Vec<u8>) -> Result<Drawing, CsvError> {
        rendered_input(alloc, input, self)
    }

    fn render_beginning(&self, alloc: Global, read: &[u8]) -> Option<Result<Drawing, CsvError>> {
        if self.counts_all {
            return None;
        }
        let most = most_drawn(&self.selection)?;
        let Ok(found) = read_beginning(alloc, read, &self.input, most) else {
            return Some(Err(CsvError::OutOfMemory));
        };
        let first = found?;
        let findings = long_records_of(&self.selection, &first);
        match output_of(alloc, first.records, None, self) {
            Ok(pieces) => Some(Ok(Rendered { pieces, findings })),
            Err(error) => Some(Err(CsvError::from(error))),
        }
    }
}

// The greatest number of records that are drawn, including the header, if there is a limit.
fn most_drawn(selection: &Selection) -> Option<usize>
    ensures some { IfSome result (λ most.
        option_map (most_drawn selection.now.has_header) selection.now.limit ≡ Some most) }
    ensures none { IfNone result (IfSome selection.now.limit (λ limit.
        2 ^ 64 ≤ most_drawn selection.now.has_header limit)) }
{
    let limit = selection.limit?;
    if selection.has_header {
        limit.checked_add(1)
    } else {
        Some(limit)
    }
}

// The report of those first records that have more fields than the header.
fn long_records_of(selection: &Selection, first: &FirstRecords) -> Option<LongRecords>
    ensures { result ≡ (if selection.now.has_header then first.now.longer else None) }
{
    first.longer.filter(|_| selection.has_header)
}

// The output for these records. `count` is the number of records below the header, if it is known.
fn output_of(
    alloc: Global,
    records: Records,
    count: Option<usize>,
    options: &Options,
) -> Result<RecordDrawing, ColumnsError>
    ensures output { IfOk result (λ output.
        RendersChosen count options.now records output) }
    ensures refused { IfErr result (λ e. IsColumnsRefusal e (columns_for options.now records)) }
{
    let selection = options.selection;
    let rows = records.rows();
    let counts = Counts {
        all: selection.column_count(&rows),
        filled: selection.filled_columns(&rows),
    };
    let layout = Layout {
        selection,
        columns: columns_of(alloc, &selection.names(&rows), counts, &options.columns)?,
        look: options.look,
    };
    Ok(drawn_records(alloc, records, count, &layout)?)
}

/// Returns the output for an input of the bytes `input`: the table of its records, or an empty text
/// if there are no records. All records are counted, even if `options.counts_all` is false. The
/// errors are those of `draw` except `Read` and `Write`.
pub fn output_of_input(alloc: Global, input: Vec<u8>, options: &Options) -> Result<String, CsvError>
    ensures output { IfOk result (λ output.
        RendersInput options.now input.items (string_bytes output)) }
    ensures refused { IfErr result (λ e. IsInputRefusal options.now input.items e) }
{
    Ok(joined(alloc, rendered_input(alloc, input, options)?.pieces)?)
}

// The drawing of an input that was read whole, and a report of its records that have more fields
// than the header.
fn rendered_input(alloc: Global, input: Vec<u8>, options: &Options) -> Result<Drawing, CsvError>
    ensures output { IfOk result (λ rendered.
        RendersInput options.now input.items rendered.pieces) }
    ensures long_records { IfOk result (λ rendered.
        AreLongRecordsOfInput options.now input.items rendered.findings) }
    ensures refused { IfErr result (λ e. IsInputRefusal options.now input.items e) }
{
    let text = decoded(alloc, input, &options.input)?;
    // The other records are only counted.
    let most = most_drawn(&options.selection).unwrap_or(usize::MAX);
    let first = read_first_records(alloc, text.as_str(), &options.input, most)?;
    // The records have texts of their own.
    drop(text);
    let findings = long_records_of(&options.selection, &first);
    if first.count == 0 {
        let pieces = RecordDrawing::nothing();
        return Ok(Rendered { pieces, findings });
    }
    let below = first.count - usize::from(options.selection.has_header);
    let pieces = output_of(alloc, first.records, Some(below), options)?;
    Ok(Rendered { pieces, findings })
}
