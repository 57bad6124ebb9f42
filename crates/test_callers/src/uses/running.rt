//! Callers that run the program `ctable`, and create the devices from which it reads and to which
//! it writes.

ghost use Rattle.std.specs.Prelude.{◌≡◌, ◌≤◌, ◌++◌, IfOk, List, None, Some, false, is_some, length, take, true, ℕ};

use comfy_run::run::{DeviceFault, FromReader, MemorySink, Sink, Source, ToWriter, program};
use std::alloc::Global;
use std::io::{Read, Write};

/// Runs the program with a width that is no number. The program returns 2. It reads nothing from
/// `source` and writes nothing to `sink`.
pub fn asks_for_no_number<R: Source, W: Sink, F: Sink>(
    alloc: Global,
    source: &mut R,
    sink: &mut W,
    messages: &mut F,
) -> u8
    ensures status { result ≡ 2 }
    ensures unread { source.new ≡ source.old }
    ensures undrawn { sink.new ≡ sink.old }
{
    program(alloc, &["wide"], source, sink, messages)
}

/// Creates a source that reads from a reader, and a sink that writes to a writer. Neither has
/// failed, and the end of the source hasn't been read.
pub fn devices_over<R: Read, W: Write>(reader: R, writer: W) -> (FromReader<R>, ToWriter<W>)
    ensures { result ≡ (
      record {
        reader = reader;
        fault = None;
        ended = false;
      },
      record { writer = writer; failed = false; fault = None },
    ) }
{
    (FromReader::new(reader), ToWriter::new(writer))
}

/// Returns the number of bytes that were written to a sink in memory.
pub fn taken(sink: &MemorySink) -> usize
    ensures { result ≡ length sink.now.bytes }
{
    sink.bytes().len()
}

/// Calls `read` once, and returns the number of bytes that were read. It is at most the length of
/// the buffer.
pub fn read_once<R: Source>(source: &mut R, buffer: &mut [u8]) -> Result<usize, DeviceFault>
    ensures { IfOk result (λ count. count ≤ length buffer.old) }
{
    source.read(buffer)
}

/// Calls `write` once, and returns the number of bytes that were written. If the bytes in the sink
/// are known, they are its bytes before the call, and after them the first bytes of `piece`, as
/// many as were written.
pub fn write_once<W: Sink>(sink: &mut W, piece: &[u8]) -> Result<usize, DeviceFault>
    ensures { IfOk result (λ count. (had : List ℕ) → W.taken sink.old ≡ Some had
        → W.taken sink.new ≡ Some (had ++ take count piece.now)) }
{
    sink.write(piece)
}

/// Runs the program with a reader and two writers, and returns true if its status is 0. In this
/// case the end of the reader was read. Neither the reader nor the writer of `sink` has failed, if
/// that writer hadn't failed before.
pub fn drew_all<R: Read, W: Write, E: Write>(
    alloc: Global,
    words: &[&str],
    source: &mut FromReader<R>,
    sink: &mut ToWriter<W>,
    messages: &mut ToWriter<E>,
) -> bool
    ensures read { result ≡ true → (source.new.ended ≡ true) × (is_some source.new.fault ≡ false) }
    ensures written { result ≡ true → sink.old.failed ≡ false → sink.new.failed ≡ false }
{
    program(alloc, words, source, sink, messages) == 0
}
