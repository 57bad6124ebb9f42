//! Readers and writers that repeat a call if a signal interrupts it.

ghost use Rattle.std.specs.Prelude.{◌≡◌};
ghost use Rattle.std.specs.Io.{ReadsAtMost, WritesAtMost};
ghost use Rattle.std.specs.Io.KnownBytes.{ReadConsumes, WriteAppends};

use std::io::{self, ErrorKind, Read, Write};

// The greatest number of tries for a call, with the first one.
const TRIES: u32 = 1000;

/// A reader or writer that repeats interrupted calls. A call of `read` or `write` that a signal
/// interrupts has read or written nothing, and is made again. If the call number 1000 is
/// interrupted too, the interruption is returned as an error. Calls of `flush` aren't repeated.
#[derive(Drop)]
pub struct Uninterrupted<S> {
    stream: S,
}

impl<S> Uninterrupted<S> {
    /// Makes a reader or writer that repeats the interrupted calls of `stream`.
    pub fn new(stream: S) -> Uninterrupted<S>
        ensures { result.stream ≡ stream }
    {
        Uninterrupted { stream }
    }
}

impl<R: Read> Read for Uninterrupted<R> {
    ghost remaining = { λ s. R.remaining s.stream };

    fn read(&mut self, buf: &mut [u8]) -> io::Result<usize> {
        read_again(&mut self.stream, buf)
    }
}

impl<W: Write> Write for Uninterrupted<W> {
    ghost contents = { λ s. W.contents s.stream };

    fn write(&mut self, buf: &[u8]) -> io::Result<usize> {
        write_again(&mut self.stream, buf)
    }

    fn flush(&mut self) -> io::Result<()> {
        self.stream.flush()
    }
}

// Reads once. An interrupted call is repeated, so there are at most `TRIES` calls.
fn read_again<R: Read>(reader: &mut R, buffer: &mut [u8]) -> io::Result<usize>
    ensures bound { ReadsAtMost result buffer.new }
    ensures bytes { ReadConsumes (R.remaining reader.old) (R.remaining reader.new) result
        buffer.new }
{
    for _ in 1..TRIES {
        match reader.read(buffer) {
            Err(error) if error.kind() == ErrorKind::Interrupted => {}
            returned => return returned,
        }
    }
    reader.read(buffer)
}

// Writes once. An interrupted call is repeated, so there are at most `TRIES` calls.
fn write_again<W: Write>(writer: &mut W, piece: &[u8]) -> io::Result<usize>
    ensures bound { WritesAtMost result piece.now }
    ensures bytes { WriteAppends (W.contents writer.old) (W.contents writer.new) result piece.now }
{
    for _ in 1..TRIES {
        match writer.write(piece) {
            Err(error) if error.kind() == ErrorKind::Interrupted => {}
            taken => return taken,
        }
    }
    writer.write(piece)
}
