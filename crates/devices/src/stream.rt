//! Sources over readers, and sinks over writers. Each stores the failure of its reader or writer.

ghost use Rattle.std.specs.Prelude.{◌≡◌, ◌||◌, ◌↔◌, IfErr, IfOk, None, Ok, Some, is_err, is_some, false, true};
ghost use Rattle.std.specs.IoError.{error_kind};
ghost use Rattle.devices.specs.Device.{is_end};
ghost use Rattle.devices.specs.Stream.{fault_after, left_before, none_is_left};

use crate::device::{DeviceFault, Sink, Source};
use std::io::{self, ErrorKind, Read, Write};
use std::marker::Model;

/// A source that reads from a reader. It fails at the first error of the reader. Put the reader in
/// `Uninterrupted`, so that calls that a signal interrupts are repeated.
#[derive(Drop)]
pub struct FromReader<R> {
    reader: R,
    // the kind of the error with which the reader failed
    fault: Option<ErrorKind>,
    ended: bool,
}

impl<R> Model for FromReader<R> {
    ghost use Rattle.devices.specs.Stream.{ReaderValue};

    ghost Value = { ReaderValue R };

    ghost view = { λ s. record { reader = s.reader; fault = s.fault; ended = s.ended } };
}

impl<R: Read> FromReader<R> {
    /// Makes a source of the bytes that are left in `reader`. The call takes no memory.
    pub fn new(reader: R) -> FromReader<R>
        ensures { result ≡ record { reader = reader; fault = None; ended = false } }
    {
        FromReader {
            reader,
            fault: None,
            ended: false,
        }
    }

    /// The kind of the error with which the reader failed. `None` if the reader hasn't failed.
    pub fn fault(&self) -> Option<ErrorKind>
        ensures { result ≡ self.now.fault }
    {
        self.fault
    }

    // Stores whether the reader's result for a buffer of `room` bytes is an error or the end.
    // Returns the result of the source.
    fn note_result(
        &mut self,
        returned: io::Result<usize>,
        room: usize,
    ) -> Result<usize, DeviceFault>
        ensures count { IfOk result (λ count. returned ≡ Ok count) }
        ensures fault { is_err result ≡ is_err returned }
        ensures after { self.new ≡ record self.old {
          fault = fault_after returned self.old.fault;
          ended = self.old.ended || is_end returned room;
        } }
    {
        match returned {
            Ok(count) => {
                if count == 0 && room > 0 {
                    self.ended = true;
                }
                Ok(count)
            }
            Err(error) => {
                self.fault = Some(error.kind());
                Err(DeviceFault)
            }
        }
    }
}

impl<R: Read> Source for FromReader<R> {
    ghost remaining = { λ s. left_before s.ended (R.remaining s.reader) };

    ghost has_failed = { λ s. is_some s.fault };

    ghost end_was_read = { λ s. s.ended };

    ghost ended = { λ s. none_is_left s.ended (R.remaining s.reader) };

    fn read(&mut self, buffer: &mut [u8]) -> Result<usize, DeviceFault> {
        if self.fault.is_some() {
            return Err(DeviceFault);
        }
        if self.ended {
            return Ok(0);
        }
        let returned = self.reader.read(buffer);
        self.note_result(returned, buffer.len())
    }
}

/// A sink that writes to a writer. It fails at the first error of the writer, or if the writer
/// takes no byte of a piece that isn't empty. Put the writer in `Uninterrupted`, so that calls that
/// a signal interrupts are repeated.
#[derive(Drop)]
pub struct ToWriter<W> {
    writer: W,
    failed: bool,
    // the kind of the error with which the writer failed, if it returned one
    fault: Option<ErrorKind>,
}

impl<W> Model for ToWriter<W> {
    ghost use Rattle.devices.specs.Stream.{ToWriterValue};

    ghost Value = { ToWriterValue W };

    ghost view = { λ s. record { writer = s.writer; failed = s.failed; fault = s.fault } };
}

impl<W: Write> ToWriter<W> {
    /// Makes a sink that writes to `writer`. The call takes no memory.
    pub fn new(writer: W) -> ToWriter<W>
        ensures { result ≡ record { writer = writer; failed = false; fault = None } }
    {
        ToWriter {
            writer,
            failed: false,
            fault: None,
        }
    }

    /// The kind of the error with which the writer failed. `None` if the writer hasn't failed, or
    /// if it failed without an error by taking no byte.
    pub fn fault(&self) -> Option<ErrorKind>
        ensures { result ≡ self.now.fault }
    {
        self.fault
    }

    // Stores whether the writer's result for a piece of `bytes` bytes is a failure. Returns the
    // result of the sink.
    fn note_result(
        &mut self,
        returned: io::Result<usize>,
        bytes: usize,
    ) -> Result<usize, DeviceFault>
        ensures count { IfOk result (λ count. returned ≡ Ok count) }
        ensures fault { is_err result ≡ (is_err returned || is_end returned bytes) }
        ensures after { self.new ≡ record self.old {
          failed = self.old.failed || (is_err returned || is_end returned bytes);
          fault = fault_after returned self.old.fault;
        } }
    {
        match returned {
            Ok(count) if count > 0 || bytes == 0 => Ok(count),
            Ok(_) => {
                self.failed = true;
                Err(DeviceFault)
            }
            Err(fault) => {
                self.failed = true;
                self.fault = Some(fault.kind());
                Err(DeviceFault)
            }
        }
    }
}

impl<W: Write> Sink for ToWriter<W> {
    ghost taken = { λ s. W.contents s.writer };

    ghost has_failed = { λ s. s.failed };

    fn write(&mut self, piece: &[u8]) -> Result<usize, DeviceFault> {
        if self.failed {
            return Err(DeviceFault);
        }
        let returned = self.writer.write(piece);
        self.note_result(returned, piece.len())
    }
}
