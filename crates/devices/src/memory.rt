//! A source and a sink in memory. Both can be set to fail at a chosen call.

ghost use Rattle.std.specs.Prelude.{◌≡◌, ◌||◌, ◌++◌, true, false, Some, [], IfOk, OnOk, OnErr, is_err, is_none, length, min, take, drop};
ghost use Rattle.devices.specs.Device.{left_in, is_due, after_reading, is_full_for, fitting, after_writing};
ghost use Rattle.devices.specs.DeviceLaws.{none_is_left_in_memory};

use crate::device::{DeviceFault, Sink, Source};
use std::alloc::Global;
use std::marker::Model;

/// A source of bytes in memory. It can be set to fail at a chosen call of `read`.
///
/// ```
/// let mut source = MemorySource::new(b"a\tb\n1\t2\n", 0);
/// ```
#[derive(Debug, Drop)]
pub struct MemorySource<'a> {
    rest: Option<&'a [u8]>,
    fails_at: u64,
    failed: bool,
}

impl<'a> Model for MemorySource<'a> {
    ghost use Rattle.std.specs.Prelude.{option_copied};
    ghost use Rattle.devices.specs.Device.{MemorySourceValue};

    ghost Value = { MemorySourceValue };

    ghost view = { λ s. record {
      rest = option_copied s.rest;
      fails_at = s.fails_at;
      failed = s.failed;
    } };
}

impl<'a> MemorySource<'a> {
    /// Makes a source of `bytes`. Each call of `read` reads all bytes that are left, or as many as
    /// have room in the buffer. The call of `read` with the number `fails_at`, counted from 1,
    /// fails, and so does every later call. If `fails_at` is 0, no call fails.
    pub fn new(bytes: &'a [u8], fails_at: u64) -> MemorySource<'a>
        ensures { result ≡ record { rest = Some bytes.now; fails_at = fails_at; failed = false } }
    {
        MemorySource {
            rest: Some(bytes),
            fails_at,
            failed: false,
        }
    }
}

impl Source for MemorySource<'_> {
    ghost remaining = { λ s. Some (left_in s) };

    ghost has_failed = { λ s. s.failed };

    ghost end_was_read = { λ s. is_none s.rest };

    ghost ended = { none_is_left_in_memory };

    fn read(&mut self, buffer: &mut [u8]) -> Result<usize, DeviceFault>
        ensures fails { is_err result ≡ is_due self.old.failed self.old.fails_at }
        ensures failed { OnErr result (self.new ≡ record self.old { failed = true }) }
        ensures count { IfOk result
            (λ count. count ≡ min (length (left_in self.old)) (length buffer.old)) }
        ensures given { IfOk result
            (λ count. buffer.new ≡ take count (left_in self.old) ++ drop count buffer.old) }
        ensures after { OnOk result (self.new ≡ after_reading (length buffer.old) self.old) }
    {
        if self.failed || self.fails_at == 1 {
            self.failed = true;
            return Err(DeviceFault);
        }
        self.fails_at = self.fails_at.saturating_sub(1);
        let Some(left) = self.rest else {
            return Ok(0);
        };
        if left.is_empty() && !buffer.is_empty() {
            self.rest = None;
            return Ok(0);
        }
        let count = left.len().min(buffer.len());
        let (front, others) = left.split_at(count);
        buffer[..count].copy_from_slice(front);
        self.rest = Some(others);
        Ok(count)
    }
}

/// A sink in memory with room for a number of bytes. It can be set to fail at a chosen call of
/// `write`.
///
/// ```
/// let mut sink = MemorySink::new(rt.alloc(), 4096, 0)?;
/// ```
#[derive(Debug, Drop)]
pub struct MemorySink {
    bytes: Vec<u8>,
    room: usize,
    fails_at: u64,
    failed: bool,
}

impl Model for MemorySink {
    ghost use Rattle.std.specs.Prelude.{◌≤◌, vec_len, vec_capacity};
    ghost use Rattle.devices.specs.Device.{MemorySinkValue};

    ghost Value = { MemorySinkValue };

    ghost view = { λ s. record {
      bytes = s.bytes.items;
      room = s.room;
      fails_at = s.fails_at;
      failed = s.failed;
    } };

    ghost invariant = { λ s. (vec_len s.bytes ≤ s.room) × (s.room ≤ vec_capacity s.bytes) };
}

impl MemorySink {
    /// Makes an empty sink with room for `room` bytes. The memory for these bytes is taken here, so
    /// `write` takes no memory. The only error of `new` is `OutOfMemory`.
    ///
    /// Each call of `write` writes as many bytes of its piece as have room. A call fails if its
    /// piece isn't empty and no room is left. The call of `write` with the number `fails_at`,
    /// counted from 1, fails too. If `fails_at` is 0, no call fails for that reason. After a
    /// failure every later call fails.
    pub fn new(alloc: Global, room: usize, fails_at: u64) -> comfy_parts::Result<MemorySink>
        ensures { IfOk result (λ s. s ≡ record {
          bytes = [];
          room = room;
          fails_at = fails_at;
          failed = false;
        }) }
    {
        Ok(MemorySink {
            bytes: Vec::with_capacity(alloc, room)?,
            room,
            fails_at,
            failed: false,
        })
    }

    /// The bytes that were written to the sink, in order.
    pub fn bytes(&self) -> &[u8]
        ensures { result.now ≡ self.now.bytes }
    {
        self.bytes.as_slice()
    }
}

impl Sink for MemorySink {
    ghost taken = { λ s. Some s.bytes };

    ghost has_failed = { λ s. s.failed };

    fn write(&mut self, piece: &[u8]) -> Result<usize, DeviceFault>
        ensures fails { is_err result
            ≡ (is_due self.old.failed self.old.fails_at || is_full_for piece.now self.old) }
        ensures failed { OnErr result (self.new ≡ record self.old { failed = true }) }
        ensures count { IfOk result (λ count. count ≡ fitting piece.now self.old) }
        ensures after { OnOk result (self.new ≡ after_writing piece.now self.old) }
    {
        let fitting = piece.len().min(self.room - self.bytes.len());
        let is_due = self.failed || self.fails_at == 1;
        if is_due || (!piece.is_empty() && fitting == 0) {
            self.failed = true;
            return Err(DeviceFault);
        }
        self.fails_at = self.fails_at.saturating_sub(1);
        self.bytes.extend_from_slice(&piece[..fitting]).unwrap();
        Ok(fitting)
    }
}
