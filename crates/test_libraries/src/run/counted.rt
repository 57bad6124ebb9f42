//! Devices that count their calls: nothing is read after the end, and no message is written after a
//! success.

ghost use Rattle.std.specs.Prelude.{Some, is_none};
ghost use Rattle.devices.specs.Device.{left_in};
ghost use Rattle.devices.specs.DeviceLaws.{none_is_left_in_memory};

use crate::support::sink_of;
use comfy_run::run::{DeviceFault, MemorySink, MemorySource, Sink, Source, program};
use std::alloc::{Alloc, Global};
use std::process::Abort;

// A source over memory, and the number of its reads.
#[derive(Drop)]
struct CountedSource<'a> {
    source: MemorySource<'a>,
    reads: u64,
}

impl Source for CountedSource<'_> {
    ghost remaining = { λ s. Some (left_in s.source) };

    ghost has_failed = { λ s. s.source.failed };

    ghost end_was_read = { λ s. is_none s.source.rest };

    ghost ended = { λ s. none_is_left_in_memory s.source };

    fn read(&mut self, buffer: &mut [u8]) -> Result<usize, DeviceFault> {
        self.reads = self.reads.saturating_add(1);
        self.source.read(buffer)
    }
}

// A sink in memory, and the number of its writes, including those of an empty piece.
#[derive(Drop)]
struct CountedSink {
    sink: MemorySink,
    writes: u64,
}

impl CountedSink {
    fn new(rt: &(impl Abort + Alloc<A = Global>), fails_at: u64) -> CountedSink {
        CountedSink {
            sink: sink_of(rt, 4096, fails_at),
            writes: 0,
        }
    }
}

impl Sink for CountedSink {
    ghost taken = { λ s. Some s.sink.bytes };

    ghost has_failed = { λ s. s.sink.failed };

    fn write(&mut self, piece: &[u8]) -> Result<usize, DeviceFault> {
        self.writes = self.writes.saturating_add(1);
        self.sink.write(piece)
    }
}

// The words and the input of the program, and the call at which its output fails. Then the numbers
// of its reads, of writes of its output and of a message, and its status.
type Calls = (
    &'static [&'static str],
    &'static [u8],
    u64,
    (u64, u64, u64, u8),
);

// One read of a short input and one of its end, one write of all, and no message. The first call of
// a message is its only one.
const CALLS: [Calls; 5] = [
    (&[], b"a\tb\nc\td\n", 0, (2, 1, 0, 0)),
    (&[], b"", 0, (1, 1, 0, 0)),
    (&[], b"\xff", 0, (2, 0, 1, 1)),
    (&[], b"a\n", 1, (2, 1, 1, 1)),
    (&["x"], b"a\n", 0, (0, 0, 1, 2)),
];

// Runs the program, and returns how often it called its devices, and its status. The message fails
// at its first call.
fn calls(
    rt: &(impl Abort + Alloc<A = Global>),
    words: &[&str],
    input: &[u8],
    failing_write: u64,
) -> (u64, u64, u64, u8) {
    let mut source = CountedSource {
        source: MemorySource::new(input, 0),
        reads: 0,
    };
    let mut sink = CountedSink::new(rt, failing_write);
    let mut messages = CountedSink::new(rt, 1);
    let status = program(rt.alloc(), words, &mut source, &mut sink, &mut messages);
    (source.reads, sink.writes, messages.writes, status)
}

#[test]
fn no_device_is_called_again(rt: HostRuntime) {
    for (words, input, failing_write, wanted) in &CALLS {
        assert!(rt; calls(&rt, words, input, *failing_write) == *wanted);
    }
}
