//! Devices over readers and writers, some of which fail, and the state after such a run.

use super::program::{README, SMALL};
use crate::support::{README_DRAWN, assert_bytes, assert_given, sink_of};
use comfy_run::run::{
    FromReader, MemorySink, MemorySource, RunError, Settings, Sink, Source, ToWriter, render_tsv,
    run,
};
use comfy_table::presets::ASCII_FULL;
use comfy_table::{ContentArrangement, TableError};
use std::alloc::{Alloc, Global};
use std::io::{self, Read, Write};
use std::process::Abort;

/// Settings without a width, with the arrangement `Disabled` and the style `ASCII_FULL`.
pub const PLAIN: Settings = Settings {
    width: None,
    arrangement: ContentArrangement::Disabled,
    style: ASCII_FULL,
};

const INPUT: &[u8] = b"a\tb\nc\td\n";

// Runs on a source, and compares the end of the run and its output.
fn assert_run_from<R: Source>(
    rt: &(impl Abort + Alloc<A = Global>),
    source: &mut R,
    wanted: &Result<(), RunError>,
    output: &str,
) {
    let mut sink = sink_of(rt, 4096, 0);
    assert!(rt; run(rt.alloc(), source, &mut sink, PLAIN) == *wanted);
    assert_bytes(rt, sink.bytes(), output);
}

// Runs on a source that fails. Nothing is written, and the source fails from then on.
fn assert_unread<R: Source>(rt: &(impl Abort + Alloc<A = Global>), source: &mut R) {
    assert_run_from(rt, source, &Err(RunError::Read), "");
    assert!(rt; source.read(&mut [0u8; 4]).is_err());
}

// Runs on the small input, and compares the end of the run.
fn assert_run_into<W: Sink>(
    rt: &(impl Abort + Alloc<A = Global>),
    sink: &mut W,
    wanted: &Result<(), RunError>,
) {
    assert_run(rt, INPUT, sink, wanted);
}

fn assert_run<W: Sink>(
    rt: &(impl Abort + Alloc<A = Global>),
    input: &[u8],
    sink: &mut W,
    wanted: &Result<(), RunError>,
) {
    let mut source = MemorySource::new(input, 0);
    assert!(rt; run(rt.alloc(), &mut source, sink, PLAIN) == *wanted);
}

// Runs on the small input into a sink that fails, and fails from then on.
fn assert_unwritten<W: Sink>(rt: &(impl Abort + Alloc<A = Global>), sink: &mut W) {
    assert_run_into(rt, sink, &Err(RunError::Write));
    assert!(rt; sink.write(b"").is_err());
}

#[test]
fn a_text_in_memory_is_drawn(rt: HostRuntime) {
    let drawing = render_tsv(rt.alloc(), "a\tb\nc\td\n", PLAIN);
    assert_given(&rt, drawing, SMALL);
}

// No machine has so much memory, so this is a request that is refused in every run of the tests.
#[test]
fn a_sink_with_too_much_room_is_refused(rt: HostRuntime) {
    let refused = MemorySink::new(rt.alloc(), usize::MAX, 0);
    assert!(rt; matches!(&refused, Err(TableError::OutOfMemory)));
}

// One read gives the input, and one shows its end; there is no third.
#[test]
fn a_source_in_memory_fails_at_each_read(rt: HostRuntime) {
    assert_unread(&rt, &mut MemorySource::new(README, 1));
    assert_unread(&rt, &mut MemorySource::new(README, 2));
    assert_run_from(
        &rt,
        &mut MemorySource::new(README, 3),
        &Ok(()),
        README_DRAWN,
    );
}

// The room of a sink, the call at which it fails, the end of a run into it, and the bytes in it.
const SINKS: [(usize, u64, Result<(), RunError>, &str); 3] = [
    (4096, 1, Err(RunError::Write), ""),
    // the drawing is one write
    (4096, 2, Ok(()), README_DRAWN),
    // without more room there is a second one
    (10, 0, Err(RunError::Write), "+---------"),
];

#[test]
fn a_sink_in_memory_fails_at_each_write(rt: HostRuntime) {
    for (room, failing_write, wanted, output) in &SINKS {
        let mut sink = sink_of(&rt, *room, *failing_write);
        assert_run(&rt, README, &mut sink, wanted);
        assert_bytes(&rt, sink.bytes(), output);
    }
}

// A reader that gives one byte at a call, and whose call `fails_at` is an error.
#[derive(Drop)]
struct SlowReader {
    rest: &'static [u8],
    fails_at: u64,
}

impl Read for SlowReader {
    fn read(&mut self, buffer: &mut [u8]) -> io::Result<usize> {
        self.fails_at = self.fails_at.saturating_sub(1);
        if self.fails_at == 0 {
            return Err(io::Error::from(io::ErrorKind::Other));
        }
        let Some((first, others)) = self.rest.split_first() else {
            return Ok(0);
        };
        let Some(place) = buffer.first_mut() else {
            return Ok(0);
        };
        *place = *first;
        self.rest = others;
        Ok(1)
    }
}

fn slow_source(fails_at: u64) -> FromReader<SlowReader> {
    FromReader::new(SlowReader {
        rest: INPUT,
        fails_at,
    })
}

// There is one call for each of the eight bytes, and one that reads the end.
#[test]
fn a_source_keeps_that_its_reader_failed(rt: HostRuntime) {
    for call in 1..10 {
        assert_unread(&rt, &mut slow_source(call));
    }
}

// A slow reader, and one of std.
#[test]
fn readers_are_read_to_their_end(rt: HostRuntime) {
    assert_run_from(&rt, &mut slow_source(10), &Ok(()), SMALL);
    assert_run_from(&rt, &mut FromReader::new(INPUT), &Ok(()), SMALL);
}

// A writer that takes three bytes at a call. The call `fails_at` is an error or takes nothing.
#[derive(Drop)]
struct SlowWriter {
    bytes: Vec<u8>,
    fails_at: u64,
    takes_nothing: bool,
}

impl Write for SlowWriter {
    fn write(&mut self, buffer: &[u8]) -> io::Result<usize> {
        self.fails_at = self.fails_at.saturating_sub(1);
        if self.fails_at == 0 {
            if self.takes_nothing {
                return Ok(0);
            }
            return Err(io::Error::from(io::ErrorKind::Other));
        }
        let count = buffer.len().min(3);
        self.bytes.extend_from_slice(&buffer[..count])?;
        Ok(count)
    }

    fn flush(&mut self) -> io::Result<()> {
        Ok(())
    }
}

fn slow_writer(alloc: Global, fails_at: u64, takes_nothing: bool) -> SlowWriter {
    SlowWriter {
        bytes: Vec::new(alloc),
        fails_at,
        takes_nothing,
    }
}

// 50 bytes in threes are 17 calls.
#[test]
fn a_sink_keeps_that_its_writer_failed(rt: HostRuntime) {
    for takes_nothing in [false, true] {
        for calls in 0..17usize {
            let mut writer = slow_writer(rt.alloc(), calls as u64 + 1, takes_nothing);
            assert_unwritten(&rt, &mut ToWriter::new(&mut writer));
            let beginning = SMALL.as_bytes().get(..3 * calls);
            assert!(rt; Some(writer.bytes.as_slice()) == beginning);
        }
    }
}

// A slow writer, and one of std.
#[test]
fn writers_take_everything(rt: HostRuntime) {
    let mut writer = slow_writer(rt.alloc(), 18, false);
    assert_run_into(&rt, &mut ToWriter::new(&mut writer), &Ok(()));
    assert_bytes(&rt, writer.bytes.as_slice(), SMALL);
    let mut bytes = Vec::new(rt.alloc());
    assert_run_into(&rt, &mut ToWriter::new(&mut bytes), &Ok(()));
    assert_bytes(&rt, bytes.as_slice(), SMALL);
}
