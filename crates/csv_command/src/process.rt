//! Runs the program with the arguments, the streams, the environment and the files of its process.
//! The modules `arguments` and `ending` get all facts as values, and return values.

use crate::arguments::{Invocation, OutputContext, parse};
use crate::ending::{
    Ending, Outcome, ending_of_outcome, ending_of_refusal, ending_without_arguments, waiting_notice,
};
use crate::error::CsvError;
use crate::transfer::draw;
use csv_records::LongRecords;
use devices::{FromReader, ToWriter, Uninterrupted, arguments_of_process, write_all};
use std::alloc::AllocError;
use std::env::VarError;
use std::fs::File;
use std::io::{IsTerminal, Read, Write};
use std::process::ExitCode;
use std::{env, io};

/// Runs the program over the standard streams, with the arguments of the process, and returns the
/// exit status. The status is 0 if the drawing, help or the version was written. After an error the
/// status is 1, with a line on standard error. If the arguments are refused, the status is 2, with
/// a reason on standard error. If standard output is a pipe that has no reader any more, the status
/// is 1, without a line.
///
/// ```
/// fn main(rt: HostRuntime) -> ExitCode {
///     run_with_arguments(&rt)
/// }
/// ```
pub fn run_with_arguments(rt: &HostRuntime) -> ExitCode {
    let ending = match arguments_of_process(rt) {
        Ok(arguments) => run_with(rt, arguments.as_slice()),
        Err(error) => ending_without_arguments(error.kind()),
    };
    end(rt, &ending)
}

// A writer that remembers if anything was written: `is_blank` is true before the first call of
// `write`.
#[derive(Drop)]
struct Noting<W> {
    writer: W,
    is_blank: bool,
}

impl<W: Write> Write for Noting<W> {
    ghost contents = { λ s. W.contents s.writer };

    fn write(&mut self, buf: &[u8]) -> io::Result<usize> {
        self.is_blank = false;
        self.writer.write(buf)
    }

    fn flush(&mut self) -> io::Result<()> {
        self.writer.flush()
    }
}

// A sink that continues a write that a signal interrupts.
type WriterTo<W> = ToWriter<Uninterrupted<W>>;

fn writer_of<W: Write>(writer: W) -> WriterTo<W> {
    ToWriter::new(Uninterrupted::new(writer))
}

// Writes the message and returns the status. Help goes to standard output; if it can't be written,
// the status is 1. A failure to write to standard error changes nothing.
fn end(rt: &HostRuntime, ending: &Ending) -> ExitCode {
    let text = ending.message.text().as_bytes();
    if ending.is_message {
        let _ = write_all(&mut writer_of(rt.stderr()), text);
        return ExitCode::from(ending.status);
    }
    match write_all(&mut writer_of(rt.stdout()), text) {
        Ok(()) => ExitCode::from(ending.status),
        Err(_) => ExitCode::FAILURE,
    }
}

fn run_with(rt: &HostRuntime, arguments: &[String]) -> Ending {
    match invocation(rt, arguments) {
        Ok(invocation) => run(rt, &invocation),
        Err(error) => ending_of_refusal(rt.alloc(), &error),
    }
}

// The options of the process, by its arguments and its environment.
fn invocation(rt: &HostRuntime, arguments: &[String]) -> Result<Invocation, clap::Error> {
    let texts: Vec<&str> = arguments
        .iter()
        .map(|word| word.as_str())
        .collect(rt.alloc())?;
    let columns = variable(rt, "COLUMNS")?;
    let no_color = variable(rt, "NO_COLOR")?;
    let context = OutputContext {
        is_terminal: rt.stdout().is_terminal(),
        columns: columns.as_ref().map(|text| text.as_str()),
        no_color: no_color.as_ref().map(|text| text.as_str()),
    };
    parse(rt.alloc(), texts.as_slice(), context)
}

// A variable of the environment, if it is set and is UTF-8.
fn variable(rt: &HostRuntime, name: &str) -> Result<Option<String>, AllocError> {
    match env::var(rt, name) {
        Ok(value) => Ok(Some(value)),
        Err(VarError::OutOfMemory) => Err(AllocError),
        Err(_) => Ok(None),
    }
}

// Draws the file, or standard input.
fn run(rt: &HostRuntime, invocation: &Invocation) -> Ending {
    let message = waiting_notice(&invocation.file, rt.stdin().is_terminal());
    let _ = write_all(&mut writer_of(rt.stderr()), message.as_bytes());
    let mut output = Noting {
        writer: rt.stdout(),
        is_blank: true,
    };
    let mut sink = writer_of(&mut output);
    let (result, fault) = drawn(rt, &mut sink, invocation);
    let output_fault = sink.fault();
    drop(sink);
    let is_blank = output.is_blank && rt.stdout().is_terminal();
    ending_of_outcome(
        rt.alloc(),
        &Outcome {
            invocation,
            result,
            fault,
            output_fault,
            is_blank,
        },
    )
}

// The result of a drawing, and the error on opening or reading the input, if there was one.
type DrawingResult = (Result<Option<LongRecords>, CsvError>, Option<io::ErrorKind>);

fn drawn<W: Write>(
    rt: &HostRuntime,
    sink: &mut WriterTo<W>,
    invocation: &Invocation,
) -> DrawingResult {
    let Some(path) = &invocation.file else {
        return drawn_from(rt, rt.stdin(), sink, invocation);
    };
    match File::open(rt, path.as_str()) {
        Ok(file) => drawn_from(rt, file, sink, invocation),
        Err(error) => (Err(CsvError::Read), Some(error.kind())),
    }
}

fn drawn_from<R: Read + Drop, W: Write>(
    rt: &HostRuntime,
    reader: R,
    sink: &mut WriterTo<W>,
    invocation: &Invocation,
) -> DrawingResult {
    let mut source = FromReader::new(Uninterrupted::new(reader));
    let result = draw(rt.alloc(), &mut source, sink, &invocation.options);
    (result, source.fault())
}
