//! A run of csvtable: arguments, an input, and facts about the process.

use case_files::{Build, Fault, Result, first_or_empty, push_lines, text};
use csv_command::{CsvError, Invocation, Options, OutputContext, draw, parse};
use devices::{MemorySink, MemorySource};
use std::alloc::{AllocError, Global};

// The greatest number of bytes of an output.
const ROOM: usize = 65536;

/// A run of csvtable that the lines of a case describe.
#[derive(Drop)]
pub struct Run {
    alloc: Global,
    arguments: Vec<String>,
    input: Vec<u8>,
    is_terminal: bool,
    columns: Option<String>,
    no_color: Option<String>,
}

impl Build for Run {
    fn new(alloc: Global) -> Run {
        Run {
            alloc,
            arguments: Vec::new(alloc),
            input: Vec::new(alloc),
            is_terminal: false,
            columns: None,
            no_color: None,
        }
    }

    fn apply(&mut self, first: &str, words: &[&str]) -> Result<()> {
        match first {
            "arguments" => return self.add_arguments(words),
            "input" => return self.add_line(first_or_empty(words)),
            "byte" => return self.add_byte(first_or_empty(words)),
            "terminal" => self.is_terminal = true,
            "COLUMNS" => self.columns = Some(text(self.alloc, first_or_empty(words))?),
            "NO_COLOR" => self.no_color = Some(text(self.alloc, first_or_empty(words))?),
            _ => return Err(Fault::NotRead("the word isn't known")),
        }
        Ok(())
    }

    fn draw(&mut self, kind: &str, lines: &mut Vec<String>) -> Result<()> {
        if kind != "output" {
            return Err(Fault::NotRead("the kind isn't known"));
        }
        let output = self.output()?;
        match output.strip_suffix('\n') {
            Some(ended) => push_lines(self.alloc, lines, ended),
            None if output.is_empty() => Ok(()),
            None => Err(Fault::NotRead("the output doesn't end with a line feed")),
        }
    }
}

impl Run {
    fn add_arguments(&mut self, words: &[&str]) -> Result<()> {
        for word in words {
            self.arguments.push(text(self.alloc, word)?)?;
        }
        Ok(())
    }

    fn add_line(&mut self, word: &str) -> Result<()> {
        let mut line = text(self.alloc, word)?;
        line.push('\n')?;
        Ok(self.input.extend_from_slice(line.as_bytes())?)
    }

    fn add_byte(&mut self, word: &str) -> Result<()> {
        match word.parse::<u8>() {
            Ok(byte) => Ok(self.input.push(byte)?),
            Err(_) => Err(Fault::NotRead("a byte is wanted")),
        }
    }

    // The output for the input, or the message if there is no output.
    fn output(&self) -> std::result::Result<String, AllocError> {
        let arguments = self.all_arguments()?;
        let context = OutputContext {
            is_terminal: self.is_terminal,
            columns: self.columns.as_ref().map(|text| text.as_str()),
            no_color: self.no_color.as_ref().map(|text| text.as_str()),
        };
        match parse(self.alloc, arguments.as_slice(), context) {
            Ok(invocation) => self.output_as(&invocation),
            Err(error) => format!(in self.alloc; "{error}"),
        }
    }

    // The arguments, with the program's name before them.
    fn all_arguments(&self) -> std::result::Result<Vec<&str>, AllocError> {
        let mut arguments = Vec::new(self.alloc);
        arguments.push("csvtable")?;
        for argument in &self.arguments {
            arguments.push(argument.as_str())?;
        }
        Ok(arguments)
    }

    fn output_as(&self, invocation: &Invocation) -> std::result::Result<String, AllocError> {
        match output_for(self.alloc, self.input.as_slice(), ROOM, &invocation.options) {
            Ok(sink) => self.written(sink.bytes()),
            Err(error) => format!(in self.alloc; "{error}\n"),
        }
    }

    fn written(&self, bytes: &[u8]) -> std::result::Result<String, AllocError> {
        match std::str::from_utf8(bytes) {
            Ok(text) => String::from_str(self.alloc, text),
            Err(_) => String::from_str(self.alloc, "the output isn't UTF-8\n"),
        }
    }
}

// Returns a sink that holds the output for an input, both in memory.
fn output_for(
    alloc: Global,
    input: &[u8],
    room: usize,
    options: &Options,
) -> std::result::Result<MemorySink, CsvError> {
    let mut source = MemorySource::new(input, 0);
    let mut sink = MemorySink::new(alloc, room, 0)?;
    draw(alloc, &mut source, &mut sink, options)?;
    Ok(sink)
}
