//! Calls of `run`, which draws from a source to a sink, and of `program`.

use crate::outcome::Outcome;
use comfy_run::run::{MemorySink, MemorySource, RunError, Settings, program, run};
use comfy_table::presets::ASCII_FULL;
use comfy_table::{ContentArrangement, Result};
use std::alloc::Global;

const INPUT: &str = "Header1\tHeader2\tHeader3\n\
    This is a text\tThis is another text\tThis is the third text\n\
    This is another text\tNow\u{b}add some\u{b}multi line stuff\tThis is awesome\n";

const SETTINGS: Settings = Settings {
    width: None,
    arrangement: ContentArrangement::Disabled,
    style: ASCII_FULL,
};

// More bytes than the drawing has.
const ROOM: usize = 1024;

const NO_MEMORY: &str = "ctable: out of memory\n";

/// Makes the call with this name, and returns the outcome. If the call was refused memory, it must
/// have written no drawing.
pub fn outcome_of(alloc: Global, name: &str) -> Result<Outcome> {
    let mut sink = MemorySink::new(alloc, ROOM, 0)?;
    let mut messages = MemorySink::new(alloc, ROOM, 0)?;
    match name {
        "run" => Ok(outcome_of_run(alloc, &mut sink)),
        "program" => Ok(outcome_of_program(alloc, &mut sink, &mut messages)),
        _ => Ok(Outcome::Unknown),
    }
}

fn outcome_of_run(alloc: Global, sink: &mut MemorySink) -> Outcome {
    let mut source = MemorySource::new(INPUT.as_bytes(), 0);
    match run(alloc, &mut source, sink, SETTINGS) {
        Ok(()) => Outcome::Succeeded,
        Err(RunError::Table(_)) if sink.bytes().is_empty() => Outcome::AsPromised,
        Err(_) => Outcome::Broken("the error or the output"),
    }
}

fn outcome_of_program(alloc: Global, sink: &mut MemorySink, messages: &mut MemorySink) -> Outcome {
    let mut source = MemorySource::new(INPUT.as_bytes(), 0);
    match program(alloc, &[], &mut source, sink, messages) {
        0 => Outcome::Succeeded,
        1 if sink.bytes().is_empty() && messages.bytes() == NO_MEMORY.as_bytes() => {
            Outcome::AsPromised
        }
        _ => Outcome::Broken("the status, the message or the output"),
    }
}
