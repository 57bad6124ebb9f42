//! Reads a table from a source, and writes its drawing to a sink.

mod command;
mod input;
mod process;
mod transfer;

pub use crate::error::RunError;
pub use crate::settings::Settings;
pub use command::program;
pub use devices::{
    DeviceFault, FromReader, MemorySink, MemorySource, Sink, Source, ToWriter,
    arguments_of_process, write_all,
};
pub use process::run_with_arguments;
pub use transfer::{render_tsv, run};
