//! Devices, which are sources and sinks of bytes: over readers, over writers, and in memory.
//! `write_all` writes a whole piece to a sink. `run` reads a source, and writes the output for its
//! bytes to a sink. The arguments of a process are here too.
#![tactic(auto)]

mod device;
mod memory;
mod process;
mod stream;
mod transfer;
mod uninterrupted;

pub use device::{DeviceFault, Sink, Source};
pub use memory::{MemorySink, MemorySource};
pub use process::arguments_of_process;
pub use stream::{FromReader, ToWriter};
pub use transfer::{Render, Rendered, Stop, run, write_all};
pub use uninterrupted::Uninterrupted;
