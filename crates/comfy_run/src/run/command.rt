//! The program `ctable`: its function for given arguments and streams, and its messages.

ghost use Rattle.std.specs.Prelude.{◌≡◌, None, Some, Result, false, true};
ghost use Rattle.comfy_run.specs.Arguments.{settings_for};
ghost use Rattle.comfy_run.specs.Program.{usage_line, error_line, status_of, report_of, Reports};
ghost use Rattle.comfy_run.specs.Run.{IsAfter, is_read_fault, is_write_fault};
ghost use Rattle.devices.specs.Outcome.{Between};
ghost use Rattle.comfy_run.specs.declared.settings.Settings.{Settings};

use crate::arguments::settings_of;
use crate::error::RunError;
use crate::run::transfer::run;
use comfy_table::TableError;
use devices::{Sink, Source, write_all};
use std::alloc::Global;

const USAGE: &str = "usage: ctable [WIDTH|- [disabled|dynamic|full [STYLE]]]\n";

// The statuses of a program that doesn't succeed: after an error, and for unknown arguments.
const FAILED: u8 = 1;

const MISUSED: u8 = 2;

/// Runs the program `ctable`: reads `source`, draws its tab-separated text as a table with the
/// settings that the arguments mean, and writes the drawing to `sink`. Returns the exit status of
/// the program. `args` are the arguments after the program's name.
///
/// The arguments are `[WIDTH|- [disabled|dynamic|full [STYLE]]]`. The first argument is the width
/// of the table in terminal columns, or a hyphen for no width. The others are the arrangement of
/// the columns and the name of a preset.
///
/// The status is 0 if the whole input was read, its drawing was written, and neither source nor
/// sink failed. Then nothing is written to `messages`. The status is 1 after an error. It is 2 if
/// an argument is unknown or there are more than three: then nothing is read from the source. With
/// status 1 or 2, a line with the reason is written to `messages`. A failure of `messages` doesn't
/// change the status.
pub fn program<R: Source, W: Sink, F: Sink>(
    alloc: Global,
    args: &[&str],
    source: &mut R,
    sink: &mut W,
    messages: &mut F,
) -> u8
    ensures misused { settings_for args.now ≡ None
        → (result ≡ 2) × (source.new ≡ source.old) × (sink.new ≡ sink.old)
        × Reports usage_line (F.taken messages.old) (F.taken messages.new)
        (F.has_failed messages.new) }
    ensures ran { (settings : Settings) → settings_for args.now ≡ Some settings
        → (answer : Result (Unit {0}) RunError) × (result ≡ status_of answer)
        × Reports (report_of answer) (F.taken messages.old) (F.taken messages.new)
        (F.has_failed messages.new)
        × (R.has_failed source.new ≡ is_read_fault answer)
        × (W.has_failed sink.old ≡ false → W.has_failed sink.new ≡ is_write_fault answer)
        × Between R.Source W.Sink (source.old, sink.old) (source.new, sink.new)
        (IsAfter settings answer) }
    ensures done { result ≡ 0
        → (R.end_was_read source.new ≡ true) × (R.has_failed source.new ≡ false)
        × (W.has_failed sink.old ≡ false → W.has_failed sink.new ≡ false) }
    ensures silent { result ≡ 0 → messages.new ≡ messages.old }
{
    let Some(settings) = settings_of(args) else {
        report(messages, USAGE);
        return MISUSED;
    };
    match run(alloc, source, sink, settings) {
        Ok(()) => 0,
        Err(error) => {
            report(messages, line_for(error));
            FAILED
        }
    }
}

// The message for an error, as a line with its line feed.
fn line_for(error: RunError) -> &'static str
    ensures { result.now ≡ error_line error }
{
    match error {
        RunError::Read => "ctable: the input can't be read\n",
        RunError::Write => "ctable: the output can't be written\n",
        RunError::NotUtf8 => "ctable: the input isn't UTF-8\n",
        RunError::Table(TableError::OutOfMemory) => "ctable: out of memory\n",
    }
}

// Writes a line to `messages`. A failure is ignored, because it can't be reported anywhere.
fn report<F: Sink>(messages: &mut F, line: &str)
    ensures { Reports line.now (F.taken messages.old) (F.taken messages.new)
        (F.has_failed messages.new) }
{
    let _ = write_all(messages, line.as_bytes());
}
