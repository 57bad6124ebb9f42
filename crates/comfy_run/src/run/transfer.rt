//! Reads a whole input, draws its table, and writes the drawing.

ghost use Rattle.std.specs.Prelude.{◌≡◌, ⊤, true, false, OnOk, IfOk, string_bytes};
ghost use Rattle.comfy_run.specs.Input.{RendersInput};
ghost use Rattle.comfy_run.specs.Run.{IsAfter, IsDrawnIn, IsRefusalIn, is_read_fault, is_write_fault};
ghost use Rattle.devices.specs.Outcome.{Between};

use crate::error::RunError;
use crate::run::input::table_of;
use crate::settings::Settings;
use devices::{Render, Rendered, Sink, Source};
use std::alloc::Global;

/// Reads the whole `source`, draws its tab-separated text as a table with `settings`, and writes
/// the drawing to `sink`. Each line is followed by a line feed.
///
/// All memory is taken before the first write. A *device* is a source or a sink. The clause on
/// bytes, `known`, holds for devices whose bytes are known, such as those in memory. The clauses on
/// failures and on the end of the source hold for all devices, even for the standard streams.
///
/// # Errors
///
/// - `Read`: a call of the source failed. Nothing was written.
/// - `Write`: a call of the sink failed. A beginning of the drawing was written, perhaps no byte,
///   but not all of the drawing.
/// - `NotUtf8`: the input isn't UTF-8. No device failed, and nothing was written.
/// - `Table`: memory ran out. No device failed, and nothing was written.
///
/// After `Ok` no device failed, and the end of the source was read.
///
/// ```
/// let mut source = FromReader::new(rt.stdin());
/// let mut sink = ToWriter::new(rt.stdout());
/// run(rt.alloc(), &mut source, &mut sink, settings)?;
/// ```
pub fn run<R: Source, W: Sink>(
    alloc: Global,
    source: &mut R,
    sink: &mut W,
    settings: Settings,
) -> Result<(), RunError>
    ensures ended { OnOk result (R.end_was_read source.new ≡ true) }
    ensures source { R.has_failed source.new ≡ is_read_fault result }
    ensures sink { W.has_failed sink.old ≡ false → W.has_failed sink.new ≡ is_write_fault result }
    ensures known { Between R.Source W.Sink (source.old, sink.old) (source.new, sink.new)
        (IsAfter settings result) }
{
    Ok(devices::run(alloc, source, sink, &settings)?)
}

impl Render for Settings {
    type Error = RunError;
    // The whole drawing is in memory before the first write.
    type Output = Option<String>;
    // Nothing is reported besides the drawing.
    type Findings = ();

    ghost is_not_enough = { λ _ _. ⊤ };

    ghost is_output = { IsDrawnIn };

    ghost are_findings = { λ _ _ _ _. ⊤ };

    ghost is_refusal = { λ _. IsRefusalIn };

    fn render(
        &self,
        alloc: Global,
        input: Vec<u8>,
    ) -> Result<Rendered<Option<String>, ()>, RunError> {
        let Ok(text) = simdutf8::compat::from_utf8(input.as_slice()) else {
            return Err(RunError::NotUtf8);
        };
        let text = render_tsv(alloc, text, *self)?;
        Ok(Rendered {
            pieces: Some(text),
            findings: (),
        })
    }

    // Each line is a row, so the whole input has to be read.
    fn render_beginning(
        &self,
        _alloc: Global,
        _read: &[u8],
    ) -> Option<Result<Rendered<Option<String>, ()>, RunError>> {
        None
    }
}

/// The drawing of the table of `text` with `settings`, each line followed by a line feed. `run`
/// writes the same drawing for the bytes of this text. The first line of the text is the header,
/// the other lines are rows, and TABs separate cells. U+000B inside a cell means a line feed. The
/// only error is `OutOfMemory`.
///
/// ```
/// let drawing = render_tsv(rt.alloc(), "name\tdays\noats\t3\n", settings)?;
/// ```
pub fn render_tsv(alloc: Global, text: &str, settings: Settings) -> comfy_table::Result<String>
    ensures { IfOk result (λ output.
        RendersInput settings.width settings.arrangement settings.style text.now
        (string_bytes output)) }
{
    table_of(alloc, text, settings)?.to_terminated_text()
}
