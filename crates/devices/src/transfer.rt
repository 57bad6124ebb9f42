//! Writes a whole piece to a sink, or reads a source and writes the output for it to a sink.

ghost use Rattle.std.specs.Prelude.{◌≡◌, ◌<◌, ◌++◌, ◌⊎◌, List, ℕ, [], true, false, Err, Ok, Some, OnOk, OnErr, IfNone, IfOk, IfErr, IfSome, vec_len};
ghost use Rattle.devices.specs.Outcome.{Between, Extent, IsBeginningOnly};
ghost use Rattle.devices.specs.Run.{IsAfter, AreFindings, IsRefusalOfSome, IsSomeEnough, is_read_fault, is_write_fault, stop_of};
ghost use Rattle.devices.specs.Transfer.{IsAnswer, IsAnswered, IsRenderedBy, Moves, is_source_fault};
ghost use Rattle.devices.specs.declared.transfer.ReadError.TheVariants.{OutOfMemory};

use crate::device::{DeviceFault, Sink, Source};
use comfy_parts::pieces::Pieces;
use std::alloc::{AllocError, Global};

// The most bytes that are read in one call. To clear a larger block takes longer than to draw a
// small input.
const BLOCK: usize = 4096;

// The number of bytes that are read before `render_beginning` first tests if they are enough.
const FIRST: usize = 65536;

/// The reason why a source wasn't read to its end.
#[derive(Clone, Copy, Debug, PartialEq, Eq)]
pub enum ReadError {
    /// A call of the source failed.
    Source,
    /// Memory ran out for the bytes of the source.
    OutOfMemory,
}

impl From<AllocError> for ReadError {
    ghost from_gives = { λ _ e. e ≡ OutOfMemory };

    fn from(_error: AllocError) -> ReadError {
        ReadError::OutOfMemory
    }
}

/// The error of `run`: the reason why it stopped before a whole output was written.
#[derive(Debug, Drop)]
pub enum Stop<E> {
    /// A call of the source failed. Nothing was written.
    Read,
    /// A call of the sink failed, so only a beginning of the output was written, perhaps no byte.
    Write,
    /// Memory ran out for the input. Nothing was written.
    OutOfMemory,
    /// Memory ran out for a piece of the output, so only a beginning of the output was written,
    /// perhaps no byte.
    Unfinished,
    /// The input has no output, for the reason in this variant. The input was read as a whole, or
    /// its beginning was enough to refuse it. Nothing was written.
    Refused(E),
}

impl<E> From<ReadError> for Stop<E> {
    ghost from_gives = { λ x e. e ≡ stop_of x };

    fn from(error: ReadError) -> Stop<E> {
        match error {
            ReadError::Source => Stop::Read,
            ReadError::OutOfMemory => Stop::OutOfMemory,
        }
    }
}

/// An output for an input, and the findings: facts about the input that aren't a part of the
/// output, such as records with too many fields.
#[derive(Drop)]
pub struct Rendered<P, N> {
    /// The output: the text that is to be written to the sink, in pieces.
    pub pieces: P,
    /// The facts that were found about the input, besides the output.
    pub findings: N,
}

/// A way to make the output for an input. The output is a drawing, or any other text.
pub trait Render {
    /// The reason why an input has no output.
    type Error: Drop;
    /// The output: the text that is to be written to the sink, in pieces.
    type Output: Pieces + Drop;
    /// Facts about an input that are returned besides its output, such as records with too many
    /// fields. The type is `()` if there are none.
    type Findings: Drop;

    // true if the beginning of an input isn't enough for an output, so that more has to be read
    ghost is_not_enough: { Self → List ℕ → Type 0 };

    // true if these bytes are an output for a whole input, or for a beginning that is enough
    ghost is_output: { Self → Extent → List ℕ → List ℕ → Type 0 };

    // true if these are the findings about a whole input, or about a beginning that is enough
    ghost are_findings: { Self → Extent → List ℕ → Self.Findings → Type 0 };

    // true if this is the reason why a whole input, or a beginning that is enough, has no output
    ghost is_refusal: { Self → Extent → List ℕ → Self.Error → Type 0 };

    /// Makes the output for `input`, which was read as a whole. An error is the reason why the
    /// input has no output.
    fn render(
        &self,
        alloc: Global,
        input: Vec<u8>,
    ) -> Result<Rendered<Self::Output, Self::Findings>, Self::Error>
        ensures { IsAnswer
            (IsRenderedBy Self.Output.rest (is_output self.now) (are_findings self.now))
            (is_refusal self.now) Extent.Whole input.items result };

    /// Makes the output for an input from its beginning `read`, after which more bytes may follow.
    /// The result is `None` if `read` isn't enough, and more bytes have to be read. An error is the
    /// reason why the input has no output.
    fn render_beginning(
        &self,
        alloc: Global,
        read: &[u8],
    ) -> Option<Result<Rendered<Self::Output, Self::Findings>, Self::Error>>
        ensures some { IfSome result
            (IsAnswer (IsRenderedBy Self.Output.rest (is_output self.now) (are_findings self.now))
            (is_refusal self.now) Extent.Beginning read.now) }
        ensures none { IfNone result (is_not_enough self.now read.now) };
}

// Appends bytes of the source until `bytes` has `len` bytes, or until the end of the source was
// read. Returns true if the end was read.
fn read_up_to<R: Source>(source: &mut R, bytes: &mut Vec<u8>, len: usize) -> Result<bool, ReadError>
    requires { vec_len bytes.old < len }
    ensures fault { R.has_failed source.new ≡ is_source_fault result }
    ensures moved { OnOk result
        (Moves (R.remaining source.old) (R.remaining source.new) bytes.old.items bytes.new.items) }
    ensures ended { result ≡ Ok true → R.end_was_read source.new ≡ true }
    ensures fewer { result ≡ Ok true → vec_len bytes.new < len }
    ensures all { result ≡ Ok false → vec_len bytes.new ≡ len }
    ensures unread { OnErr result (R.end_was_read source.new ≡ R.end_was_read source.old) }
    ensures not_ended { result ≡ Ok false
        → R.end_was_read source.new ≡ R.end_was_read source.old }
{
    let mut block = [0u8; BLOCK];
    loop {
        let room = BLOCK.min(len - bytes.len());
        let Ok(count) = source.read(&mut block[..room]) else {
            return Err(ReadError::Source);
        };
        if count == 0 {
            return Ok(true);
        }
        bytes.extend_from_slice(&block[..count])?;
        if bytes.len() == len {
            return Ok(false);
        }
    }
}

/// Writes the whole `piece` to `sink`. The only error is that the sink fails. After the error a
/// beginning of `piece` was written, perhaps no byte, but not all of `piece`.
pub fn write_all<W: Sink>(sink: &mut W, piece: &[u8]) -> Result<(), DeviceFault>
    ensures written { OnOk result ((had : List ℕ) → W.taken sink.old ≡ Some had
        → W.taken sink.new ≡ Some (had ++ piece.now)) }
    ensures no_fault { OnOk result (W.has_failed sink.old ≡ false → W.has_failed sink.new ≡ false) }
    ensures fault { OnErr result (W.has_failed sink.new ≡ true) }
    ensures beginning { OnErr result
        ((had : List ℕ) → W.taken sink.old ≡ Some had
        → (part : List ℕ) × (W.taken sink.new ≡ Some (had ++ part))
        × IsBeginningOnly part piece.now) }
{
    let mut rest = piece;
    while !rest.is_empty() {
        let count = sink.write(rest)?;
        let (_written, others) = rest.split_at(count);
        rest = others;
    }
    Ok(())
}

/// Reads `source`, and writes to `sink` the output that `drawing` makes for the bytes that were
/// read. Returns the findings about these bytes, as `drawing` made them.
///
/// The source is read to its end, or until `render_beginning` makes an output or refuses the input.
/// The beginning is tested after 65536 bytes, after twice as many bytes, and so on. So the result
/// doesn't depend on how many bytes each call of the source returns. Each piece of the output is
/// written before the next piece is made.
///
/// # Errors
///
/// The source has failed exactly if the error is `Read`. If the sink hadn't failed before the call,
/// it has failed exactly if the error is `Write`.
///
/// After `Write` and `Unfinished` a beginning of the output was written, perhaps no byte, but not
/// all of the output. After every other error nothing was written. `Unfinished` is never returned
/// if whole outputs are in memory, as they are in an `Option<String>`.
pub fn run<R: Source, W: Sink, D: Render>(
    alloc: Global,
    source: &mut R,
    sink: &mut W,
    drawing: &D,
) -> Result<D::Findings, Stop<D::Error>>
    ensures ended { OnOk result ((R.end_was_read source.new ≡ true)
        ⊎ IsSomeEnough (D.is_output drawing.now)) }
    ensures source { R.has_failed source.new ≡ is_read_fault result }
    ensures sink { W.has_failed sink.old ≡ false → W.has_failed sink.new ≡ is_write_fault result }
    ensures unfinished { result ≡ Err Stop.Unfinished → D.Output.is_whole ≡ false }
    ensures refused { IfErr result (IsRefusalOfSome (D.is_refusal drawing.now)) }
    ensures known { Between R.Source W.Sink (source.old, sink.old) (source.new, sink.new)
        (IsAfter (D.is_not_enough drawing.now) (D.is_output drawing.now)
        (D.is_refusal drawing.now) result) }
    ensures findings { Between R.Source W.Sink (source.old, sink.old) (source.new, sink.new)
        (AreFindings (D.is_not_enough drawing.now) (D.are_findings drawing.now) result) }
{
    let Rendered {
        mut pieces,
        findings,
    } = match read_answer(alloc, source, drawing)? {
        Ok(rendered) => rendered,
        Err(error) => return Err(Stop::Refused(error)),
    };
    loop {
        let Ok(next) = pieces.next_piece() else {
            return Err(Stop::Unfinished);
        };
        let Some(piece) = next else {
            return Ok(findings);
        };
        let Ok(()) = write_all(sink, piece.as_bytes()) else {
            return Err(Stop::Write);
        };
    }
}

// The result of `render` for all bytes that are left in the source, or of `render_beginning` for a
// beginning that is enough.
fn read_answer<R: Source, D: Render>(
    alloc: Global,
    source: &mut R,
    drawing: &D,
) -> Result<Result<Rendered<D::Output, D::Findings>, D::Error>, ReadError>
    ensures fault { R.has_failed source.new ≡ is_source_fault result }
    ensures answer { IfOk result
        (IsAnswered (D.is_not_enough drawing.now)
        (IsRenderedBy D.Output.rest (D.is_output drawing.now) (D.are_findings drawing.now))
        (D.is_refusal drawing.now) (R.remaining source.old) (R.end_was_read source.new)) }
    ensures unread { OnErr result (R.end_was_read source.new ≡ R.end_was_read source.old) }
{
    let mut input = Vec::new(alloc);
    let mut len = FIRST;
    while !read_up_to(source, &mut input, len)? {
        if let Some(answer) = drawing.render_beginning(alloc, input.as_slice()) {
            return Ok(answer);
        }
        len *= 2;
    }
    Ok(drawing.render(alloc, input))
}
