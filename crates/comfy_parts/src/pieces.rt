//! Texts that come in pieces, so that the whole text needn't be in memory.

ghost use Rattle.std.specs.Prelude.{◌≡◌, ◌<◌, [], List, ℕ, Bool, true, false, IfOk, OnErr, length, string_bytes};
ghost use Rattle.comfy_parts.specs.TextPieces.{IsNextPiece, text_left};

use std::alloc::{AllocError, Global};

/// A text that is returned piece by piece. The pieces, joined in order, are the text.
pub trait Pieces {
    // the bytes of all pieces that are still to come, joined
    ghost rest: { Self → List ℕ };

    // true if the whole rest is in memory, so that `next_piece` takes no memory and can't fail
    ghost is_whole: { Bool };

    /// Returns the next piece, which is never empty, or `None` after the last piece. The only error
    /// is that memory runs out. It comes only if a part of the text is left. After an error that
    /// part is lost: each further call returns `None`.
    fn next_piece(&mut self) -> Result<Option<String>, AllocError>
        ensures next { IfOk result (IsNextPiece (rest self.old) (rest self.new)) }
        ensures refused { OnErr result (is_whole ≡ false) }
        ensures before_the_end { OnErr result (0 < length (rest self.old)) }
        ensures after { OnErr result (rest self.new ≡ []) };
}

// A text that is in memory as a whole: one piece, or no piece if it is empty.
impl Pieces for Option<String> {
    ghost rest = { text_left };

    ghost is_whole = { true };

    fn next_piece(&mut self) -> Result<Option<String>, AllocError> {
        Ok(self.take().filter(|text| !text.is_empty()))
    }
}

/// Joins all pieces that are still to come. The only error is that memory runs out.
pub fn joined<P: Pieces + Drop>(alloc: Global, mut pieces: P) -> Result<String, AllocError>
    ensures { IfOk result (λ text. string_bytes text ≡ P.rest pieces) }
{
    let mut text = String::new(alloc);
    while let Some(piece) = pieces.next_piece()? {
        text.push_str(piece.as_str())?;
    }
    Ok(text)
}
