//! Copies an output into the caller's buffer.

ghost use Rattle.std.specs.Prelude.{◌≡◌, ◌≢◌, ◌≤◌, ◌<◌, IsErrOf, IsOkAnd, drop, length, nat_le, string_bytes, take};
ghost use Rattle.comfy_c.specs.Calls.{with_front};
ghost use Rattle.comfy_c.specs.declared.refusal.DrawRefusal.TheVariants as refusal;

use crate::refusal::DrawRefusal;

// The numbers that the functions for C return.

pub(crate) const DRAWN: u32 = 0;

pub(crate) const ROOM_TOO_SMALL: u32 = 1;

pub(crate) const INPUT_REFUSED: u32 = 2;

pub(crate) const OUT_OF_MEMORY: u32 = 3;

pub(crate) const SETTINGS_REFUSED: u32 = 4;

pub(crate) const LENGTHS_REFUSED: u32 = 5;

/// Copies `bytes` to the front of the caller's buffer, if it has room for all of them, and sets
/// `needed` to the number of bytes. Returns true if the buffer had room. Otherwise the buffer is
/// unchanged.
pub(crate) fn put(bytes: &[u8], output: &mut [u8], needed: &mut usize) -> bool
    ensures fits { result ≡ nat_le (length bytes.now) (length output.old) }
    ensures needed { needed.new ≡ length bytes.now }
    ensures output { output.new ≡ with_front bytes.now output.old }
{
    *needed = bytes.len();
    if output.len() < bytes.len() {
        return false;
    }
    output[..bytes.len()].copy_from_slice(bytes);
    true
}

/// Copies the drawing in `made` to the front of the caller's buffer, if there is a drawing and the
/// buffer has room for it. Returns 0 if it was copied, 1 if the buffer is too small, and otherwise
/// the number for the refusal. The buffer is changed only if 0 is returned, and `needed` only if 0
/// or 1 is returned.
pub(crate) fn hand_over(
    made: Result<String, DrawRefusal>,
    output: &mut [u8],
    needed: &mut usize,
) -> u32
    ensures drawn { result ≡ 0
        → (needed.new ≤ length output.old)
        × IsOkAnd made (λ drawing. string_bytes drawing ≡ take needed.new output.new) }
    ensures room_too_small { result ≡ 1
        → (length output.old < needed.new)
        × IsOkAnd made (λ drawing. length (string_bytes drawing) ≡ needed.new) }
    ensures input_refused { result ≡ 2 → IsErrOf made refusal.NotUtf8 }
    ensures out_of_memory { result ≡ 3 → IsErrOf made refusal.OutOfMemory }
    ensures settings_refused { result ≡ 4 → IsErrOf made refusal.Settings }
    ensures lengths_refused { result ≡ 5 → IsErrOf made refusal.Lengths }
    ensures no_other { result ≤ 5 }
    ensures rest { drop needed.new output.new ≡ drop needed.new output.old }
    ensures untouched { result ≢ 0 → output.new ≡ output.old }
    ensures needed_kept { result ≢ 0 → result ≢ 1 → needed.new ≡ needed.old }
{
    match made {
        Ok(drawing) => {
            if put(drawing.as_bytes(), output, needed) {
                DRAWN
            } else {
                ROOM_TOO_SMALL
            }
        }
        Err(DrawRefusal::NotUtf8) => INPUT_REFUSED,
        Err(DrawRefusal::OutOfMemory) => OUT_OF_MEMORY,
        Err(DrawRefusal::Settings) => SETTINGS_REFUSED,
        Err(DrawRefusal::Lengths) => LENGTHS_REFUSED,
    }
}
