//! Draws tables of CSV by the arguments of `csvtable`.

ghost use Rattle.std.specs.Prelude.{◌≡◌, ◌≢◌, ◌≤◌, ◌<◌, IfErr, IfOk, IsUtf8, List, ℕ, drop, length, string_bytes, take};
ghost use Rattle.comfy_c.specs.Calls.{IsReturned, IsCsvDrawing, IsCsvRefusal, IsInputMessage, IsArgumentsMessage};

use crate::arguments::command_line;
use crate::buffer::{DRAWN, INPUT_REFUSED, OUT_OF_MEMORY, ROOM_TOO_SMALL, SETTINGS_REFUSED, put};
use csv_command::{ARGUMENT_NOT_UTF8, Refusal, render_csv};
use std::alloc::Global;

/// Draws the table of CSV into the caller's buffer. The drawing is the output of `csvtable` for
/// these arguments, the option `--count`, and an input with these bytes. Standard output counts as
/// no terminal, and the environment variables `COLUMNS` and `NO_COLOR` as not set.
///
/// A zero byte ends each argument. The zero byte of the last argument may be missing. No file is
/// opened: the name of a file among the arguments only appears in messages. TABs separate the
/// fields if the name ends with `.tsv` or `.tab`, no argument sets a delimiter, and no first line
/// such as `sep=;` names another delimiter.
///
/// | Returned | Meaning | At the front of the buffer |
/// |---|---|---|
/// | 0 | the input is drawn | the drawing |
/// | 1 | the buffer is too small | nothing |
/// | 2 | the input can't be drawn with these arguments | the message of `csvtable` |
/// | 3 | memory ran out | nothing |
/// | 4 | the arguments are refused, or request help or the version | the text of `csvtable` |
///
/// For example, 2 is returned if an argument names a column that the input doesn't have. With 4 the
/// text is a message on the refused argument, or else the help or the version.
///
/// With 0 and 1, `needed` is set to the length of the drawing in bytes. With 2 and 4 it is set to
/// the length of the message or text in bytes, and with 3 it is unchanged.
///
/// With 1 and 3 the buffer is unchanged. With 2 and 4 it is unchanged if it is too small for the
/// whole message or text. In all other cases only its first `needed` bytes are changed.
///
/// ```
/// let status = comfy_csv_draw(rt.alloc(), b"a,b\n", b"-w\x0040", &mut output, &mut needed);
/// ```
#[unsafe(no_mangle)]
pub extern "C" fn comfy_csv_draw(
    alloc: Global,
    input: &[u8],
    arguments: &[u8],
    output: &mut [u8],
    needed: &mut usize,
) -> u32
    ensures drawn { result ≡ 0
        → (needed.new ≤ length output.old)
        × IsCsvDrawing arguments.now input.now (take needed.new output.new) }
    ensures room_too_small { result ≡ 1
        → (length output.old < needed.new) × (drawing : List ℕ) × (needed.new ≡ length drawing)
        × IsCsvDrawing arguments.now input.now drawing }
    ensures input_refused { result ≡ 2
        → IsReturned (IsInputMessage arguments.now input.now) output.old output.new needed.new }
    ensures out_of_memory { result ≡ 3 → IsUtf8 arguments.now }
    ensures arguments_refused { result ≡ 4
        → IsReturned (IsArgumentsMessage arguments.now) output.old output.new needed.new }
    ensures no_other { result ≤ 4 }
    ensures rest { drop needed.new output.new ≡ drop needed.new output.old }
    ensures untouched { result ≢ 0 → result ≢ 2 → result ≢ 4 → output.new ≡ output.old }
    ensures needed_kept { result ≡ 3 → needed.new ≡ needed.old }
{
    let Ok(text) = simdutf8::compat::from_utf8(arguments) else {
        put(ARGUMENT_NOT_UTF8.as_bytes(), output, needed);
        return SETTINGS_REFUSED;
    };
    match drawing_for(alloc, text, input) {
        Ok(drawing) => {
            if put(drawing.as_bytes(), output, needed) {
                DRAWN
            } else {
                ROOM_TOO_SMALL
            }
        }
        Err(Refusal::Input(line)) => {
            put(line.as_bytes(), output, needed);
            INPUT_REFUSED
        }
        Err(Refusal::OutOfMemory) => OUT_OF_MEMORY,
        Err(Refusal::Arguments(message)) => {
            put(message.as_bytes(), output, needed);
            SETTINGS_REFUSED
        }
    }
}

// The drawing for the arguments that `text` holds, or the reason why there is none.
fn drawing_for(alloc: Global, text: &str, input: &[u8]) -> Result<String, Refusal>
    ensures drawn { IfOk result (λ drawing.
        IsCsvDrawing text.now input.now (string_bytes drawing)) }
    ensures refused { IfErr result (λ refusal. IsCsvRefusal text.now input.now refusal) }
{
    let arguments = command_line(alloc, text)?;
    render_csv(alloc, arguments.as_slice(), input)
}
