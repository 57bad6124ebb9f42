//! Splits bytes and texts into lines. A line ends at a line feed, a carriage return, or a carriage
//! return with a line feed after it.

ghost use Rattle.std.specs.Prelude.{◌≡◌};
ghost use Rattle.csv_records.specs.Lines.{EndsIn, below_line, below_lines, end_len, first_line, line_len};

/// The bytes after the first `count` lines, or no bytes if there are no more lines. A line ends at
/// a line feed, a carriage return, or a carriage return with a line feed, also between quotes.
pub(crate) fn below_lines(bytes: &[u8], count: usize) -> &[u8]
    ensures below { result.now ≡ below_lines count bytes.now }
    ensures end { EndsIn bytes.now result.now }
{
    let mut rest = bytes;
    for _ in 0..count {
        if rest.is_empty() {
            break;
        }
        rest = below_line(rest);
    }
    rest
}

// The bytes after the first line and its end.
fn below_line(bytes: &[u8]) -> &[u8]
    ensures { result.now ≡ below_line bytes.now }
{
    let rest = bytes.split_at(line_len(bytes)).1;
    rest.split_at(end_len(rest)).1
}

/// The first line of a text without its line end, and the text after this line end.
pub(crate) fn split_line(text: &str) -> (&str, &str)
    ensures line { result.0.now ≡ first_line text.now }
    ensures below { result.1.now ≡ below_line text.now }
{
    let (line, rest) = text.split_at(line_len(text.as_bytes()));
    (line, rest.split_at(end_len(rest.as_bytes())).1)
}

// The number of bytes before the first line end, or of all bytes if there is none.
fn line_len(bytes: &[u8]) -> usize
    ensures { result ≡ line_len bytes.now }
{
    bytes
        .iter()
        .take_while(|byte| **byte != b'\n' && **byte != b'\r')
        .count()
}

// The number of bytes of the line end that `bytes` begin with, or 0 if they begin with none.
fn end_len(bytes: &[u8]) -> usize
    ensures { result ≡ end_len bytes.now }
{
    match bytes {
        [b'\r', b'\n', ..] => 2,
        [b'\r' | b'\n', ..] => 1,
        _ => 0,
    }
}
