//! The ends of lines of printable ASCII. Each byte takes one terminal column, so the search for a
//! line's end begins at the line's last column and goes backwards.

ghost use Rattle.std.specs.Prelude.{◌≡◌, ◌<◌, ◌≤◌, ◌+◌, ◌-◌, ◌==◌, ◌∷◌, List, drop, false, length, map, max, nat_lt, take};
ghost use Rattle.std.specs.List.{list_any, slice_index, slice_split};
ghost use Rattle.comfy_parts.specs.Laws.{IsPrintable};
ghost use Rattle.comfy_parts.specs.Text.{Text, begins_with, greatest, measure};
ghost use Rattle.comfy_parts.specs.Wrapping.{line_end, wrapped};

/// The width in terminal columns of the longest line into which a printable ASCII text is wrapped
/// at `width` terminal columns. The width is 0 if there is no line. The lines themselves aren't
/// made.
pub fn printable_longest_line(text: &[u8], width: usize, delimiter: char) -> usize
    requires printable { IsPrintable width delimiter text.now }
    ensures { result ≡ greatest (map measure (wrapped width delimiter text.now)) }
{
    let mut longest = 0;
    let mut rest = text;
    while !rest.is_empty() {
        let (end, columns) = part_at_front(rest, width, delimiter);
        longest = columns.max(longest);
        (_, rest) = rest.split_at(end);
    }
    longest
}

// The end of the first part of the text, which is a delimiter or a line, and the width of that line
// in terminal columns. For a delimiter the width is 0, because it is left out between lines.
fn part_at_front(text: &[u8], width: usize, delimiter: char) -> (usize, usize)
    requires printable { IsPrintable width delimiter text.now }
    requires some { 0 < length text.now }
    ensures some { 0 < result.0 }
    ensures bound { result.0 ≤ length text.now }
    ensures longest { greatest (map measure (wrapped width delimiter text.now))
        ≡ max result.1 (greatest (map measure (wrapped width delimiter (drop result.0 text.now)))) }
{
    if u32::from(text[0]) == u32::from(delimiter) {
        return (1, 0);
    }
    let end = printable_line_end(text, width, delimiter);
    (end, end)
}

/// The number of bytes of the line at the front of a printable ASCII text, which is wrapped at
/// `width` terminal columns. The text must not begin with a delimiter.
pub fn printable_line_end(text: &[u8], width: usize, delimiter: char) -> usize
    requires printable { IsPrintable width delimiter text.now }
    requires begins { begins_with delimiter text.now ≡ false }
    ensures { result ≡ line_end width delimiter text.now }
{
    if text.len() < width {
        return text.len();
    }
    let end = last_break(text, width, delimiter);
    if end == 0 {
        return width;
    }
    if end == width {
        return last_column(text, width, delimiter);
    }
    if end + 4 > width {
        return end;
    }
    if begins_with_long_part(&text[end + 1..], width, delimiter) {
        return width;
    }
    end
}

// The end of a line that fills the width, and is followed by a delimiter or the end of the text. A
// delimiter in the line's last column is left out.
fn last_column(text: &[u8], width: usize, delimiter: char) -> usize
    requires printable { IsPrintable width delimiter text.now }
    requires begins { begins_with delimiter text.now ≡ false }
    requires enough { width ≤ length text.now }
    requires found { width < length text.now → slice_index text.now width ≡ delimiter }
    ensures { result ≡ line_end width delimiter text.now }
{
    if u32::from(text[width - 1]) == u32::from(delimiter) {
        return width - 1;
    }
    width
}

// The last position, at most the width, that has a delimiter or is the end of the text; 0 if there
// is none.
fn last_break(text: &[u8], width: usize, delimiter: char) -> usize
    requires { width ≤ length text.now }
    ensures bound { result ≤ width }
    ensures at_end { width ≡ length text.now → result ≡ width }
    ensures found { width < length text.now → 0 < result → slice_index text.now result ≡ delimiter }
    ensures clear { list_any (λ c. c == delimiter)
        (take (width - result) (drop (result + 1) text.now)) ≡ false }
{
    let mut at = width;
    if at == text.len() {
        return at;
    }
    while at > 0 && u32::from(text[at]) != u32::from(delimiter) {
        at -= 1;
    }
    at
}

// Returns true if more than `width` bytes come before the first delimiter.
fn begins_with_long_part(text: &[u8], width: usize, delimiter: char) -> bool
    ensures { (part : Text) (parts : List Text)
        → slice_split (λ c. c == delimiter) text.now ≡ part ∷ parts
        → result ≡ nat_lt width (length part) }
{
    let mut run = 0;
    while run < text.len() && run <= width && u32::from(text[run]) != u32::from(delimiter) {
        run += 1;
    }
    run > width
}
