//! Texts and their wrapped lines.

use crate::support::assert_given;
use comfy_parts::Column;
use comfy_parts::content_split::{
    ColumnDisplayInfo, split_line, split_line_by_delimiter, split_line_ref,
};
use std::alloc::{Alloc, Global};
use std::process::Abort;

// Each text, the content width, the delimiter, and the lines, joined by bars.
const WRAPPED: [(&str, u16, char, &str); 9] = [
    ("abcd  efghi", 10, ' ', "abcd |efghi"),
    ("abcd  efghi", 5, ' ', "abcd|efghi"),
    (
        "This is anotherverylongtextwithlongwords text",
        6,
        ' ',
        "This|is ano|therve|rylong|textwi|thlong|words|text",
    ),
    ("aa bbbbbbb", 5, ' ', "aa|bbbbb|bb"),
    ("--a--b--", 4, '-', "a--b"),
    ("✅✅", 1, ' ', "✅|✅"),
    ("     ", 3, ' ', ""),
    ("", 3, ' ', ""),
    ("ab cd", 0, ' ', "a|b|c|d"),
];

// Fails unless a text has these lines, joined by bars, at a content width, which may be 0. Both the
// borrowed lines and the copied ones are compared.
fn assert_wrapped(
    rt: &(impl Abort + Alloc<A = Global>),
    text: &str,
    width: u16,
    delimiter: char,
    expected: &str,
) {
    let mut info = ColumnDisplayInfo::new(&Column::new(0), width);
    info.content_width = width;
    let lines = split_line_ref(rt.alloc(), text, &info, delimiter).expect(rt, "memory");
    assert_given(rt, lines.join(rt.alloc(), "|"), expected);
    let lines = split_line(rt.alloc(), text, &info, delimiter).expect(rt, "memory");
    assert_given(rt, lines.join(rt.alloc(), "|"), expected);
}

#[test]
fn texts_are_wrapped(rt: HostRuntime) {
    for (text, width, delimiter, expected) in &WRAPPED {
        assert_wrapped(&rt, text, *width, *delimiter, expected);
    }
}

#[test]
fn a_line_is_divided_at_each_delimiter(rt: HostRuntime) {
    let parts = split_line_by_delimiter(rt.alloc(), "a--b", '-').expect(&rt, "memory");
    assert_given(&rt, parts.join(rt.alloc(), "|"), "a||b");
}
