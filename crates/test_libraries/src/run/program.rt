//! The output, the messages and the statuses of the program.

use crate::support::{README_DRAWN, assert_bytes, assert_given, assert_number, sink_of};
use comfy_run::run::{MemorySource, RunError, program};
use comfy_table::TableError;
use std::alloc::{Alloc, Global};
use std::process::Abort;

const USAGE: &str = "usage: ctable [WIDTH|- [disabled|dynamic|full [STYLE]]]\n";

/// The table of the README, as input for the program.
pub const README: &[u8] = b"Header1\tHeader2\tHeader3
This is a text\tThis is another text\tThis is the third text
This is another text\tNow\x0badd some\x0bmulti line stuff\tThis is awesome
";

// The drawing in the README for the words `40 dynamic UTF8_FULL`.
const DRAWN_IN_40: &str = "\
┌────────────┬────────────┬────────────┐
│ Header1    ┆ Header2    ┆ Header3    │
╞════════════╪════════════╪════════════╡
│ This is a  ┆ This is    ┆ This is    │
│ text       ┆ another    ┆ the third  │
│            ┆ text       ┆ text       │
├╌╌╌╌╌╌╌╌╌╌╌╌┼╌╌╌╌╌╌╌╌╌╌╌╌┼╌╌╌╌╌╌╌╌╌╌╌╌┤
│ This is    ┆ Now        ┆ This is    │
│ another    ┆ add some   ┆ awesome    │
│ text       ┆ multi line ┆            │
│            ┆ stuff      ┆            │
└────────────┴────────────┴────────────┘
";

/// The drawing of two rows of two cells, the first of which is the header.
pub const SMALL: &str = "\
+---+---+
| a | b |
+=======+
| c | d |
+---+---+
";

// A drawing whose columns have one terminal column for their contents.
const NARROW: &str = "\
+---+---+
| a | c |
| b | d |
+=======+
+---+---+
";

const BOLD: &str = "\
+------------+
| h          |
+============+
| \u{1b}[1mab\u{1b}[0m |
+------------+
";

const WIDENED: &str = "\
+--------------+-------------+
| Hello        | there       |
+============================+
| a            | b           |
+--------------+-------------+
";

// The calls at which the source, the sink and the messages of a run fail, and the room of the sink
// in bytes.
type Faults = (u64, u64, u64, usize);

// Devices that don't fail.
const SOUND: Faults = (0, 0, 0, 4096);

// The words of a run, its input, the faults of its devices, its status, its output, and its
// messages.
type Ended = (
    &'static [&'static str],
    &'static [u8],
    Faults,
    u8,
    &'static str,
    &'static str,
);

// Runs the program, and compares its status, its output and its messages.
fn assert_ends(rt: &(impl Abort + Alloc<A = Global>), wanted: Ended) {
    let (words, input, faults, status, output, messages) = wanted;
    let (failing_read, failing_write, failing_report, room) = faults;
    let mut source = MemorySource::new(input, failing_read);
    let mut sink = sink_of(rt, room, failing_write);
    let mut reports = sink_of(rt, 256, failing_report);
    let ended = program(rt.alloc(), words, &mut source, &mut sink, &mut reports);
    assert_number(rt, usize::from(ended), usize::from(status));
    assert_bytes(rt, sink.bytes(), output);
    assert_bytes(rt, reports.bytes(), messages);
}

// The words and the input of a run that succeeds, and its drawing.
type DrawnRun = (&'static [&'static str], &'static [u8], &'static str);

const DRAWINGS: [DrawnRun; 15] = [
    (&[], README, README_DRAWN),
    (&["40", "dynamic", "UTF8_FULL"], README, DRAWN_IN_40),
    // no input is an empty table
    (&[], b"", "++\n++\n"),
    // the last line feed may be missing, and a carriage return before a line feed is dropped
    (&[], b"a\tb\nc\td\n", SMALL),
    (&[], b"a\tb\nc\td", SMALL),
    (&[], b"a\tb\r\nc\td\r\n", SMALL),
    // a TAB separates two cells
    (&[], b"\t\n", "+---+---+\n|   |   |\n+=======+\n+---+---+\n"),
    // a vertical TAB breaks a line in a cell
    (
        &[],
        b"a\nb\x0bc\td",
        "+---+---+\n| a |   |\n+=======+\n| b | d |\n| c |   |\n+---+---+\n",
    ),
    // both words are the number 0, so that each column has one terminal column for its content
    (&["0", "dynamic"], b"ab\tcd\n", NARROW),
    (&["000", "dynamic"], b"ab\tcd\n", NARROW),
    (&["000"], b"a\tb\nc\td\n", SMALL),
    (
        &["11", "full"],
        b"a\tb\n",
        "+----+----+\n| a  | b  |\n+=========+\n+----+----+\n",
    ),
    (
        &["-", "disabled", "ASCII_MARKDOWN"],
        b"Hello\tthere\na\tb\n",
        "| Hello | there |\n|-------|-------|\n| a     | b     |\n",
    ),
    // sequences stay as they are
    (&[], b"h\n\x1b[1mab\x1b[0m\n", BOLD),
    // borders and paddings take 7 of the 30 terminal columns, and the longest texts take 10 of the
    // other 23. Of the remaining 13 the first column gets 7 and the second 6.
    (&["30", "full"], b"Hello\tthere\na\tb\n", WIDENED),
];

#[test]
fn tables_are_drawn(rt: HostRuntime) {
    for drawing in &DRAWINGS {
        assert_draws(&rt, *drawing);
    }
}

// Runs the program on devices that don't fail. It must succeed.
fn assert_draws(rt: &(impl Abort + Alloc<A = Global>), wanted: DrawnRun) {
    let (words, input, drawn) = wanted;
    assert_ends(rt, (words, input, SOUND, 0, drawn, ""));
}

// Other widths, and other words after a width.
const REFUSED: [&[&str]; 8] = [
    &[""],
    &["65536"],
    &["000000"],
    &["+5"],
    &["--help"],
    &["\u{fffd}"],
    &["20", "full", "FANCY"],
    &["-", "disabled", "ASCII_FULL", "-"],
];

// A source that fails at once isn't read.
#[test]
fn other_words_are_refused(rt: HostRuntime) {
    for words in &REFUSED {
        assert_ends(&rt, (words, b"a\n", (1, 0, 0, 4096), 2, "", USAGE));
    }
}

const NOT_UTF8: &str = "ctable: the input isn't UTF-8\n";

const UNREAD: &str = "ctable: the input can't be read\n";

const UNWRITTEN: &str = "ctable: the output can't be written\n";

const ENDED: [Ended; 9] = [
    // bytes that aren't UTF-8
    (&[], b"\xff", (0, 0, 0, 4096), 1, "", NOT_UTF8),
    (&[], b"a\n\xe2\x9c", (0, 0, 0, 4096), 1, "", NOT_UTF8),
    // one read gives the input, and one shows its end
    (&[], README, (1, 0, 0, 4096), 1, "", UNREAD),
    (&[], README, (2, 0, 0, 4096), 1, "", UNREAD),
    // the drawing is one write
    (&[], README, (0, 1, 0, 4096), 1, "", UNWRITTEN),
    // a sink with room for ten bytes takes the first ten
    (&[], README, (0, 0, 0, 10), 1, "+---------", UNWRITTEN),
    // a fault of the sink for messages changes no status
    (&[], b"a\tb\nc\td\n", (0, 0, 1, 4096), 0, SMALL, ""),
    (&[], b"\xff", (0, 0, 1, 4096), 1, "", ""),
    (&["x"], b"a\n", (0, 0, 1, 4096), 2, "", ""),
];

#[test]
fn faults_have_their_ends(rt: HostRuntime) {
    for wanted in &ENDED {
        assert_ends(&rt, *wanted);
    }
}

// Each error, and its text.
const WORDS: [(RunError, &str); 4] = [
    (RunError::Read, "the input can't be read"),
    (RunError::Write, "the output can't be written"),
    (RunError::NotUtf8, "the input isn't UTF-8"),
    (RunError::Table(TableError::OutOfMemory), "out of memory"),
];

#[test]
fn errors_have_their_words(rt: HostRuntime) {
    for (error, words) in &WORDS {
        assert_given(&rt, error.to_string(rt.alloc()), words);
    }
}
