//! Inputs that are long in each direction. No clause states that they must be drawn. Their drawings
//! follow from the rules, since each is one piece many times.

use crate::support::{assert_bytes, sink_of};
use comfy_run::run::{FromReader, MemorySource, Settings, ToWriter, run};
use comfy_table::ContentArrangement;
use comfy_table::presets::ASCII_FULL;
use csv_command::{ColumnWords, Options, draw};
use csv_records::{Delimiter, InputOptions};
use csv_tables::{Expansion, Look, Noun, RowSeparators, Selection};
use std::alloc::{Alloc, AllocError, Global};
use std::process::Abort;

// A text: pieces, each with the number of its repetitions.
pub(super) type Pieces = &'static [(&'static str, usize)];

// A table: its input for `run` and for `draw`, and its drawings without a width and in 40 terminal
// columns.
struct Large {
    tabs: Pieces,
    commas: Pieces,
    drawn: Pieces,
    drawn_in_40: Pieces,
}

// An input of 5,000 lines, 200 kB.
const ROWS: Large = Large {
    tabs: &[("qwertyuio\tabcdefghi\tABCDEFGHI\tzxcvbnmas\n", 5000)],
    commas: &[("qwertyuio,abcdefghi,ABCDEFGHI,zxcvbnmas\n", 5000)],
    drawn: &[
        ("+-----------+-----------+-----------+-----------+\n", 1),
        ("| qwertyuio | abcdefghi | ABCDEFGHI | zxcvbnmas |\n", 1),
        ("+===============================================+\n", 1),
        (
            "| qwertyuio | abcdefghi | ABCDEFGHI | zxcvbnmas |\n\
             |-----------+-----------+-----------+-----------|\n",
            4998,
        ),
        ("| qwertyuio | abcdefghi | ABCDEFGHI | zxcvbnmas |\n", 1),
        ("+-----------+-----------+-----------+-----------+\n", 1),
    ],
    drawn_in_40: &[
        ("+---------+---------+---------+--------+\n", 1),
        ("| qwertyu | abcdefg | ABCDEFG | zxcvbn |\n", 1),
        ("| io      | hi      | HI      | mas    |\n", 1),
        ("+======================================+\n", 1),
        (
            "| qwertyu | abcdefg | ABCDEFG | zxcvbn |\n\
             | io      | hi      | HI      | mas    |\n\
             |---------+---------+---------+--------|\n",
            4998,
        ),
        ("| qwertyu | abcdefg | ABCDEFG | zxcvbn |\n", 1),
        ("| io      | hi      | HI      | mas    |\n", 1),
        ("+---------+---------+---------+--------+\n", 1),
    ],
};

// An input of 1,001 columns. With a width of 40, each column has one terminal column for its texts.
const COLUMNS: Large = Large {
    tabs: &[
        ("ab", 1),
        ("\tab", 1000),
        ("\ncd", 1),
        ("\tcd", 1000),
        ("\n", 1),
    ],
    commas: &[
        ("ab", 1),
        (",ab", 1000),
        ("\ncd", 1),
        (",cd", 1000),
        ("\n", 1),
    ],
    drawn: &[
        ("+----", 1001),
        ("+\n", 1),
        ("| ab ", 1001),
        ("|\n+", 1),
        ("=", 5004),
        ("+\n", 1),
        ("| cd ", 1001),
        ("|\n", 1),
        ("+----", 1001),
        ("+\n", 1),
    ],
    drawn_in_40: &[
        ("+---", 1001),
        ("+\n", 1),
        ("| a ", 1001),
        ("|\n", 1),
        ("| b ", 1001),
        ("|\n+", 1),
        ("=", 4003),
        ("+\n", 1),
        ("| c ", 1001),
        ("|\n", 1),
        ("| d ", 1001),
        ("|\n", 1),
        ("+---", 1001),
        ("+\n", 1),
    ],
};

// An input with a cell of 21,000 text lines, above 1 MB.
const FIELD: Large = Large {
    tabs: &[
        ("head\n", 1),
        (
            "word word word word word word word word word word\u{b}",
            20_999,
        ),
        ("word word word word word word word word word word\n", 1),
    ],
    commas: &[
        ("head\n\"", 1),
        (
            "word word word word word word word word word word\n",
            20_999,
        ),
        ("word word word word word word word word word word\"\n", 1),
    ],
    drawn: &[
        ("+---------------------------------------------------+\n", 1),
        ("| head                                              |\n", 1),
        ("+===================================================+\n", 1),
        (
            "| word word word word word word word word word word |\n",
            21_000,
        ),
        ("+---------------------------------------------------+\n", 1),
    ],
    drawn_in_40: &[
        ("+--------------------------------------+\n", 1),
        ("| head                                 |\n", 1),
        ("+======================================+\n", 1),
        (
            "| word word word word word word word   |\n| word word word                       |\n",
            21_000,
        ),
        ("+--------------------------------------+\n", 1),
    ],
};

// An input with a field of 774 red words, 10 kB. The SGR sequences of the words take no terminal
// columns.
const SEQUENCES: Large = Large {
    tabs: &[],
    commas: &[
        ("head\n", 1),
        ("\u{1b}[31mred\u{1b}[0m ", 773),
        ("\u{1b}[31mred\u{1b}[0m\n", 1),
    ],
    drawn: &[
        ("+", 1),
        ("-", 3097),
        ("+\n| head", 1),
        (" ", 3092),
        ("|\n+", 1),
        ("=", 3097),
        ("+\n|", 1),
        (" \u{1b}[31mred\u{1b}[0m", 774),
        (" |\n+", 1),
        ("-", 3097),
        ("+\n", 1),
    ],
    drawn_in_40: &[
        ("+--------------------------------------+\n", 1),
        ("| head                                 |\n", 1),
        ("+======================================+\n", 1),
        (
            "| \u{1b}[31mred\u{1b}[0m \u{1b}[31mred\u{1b}[0m \u{1b}[31mred\u{1b}[0m \
             \u{1b}[31mred\u{1b}[0m \u{1b}[31mred\u{1b}[0m \u{1b}[31mred\u{1b}[0m \
             \u{1b}[31mred\u{1b}[0m \u{1b}[31mred\u{1b}[0m \u{1b}[31mred\u{1b}[0m \x20|\n",
            86,
        ),
        ("+--------------------------------------+\n", 1),
    ],
};

pub(super) fn text_of(alloc: Global, pieces: Pieces) -> Result<String, AllocError> {
    let mut text = String::new(alloc);
    for (piece, count) in pieces {
        push_repeated(&mut text, piece, *count)?;
    }
    Ok(text)
}

fn push_repeated(text: &mut String, piece: &str, count: usize) -> Result<(), AllocError> {
    for _ in 0..count {
        text.push_str(piece)?;
    }
    Ok(())
}

fn settings(width: Option<u16>) -> Settings {
    Settings {
        width,
        arrangement: ContentArrangement::Dynamic,
        style: ASCII_FULL,
    }
}

// The widths: none, and 40 terminal columns.
const WIDTHS: [Option<u16>; 2] = [None, Some(40)];

fn wanted(rt: &(impl Abort + Alloc<A = Global>), large: &Large, width: Option<u16>) -> String {
    let pieces = if width.is_some() {
        large.drawn_in_40
    } else {
        large.drawn
    };
    text_of(rt.alloc(), pieces).expect(rt, "memory")
}

// Compares the output of `run`, from memory, and from a reader to a writer.
fn assert_run(rt: &(impl Abort + Alloc<A = Global>), large: &Large, width: Option<u16>) {
    let input = text_of(rt.alloc(), large.tabs).expect(rt, "memory");
    let wanted = wanted(rt, large, width);
    let mut sink = sink_of(rt, 2_000_000, 0);
    let mut source = MemorySource::new(input.as_bytes(), 0);
    assert!(rt; run(rt.alloc(), &mut source, &mut sink, settings(width)).is_ok());
    assert_bytes(rt, sink.bytes(), wanted.as_str());
    assert_streamed(rt, input.as_bytes(), width, wanted.as_str());
}

fn assert_streamed(
    rt: &(impl Abort + Alloc<A = Global>),
    input: &[u8],
    width: Option<u16>,
    wanted: &str,
) {
    let mut bytes = Vec::new(rt.alloc());
    let mut source = FromReader::new(input);
    let mut sink = ToWriter::new(&mut bytes);
    assert!(rt; run(rt.alloc(), &mut source, &mut sink, settings(width)).is_ok());
    assert_bytes(rt, bytes.as_slice(), wanted);
}

// The options for records in this width.
pub(super) fn options(alloc: Global, width: Option<u16>, has_sequences: bool) -> Options {
    Options {
        input: InputOptions {
            encoding: None,
            skip: 0,
            delimiter: Delimiter::Auto,
            has_header: true,
            has_quotes: true,
        },
        counts_all: false,
        selection: Selection {
            has_header: true,
            limit: None,
            is_numbered: false,
            noun: Noun::Record,
        },
        columns: ColumnWords {
            chosen: Vec::new(alloc),
            dropped: Vec::new(alloc),
            right: Vec::new(alloc),
            left: Vec::new(alloc),
        },
        look: Look {
            style: ASCII_FULL,
            separators: RowSeparators::Styled,
            expansion: Expansion::Never,
            width,
            fills_width: false,
            max_height: None,
            has_bold_header: false,
            aligns_decimals: true,
            has_sequences,
            is_markdown: false,
        },
    }
}

// Compares the output of `draw`, from a reader to a writer.
fn assert_records(
    rt: &(impl Abort + Alloc<A = Global>),
    large: &Large,
    width: Option<u16>,
    has_sequences: bool,
) {
    let input = text_of(rt.alloc(), large.commas).expect(rt, "memory");
    let mut bytes = Vec::new(rt.alloc());
    let mut source = FromReader::new(input.as_bytes());
    let mut sink = ToWriter::new(&mut bytes);
    let options = options(rt.alloc(), width, has_sequences);
    assert!(rt; draw(rt.alloc(), &mut source, &mut sink, &options).is_ok());
    assert_bytes(rt, bytes.as_slice(), wanted(rt, large, width).as_str());
}

#[test]
fn large_inputs_are_drawn(rt: HostRuntime) {
    for width in WIDTHS {
        assert_run(&rt, &ROWS, width);
        assert_run(&rt, &COLUMNS, width);
        assert_run(&rt, &FIELD, width);
    }
}

#[test]
fn large_records_are_drawn(rt: HostRuntime) {
    for width in WIDTHS {
        assert_records(&rt, &ROWS, width, false);
        assert_records(&rt, &COLUMNS, width, false);
        assert_records(&rt, &FIELD, width, false);
        assert_records(&rt, &SEQUENCES, width, true);
    }
}

// 20,000 records of two fields, of which the second is a number: their drawing for Markdown, and
// the drawing of the first one expanded.
const MARKED: Pieces = &[("| a |  b |\n|---|---:|\n", 1), ("| x | 12 |\n", 20_000)];

const EXPANDED: Pieces = &[
    ("record 1 of 20000\n", 1),
    (
        "+---+----+\n| a | x  |\n|---+----|\n| b | 12 |\n+---+----+\n",
        1,
    ),
];

#[test]
fn large_records_are_drawn_for_markdown_and_expanded(rt: HostRuntime) {
    assert_formed(&rt, Expansion::Never, true, MARKED);
    assert_formed(&rt, Expansion::Always, false, EXPANDED);
}

// Compares the output of `draw` for these records in this form. Expanded, only the first one is
// drawn.
fn assert_formed(
    rt: &(impl Abort + Alloc<A = Global>),
    expansion: Expansion,
    is_markdown: bool,
    pieces: Pieces,
) {
    let input = text_of(rt.alloc(), &[("a,b\n", 1), ("x,12\n", 20_000)]).expect(rt, "memory");
    let wanted = text_of(rt.alloc(), pieces).expect(rt, "memory");
    let mut bytes = Vec::new(rt.alloc());
    let mut source = FromReader::new(input.as_bytes());
    let mut sink = ToWriter::new(&mut bytes);
    let mut options = options(rt.alloc(), None, false);
    options.look.expansion = expansion;
    options.look.is_markdown = is_markdown;
    assert!(rt; draw(rt.alloc(), &mut source, &mut sink, &options).is_ok());
    assert_bytes(
        rt,
        &bytes.as_slice()[..wanted.len().min(bytes.len())],
        wanted.as_str(),
    );
    assert!(rt; is_markdown == (bytes.len() == wanted.len()));
}

// 1,000 lines of one cell with 2,000 characters, 2 MB. The drawing has 2,001 lines of 2,005 bytes.
#[test]
fn two_megabytes_are_drawn(rt: HostRuntime) {
    let mut input = String::new(rt.alloc());
    for _ in 0..1000 {
        push_repeated(&mut input, "word ", 400).expect(&rt, "memory");
        input.push('\n').expect(&rt, "memory");
    }
    let mut source = MemorySource::new(input.as_bytes(), 0);
    let mut sink = sink_of(&rt, 5_000_000, 0);
    assert!(rt; run(rt.alloc(), &mut source, &mut sink, settings(None)).is_ok());
    assert!(rt; sink.bytes().len() == 4_012_005);
}
