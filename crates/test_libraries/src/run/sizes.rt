//! Inputs just above sizes at which a program might give up. No clause states that it doesn't.

use super::large::options;
use comfy_run::run::{FromReader, ToWriter};
use csv_command::{Options, draw};
use csv_records::shown_text;
use csv_tables::RowSeparators;
use std::alloc::{Alloc, AllocError, Global};
use std::process::Abort;

// The text `first`, then `piece` many times, then `last`.
fn repeated(
    alloc: Global,
    first: &str,
    piece: &str,
    count: usize,
    last: &str,
) -> Result<String, AllocError> {
    let mut text = String::from_str(alloc, first)?;
    for _ in 0..count {
        text.push_str(piece)?;
    }
    text.push_str(last)?;
    Ok(text)
}

// Compares the output of `draw` for an input.
fn assert_drawn(
    rt: &(impl Abort + Alloc<A = Global>),
    input: &str,
    options: &Options,
    wanted: &str,
) {
    let mut bytes = Vec::new(rt.alloc());
    let mut source = FromReader::new(input.as_bytes());
    let mut sink = ToWriter::new(&mut bytes);
    assert!(rt; draw(rt.alloc(), &mut source, &mut sink, options).is_ok());
    assert_eq!(rt; bytes.as_slice(), wanted.as_bytes());
}

// Dates and numbers in 100,001 rows, which aren't broken under a width.
#[test]
fn a_hundred_thousand_rows_keep_to_a_width(rt: HostRuntime) {
    let count = 100_001;
    let piece = "2026-01-02,12,Paper and pens\n";
    let input = repeated(rt.alloc(), "date,n,text\n", piece, count, "").expect(&rt, "memory");
    let wanted = repeated(
        rt.alloc(),
        "+------------+----+-----------+\n\
         | date       |  n | text      |\n\
         +=============================+\n",
        "| 2026-01-02 | 12 | Paper and |\n\
         |            |    | pens      |\n",
        count,
        "+------------+----+-----------+\n",
    );
    let mut options = options(rt.alloc(), Some(31), false);
    options.look.separators = RowSeparators::Never;
    let wanted = wanted.expect(&rt, "memory");
    assert_drawn(&rt, input.as_str(), &options, wanted.as_str());
}

// A text of a message with more than 4 kB.
#[test]
fn a_long_text_is_shown(rt: HostRuntime) {
    let text = repeated(rt.alloc(), "", "name ", 1000, "").expect(&rt, "memory");
    for keeps_lines in [false, true] {
        let shown = shown_text(rt.alloc(), text.as_str(), keeps_lines).expect(&rt, "memory");
        assert!(rt; shown.as_str() == text.as_str());
    }
}
