//! Reads under a limit: the number of bytes that are read, for readers that deliver different
//! sizes.

use super::large::{Pieces, options, text_of};
use crate::support::assert_bytes;
use comfy_run::run::{FromReader, ToWriter};
use csv_command::{ColumnsError, CsvError, draw};
use csv_records::{DecodeError, NotText};
use std::alloc::{Alloc, Global};
use std::io::{self, Read};
use std::process::Abort;

// A reader that gives at most `most` bytes at a call, and the number of bytes that it gave.
#[derive(Drop)]
struct PartedReader<'a> {
    rest: &'a [u8],
    most: usize,
    given: usize,
}

impl Read for PartedReader<'_> {
    fn read(&mut self, buffer: &mut [u8]) -> io::Result<usize> {
        let count = buffer.len().min(self.most).min(self.rest.len());
        let (front, rest) = self.rest.split_at(count);
        buffer[..count].copy_from_slice(front);
        self.rest = rest;
        self.given = self.given.saturating_add(count);
        Ok(count)
    }
}

// A header and 40,000 records of 5 bytes: 200,004 bytes.
const INPUT: Pieces = &[("a,b\n", 1), ("x,12\n", 40_000)];

// The greatest numbers of bytes at a call: all that are wanted, 40,000, 1,000, 7.
const PARTS: [usize; 4] = [usize::MAX, 40_000, 1_000, 7];

// The number of bytes that are read under this limit, if each call gives at most `most` bytes, and
// the drawing.
fn drawn(
    rt: &(impl Abort + Alloc<A = Global>),
    limit: usize,
    counts_all: bool,
    most: usize,
) -> (usize, Vec<u8>) {
    let input = text_of(rt.alloc(), INPUT).expect(rt, "memory");
    let mut reader = PartedReader {
        rest: input.as_bytes(),
        most,
        given: 0,
    };
    let mut bytes = Vec::new(rt.alloc());
    let mut options = options(rt.alloc(), None, false);
    options.selection.limit = Some(limit);
    options.counts_all = counts_all;
    let mut source = FromReader::new(&mut reader);
    let mut sink = ToWriter::new(&mut bytes);
    assert!(rt; draw(rt.alloc(), &mut source, &mut sink, &options).is_ok());
    (reader.given, bytes)
}

const THREE: &str = "\
+---+----+
| a |  b |
+========+
| x | 12 |
|---+----|
| x | 12 |
|---+----|
| x | 12 |
+---+----+
first 3 records; there are more
";

#[test]
fn the_drawing_is_one_however_its_input_is_parted(rt: HostRuntime) {
    for most in PARTS {
        let (given, bytes) = drawn(&rt, 3, false, most);
        assert!(rt; given == 65_536);
        assert_bytes(&rt, bytes.as_slice(), THREE);
    }
}

// 131,072 bytes have 26,213 records, and no beginning of the input has more than all of them.
#[test]
fn as_much_is_read_as_the_limit_asks_for(rt: HostRuntime) {
    for most in [usize::MAX, 40_000] {
        assert!(rt; drawn(&rt, 20_000, false, most).0 == 131_072);
        assert!(rt; drawn(&rt, 40_000, false, most).0 == 200_004);
        assert!(rt; drawn(&rt, 3, true, most).0 == 200_004);
    }
}

// The bytes of `front`, and after them 80,000 bytes of records: more than is read at first.
fn large_input(rt: &(impl Abort + Alloc<A = Global>), front: &[u8]) -> Vec<u8> {
    let mut input = Vec::from_slice(rt.alloc(), front).expect(rt, "memory");
    for _ in 0..20_000 {
        input.extend_from_slice(b"5,6\n").expect(rt, "memory");
    }
    input
}

// The drawing of such an input under a limit of two records, of the column with this name if there
// is one.
fn drawn_or_refused(
    rt: &(impl Abort + Alloc<A = Global>),
    front: &[u8],
    column: Option<&str>,
) -> Result<Vec<u8>, CsvError> {
    let input = large_input(rt, front);
    let mut bytes = Vec::new(rt.alloc());
    let mut options = options(rt.alloc(), None, false);
    options.selection.limit = Some(2);
    if let Some(column) = column {
        let word = String::from_str(rt.alloc(), column).expect(rt, "memory");
        options.columns.chosen.push(word).expect(rt, "memory");
    }
    let mut source = FromReader::new(input.as_slice());
    let mut sink = ToWriter::new(&mut bytes);
    draw(rt.alloc(), &mut source, &mut sink, &options)?;
    Ok(bytes)
}

// If the beginning of an input has no text or no records of its own, all of it is read. The error
// then reports the fault in the input, and not that memory ran out.
#[test]
fn a_byte_that_is_not_utf8_is_reported(rt: HostRuntime) {
    let refused = drawn_or_refused(&rt, b"a,b\n1,2\n3,\xff\n", None);
    assert!(rt;
        matches!(
            &refused,
            Err(CsvError::Decode(DecodeError::NotUtf8 { line: 3, .. }))
        )
    );
}

#[test]
fn an_archive_is_reported(rt: HostRuntime) {
    let refused = drawn_or_refused(&rt, b"PK\x03\x04\n1,2\n", None);
    assert!(rt;
        matches!(
            &refused,
            Err(CsvError::Decode(DecodeError::NotText(NotText::Zip)))
        )
    );
}

#[test]
fn a_quote_without_an_end_is_reported(rt: HostRuntime) {
    let refused = drawn_or_refused(&rt, b"sep=,\na,b\n1,2\n3,4\n5,\"6\n", None);
    assert!(rt; matches!(&refused, Err(CsvError::Records(_))));
}

#[test]
fn a_column_that_is_not_there_is_reported(rt: HostRuntime) {
    let refused = drawn_or_refused(&rt, b"a,b\n", Some("c"));
    assert!(rt;
        matches!(
            &refused,
            Err(CsvError::Columns(ColumnsError::NoColumn(_, _)))
        )
    );
}
