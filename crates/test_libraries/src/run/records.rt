//! The texts of `csvtable`'s errors, delimiters that its options can't set, and encodings.

use super::large::options;
use csv_command::{CsvError, Options};
use csv_records::{
    DecodeError, Delimiter, Encoding, InputOptions, RecordsError, decoded, read_records,
};
use csv_tables::{Columns, Layout, output_of_records};
use std::alloc::{Alloc, Global};
use std::process::Abort;

fn assert_words(rt: &(impl Abort + Alloc<A = Global>), error: &CsvError, wanted: &str) {
    let words = error.to_string(rt.alloc()).expect(rt, "memory");
    assert!(rt; words.as_str() == wanted);
}

#[test]
fn refusals_have_their_words(rt: HostRuntime) {
    assert_words(
        &rt,
        &CsvError::Decode(DecodeError::NotUtf8 {
            line: 3,
            may_be_cp1252: true,
        }),
        "line 3 isn't UTF-8",
    );
    assert_words(
        &rt,
        &CsvError::Decode(DecodeError::NotUtf16(3)),
        "line 3 isn't UTF-16",
    );
    assert_words(
        &rt,
        &CsvError::Records(RecordsError::Unclosed(3)),
        "a quote that opens in line 3 is never closed",
    );
    assert_words(
        &rt,
        &CsvError::Records(RecordsError::SplitCharacter),
        "the delimiter splits a character",
    );
}

// Options that read records with this byte as delimiter.
fn between(alloc: Global, delimiter: u8) -> Options {
    let mut options = options(alloc, None, false);
    options.input.delimiter = Delimiter::Byte(delimiter);
    options
}

// The bytes of é are 195 and 169, and no byte of a text is 255.
#[test]
fn delimiters_that_are_not_ascii(rt: HostRuntime) {
    for delimiter in [195, 169] {
        let split = read_records(
            rt.alloc(),
            "a,b\né,d\n",
            &between(rt.alloc(), delimiter).input,
        );
        assert!(rt; matches!(&split, Err(RecordsError::SplitCharacter)));
    }
    let whole = read_records(rt.alloc(), "a,b\né,d\n", &between(rt.alloc(), 255).input);
    let whole = whole.expect(&rt, "records");
    assert!(rt; whole.rows().len() == 2);
    let second = whole.rows().rows_after(1).first().expect(&rt, "a record");
    assert!(rt; second.len() == 1 && second.get(0) == Some("é,d"));
    assert!(rt; whole.rows().first_rows(1).len() == 1);
}

// There is a row for each record, and numbers are right-aligned. The columns have the requested
// order.
#[test]
fn records_become_a_table(rt: HostRuntime) {
    let options = between(rt.alloc(), b',');
    let text = "name,days\noats,3\nrye,14\n";
    let records = read_records(rt.alloc(), text, &options.input).expect(&rt, "records");
    let drawn = Vec::from_array(rt.alloc(), [1, 0]).expect(&rt, "memory");
    let layout = Layout {
        selection: options.selection,
        columns: Columns::new(drawn, Vec::new(rt.alloc()), Vec::new(rt.alloc())),
        look: options.look,
    };
    let drawing = output_of_records(rt.alloc(), records, &layout).expect(&rt, "memory");
    let rows =
        "| days | name |\n+=============+\n|    3 | oats |\n|------+------|\n|   14 | rye  |";
    assert!(rt; drawing.contains(rows));
}

// Options that read an input in this encoding.
fn encoded(alloc: Global, encoding: Option<Encoding>) -> InputOptions {
    let mut input = options(alloc, None, false).input;
    input.encoding = encoding;
    input
}

fn assert_decoded<const N: usize>(
    rt: &(impl Abort + Alloc<A = Global>),
    bytes: [u8; N],
    encoding: Option<Encoding>,
    wanted: &str,
) {
    let input = Vec::from_array(rt.alloc(), bytes).expect(rt, "memory");
    let text = decoded(rt.alloc(), input, &encoded(rt.alloc(), encoding)).expect(rt, "a text");
    assert!(rt; text.as_str() == wanted);
}

// U+1F680 is 0xD83D 0xDE80 in UTF-16.
#[test]
fn inputs_are_decoded(rt: HostRuntime) {
    let rocket = [0xFF, 0xFE, 0x61, 0x00, 0x3D, 0xD8, 0x80, 0xDE];
    assert_decoded(&rt, rocket, None, "a\u{1f680}");
    assert_decoded(&rt, [0x00, 0x61], Some(Encoding::Utf16), "\u{6100}");
    assert_decoded(&rt, [0xFE, 0xFF, 0x00, 0x61], None, "a");
    assert_decoded(
        &rt,
        [0x80, 0x61, 0xE9],
        Some(Encoding::Cp1252),
        "\u{20ac}aé",
    );
    assert_decoded(&rt, [0xC3, 0xA9], None, "é");
    let lone = Vec::from_array(rt.alloc(), [0x0A, 0x00, 0x3D, 0xD8]).expect(&rt, "memory");
    let refused = decoded(
        rt.alloc(),
        lone,
        &encoded(rt.alloc(), Some(Encoding::Utf16)),
    );
    assert!(rt; matches!(&refused, Err(DecodeError::NotUtf16(2))));
}
