//! Messages of the program at its end. Clauses can't state that there is memory for them.

use crate::arguments::{Invocation, OutputContext, parse};
use crate::ending::{
    Ending, Outcome, ending_of_outcome, ending_of_refusal, ending_without_arguments, waiting_notice,
};
use crate::error::{ColumnsError, CsvError};
use csv_records::{DecodeError, LongRecords, NotText, RecordsError};
use std::alloc::{Alloc, Global};
use std::io::ErrorKind;
use std::process::Abort;

// The destination of the output: no terminal.
const NOWHERE: OutputContext<'static> = OutputContext {
    is_terminal: false,
    columns: None,
    no_color: None,
};

// Fails unless an ending has this status and this text, as a message or as an output.
fn assert_says(rt: &impl Abort, ending: &Ending, status: u8, is_message: bool, text: &str) {
    assert_eq!(rt; ending.message.text(), text);
    assert!(rt; ending.status == status, "the status with {text}");
    assert!(rt; ending.is_message == is_message, "where {text} goes");
}

// The options that these arguments give.
fn parse_by<'a>(rt: &(impl Abort + Alloc<A = Global>), arguments: &'a [&'a str]) -> Invocation {
    parse(rt.alloc(), arguments, NOWHERE).expect(rt, "arguments")
}

// Fails unless a drawing that ends with this error has this message; `fault` is the error of the
// input.
fn assert_message(
    rt: &(impl Abort + Alloc<A = Global>),
    invocation: &Invocation,
    error: CsvError,
    fault: Option<ErrorKind>,
    text: &str,
) {
    let drawing = Outcome {
        invocation,
        result: Err(error),
        fault,
        output_fault: None,
        is_blank: false,
    };
    assert_says(rt, &ending_of_outcome(rt.alloc(), &drawing), 1, true, text);
}

fn name(rt: &(impl Abort + Alloc<A = Global>), name: &str) -> String {
    String::from_str(rt.alloc(), name).expect(rt, "memory")
}

// The message has the name of the file, and the reason for which it can't be read.
#[test]
fn a_file_that_can_not_be_read(rt: HostRuntime) {
    let arguments = ["csvtable", "a.csv"];
    let invocation = parse_by(&rt, &arguments);
    let reasons = [
        (Some(ErrorKind::NotFound), "csvtable: a.csv: no such file\n"),
        (
            Some(ErrorKind::IsADirectory),
            "csvtable: a.csv: is a directory\n",
        ),
        (
            Some(ErrorKind::PermissionDenied),
            "csvtable: a.csv: permission denied\n",
        ),
        (
            Some(ErrorKind::TimedOut),
            "csvtable: a.csv: can't be read\n",
        ),
        (None, "csvtable: a.csv: can't be read\n"),
    ];
    for (fault, text) in reasons {
        assert_message(&rt, &invocation, CsvError::Read, fault, text);
    }
}

// If no file is named and standard input is a terminal, the program waits for input.
#[test]
fn a_terminal_is_waited_for(rt: HostRuntime) {
    let waiting = "csvtable: reading from the terminal; end with Ctrl-D\n";
    let cases = [
        (["csvtable", "-n"], true, waiting),
        (["csvtable", "-"], true, waiting),
        (["csvtable", "-"], false, ""),
        (["csvtable", "a.csv"], true, ""),
    ];
    for (arguments, is_terminal, message) in &cases {
        let invocation = parse_by(&rt, arguments.as_slice());
        assert_eq!(rt; waiting_notice(&invocation.file, *is_terminal), *message);
    }
}

// The message also has the name of the file if the bytes of the file are wrong. The two messages
// with a name are also on the page about the program.
#[test]
fn an_input_that_can_not_be_drawn(rt: HostRuntime) {
    let arguments = ["csvtable", "bank.csv"];
    let invocation = parse_by(&rt, &arguments);
    let text = "csvtable: bank.csv: line 2 isn't UTF-8; try -e cp1252, or iconv -f ENCODING FILE | \
        csvtable\n";
    assert_message(&rt, &invocation, not_utf8(2, true), None, text);
    let text = "csvtable: bank.csv: line 2 isn't UTF-8; try iconv -f ENCODING FILE | csvtable\n";
    assert_message(&rt, &invocation, not_utf8(2, false), None, text);
    let text = "csvtable: bank.csv: line 3 isn't UTF-16\n";
    assert_message(
        &rt,
        &invocation,
        CsvError::Decode(DecodeError::NotUtf16(3)),
        None,
        text,
    );
    let text = "csvtable: bank.csv: the delimiter splits a character\n";
    assert_message(
        &rt,
        &invocation,
        CsvError::Records(RecordsError::SplitCharacter),
        None,
        text,
    );

    let arguments = ["csvtable", "a.csv"];
    let invocation = parse_by(&rt, &arguments);
    let text = "csvtable: a.csv: a quote that opens in line 2 is never closed; try --no-quotes\n";
    assert_message(
        &rt,
        &invocation,
        CsvError::Records(RecordsError::Unclosed(2)),
        None,
        text,
    );

    let arguments = ["csvtable", "-e", "utf-8"];
    let invocation = parse_by(&rt, &arguments);
    let text = "csvtable: standard input: line 2 isn't UTF-8\n";
    assert_message(&rt, &invocation, not_utf8(2, true), None, text);
}

fn not_utf8(line: u64, may_be_cp1252: bool) -> CsvError {
    CsvError::Decode(DecodeError::NotUtf8 {
        line,
        may_be_cp1252,
    })
}

// The kind of an input that isn't UTF-8 text, and a hint.
#[test]
fn an_input_that_is_something_else(rt: HostRuntime) {
    let arguments = ["csvtable", "a"];
    let invocation = parse_by(&rt, &arguments);
    let lines = [
        (
            NotText::Gzip,
            "csvtable: a: compressed by gzip; try zcat FILE | csvtable\n",
        ),
        (
            NotText::Zip,
            "csvtable: a: a zip archive; try unzip -p FILE | csvtable, \
                or save a spreadsheet as CSV\n",
        ),
        (
            NotText::Json,
            "csvtable: a: looks like JSON; try mlr --ijson --ocsv unsparsify FILE | csvtable; \
                -e utf-8 reads it anyway\n",
        ),
        (
            NotText::Html,
            "csvtable: a: an HTML page, perhaps one that asks for a login; \
                -e utf-8 reads it anyway\n",
        ),
        (
            NotText::Pdf,
            "csvtable: a: a PDF document; try pdftotext -layout FILE - | csvtable -d spaces\n",
        ),
        (
            NotText::Xz,
            "csvtable: a: compressed by xz; try xzcat FILE | csvtable\n",
        ),
        (
            NotText::Zstd,
            "csvtable: a: compressed by zstd; try zstdcat FILE | csvtable\n",
        ),
        (
            NotText::Bzip2,
            "csvtable: a: compressed by bzip2; try bzcat FILE | csvtable\n",
        ),
        (
            NotText::Utf16,
            "csvtable: a: looks like UTF-16; try -e utf-16\n",
        ),
        (
            NotText::Binary(7),
            "csvtable: a: line 7 has a NUL byte, so this isn't text; -e utf-8 reads it anyway\n",
        ),
    ];
    for (other, text) in lines {
        let error = CsvError::Decode(DecodeError::NotText(other));
        assert_message(&rt, &invocation, error, None, text);
    }
}

// No control character reaches the terminal, neither from typed names nor from names in the input.
#[test]
fn columns_that_can_not_be_drawn(rt: HostRuntime) {
    let arguments = ["csvtable"];
    let invocation = parse_by(&rt, &arguments);
    let hint = name(&rt, "there is a\u{7}b");
    let error = CsvError::Columns(ColumnsError::NoColumn(name(&rt, "z\u{1b}[2J"), hint));
    let text = "csvtable: standard input: no column 'z\u{fffd}[2J'; there is a\u{fffd}b\n";
    assert_message(&rt, &invocation, error, None, text);
    let error = CsvError::Columns(ColumnsError::NoneLeft);
    let text = "csvtable: standard input: no column is left\n";
    assert_message(&rt, &invocation, error, None, text);
    let error = CsvError::Columns(ColumnsError::TwoSides(name(&rt, "b")));
    let text = "csvtable: standard input: column 'b' can't be aligned both left and right\n";
    assert_message(&rt, &invocation, error, None, text);
}

// Fails unless this error of the output has this message.
fn assert_unwritten(
    rt: &(impl Abort + Alloc<A = Global>),
    invocation: &Invocation,
    fault: ErrorKind,
    text: &str,
) {
    let drawing = Outcome {
        invocation,
        result: Err(CsvError::Write),
        fault: None,
        output_fault: Some(fault),
        is_blank: false,
    };
    assert_says(rt, &ending_of_outcome(rt.alloc(), &drawing), 1, true, text);
}

#[test]
fn a_drawing_that_ends(rt: HostRuntime) {
    let arguments = ["csvtable", "a.csv"];
    let invocation = parse_by(&rt, &arguments);
    let text = "csvtable: the output can't be written\n";
    assert_message(&rt, &invocation, CsvError::Write, None, text);
    let text = "csvtable: out of memory\n";
    assert_message(&rt, &invocation, CsvError::OutOfMemory, None, text);
    let text = "csvtable: the output takes no more for now; is it nonblocking?\n";
    assert_unwritten(&rt, &invocation, ErrorKind::WouldBlock, text);
    assert_unwritten(&rt, &invocation, ErrorKind::BrokenPipe, "");
}

// The message after a drawing was written: the drawing has these long records, or is empty and went
// to a terminal.
fn assert_drawn<'a>(
    rt: &(impl Abort + Alloc<A = Global>),
    arguments: &'a [&'a str],
    longer: Option<LongRecords>,
    is_blank: bool,
    text: &str,
) {
    let invocation = parse_by(rt, arguments);
    let drawing = Outcome {
        invocation: &invocation,
        result: Ok(longer),
        fault: None,
        output_fault: None,
        is_blank,
    };
    assert_says(rt, &ending_of_outcome(rt.alloc(), &drawing), 0, true, text);
}

// A drawing that was written has no message, unless records have more fields than the header.
#[test]
fn a_drawing_that_was_written(rt: HostRuntime) {
    let one = LongRecords {
        line: 3,
        fields: 4,
        first_fields: 3,
        others: 0,
        lasts: true,
    };
    let two = LongRecords { others: 1, ..one };
    let three = LongRecords { others: 2, ..one };
    assert_drawn(&rt, &["csvtable", "a.csv"], None, false, "");
    let text = "csvtable: a.csv: line 3 has 4 fields, the header has 3\n";
    assert_drawn(&rt, &["csvtable", "a.csv"], Some(one), false, text);
    let text =
        "csvtable: standard input: line 3 has 4 fields, the header has 3 (and 1 more line)\n";
    assert_drawn(&rt, &["csvtable", "-"], Some(two), false, text);
    let text = "csvtable: \u{fffd}[2J: line 3 has 4 fields, the header has 3 (and 2 more lines)\n";
    assert_drawn(&rt, &["csvtable", "\u{1b}[2J"], Some(three), false, text);
}

// `--skip` is recommended for lines above a table, if the first of them has one field, or at least
// two fewer than each record of the table.
#[test]
fn a_table_below_other_lines(rt: HostRuntime) {
    let below = LongRecords {
        line: 3,
        fields: 3,
        first_fields: 1,
        others: 2,
        lasts: true,
    };
    let text = "csvtable: a.csv: line 3 has 3 fields, the header has 1 (and 2 more lines); \
        try --skip 2\n";
    assert_drawn(&rt, &["csvtable", "a.csv"], Some(below), false, text);
    let text = "csvtable: a.csv: line 3 has 4 fields, the header has 2 (and 2 more lines); \
        try --skip 2\n";
    let longer = LongRecords {
        fields: 4,
        first_fields: 2,
        ..below
    };
    assert_drawn(&rt, &["csvtable", "a.csv"], Some(longer), false, text);
    let text = "csvtable: a.csv: line 3 has 3 fields, the header has 1 (and 2 more lines)\n";
    let among = LongRecords {
        lasts: false,
        ..below
    };
    assert_drawn(&rt, &["csvtable", "a.csv"], Some(among), false, text);
    let text = "csvtable: a.csv: line 3 has 3 fields, the header has 1\n";
    let single = LongRecords { others: 0, ..below };
    assert_drawn(&rt, &["csvtable", "a.csv"], Some(single), false, text);
}

// A terminal gets a reason for an empty output.
#[test]
fn an_input_without_records(rt: HostRuntime) {
    let text = "csvtable: a.csv: no records\n";
    assert_drawn(&rt, &["csvtable", "a.csv"], None, true, text);
    let text = "csvtable: standard input: no records below --skip 99\n";
    assert_drawn(&rt, &["csvtable", "--skip", "99"], None, true, text);
}

// The end of the program if clap has a text for these arguments.
fn ending_by<'a>(rt: &(impl Abort + Alloc<A = Global>), arguments: &'a [&'a str]) -> Ending {
    match parse(rt.alloc(), arguments, NOWHERE) {
        Ok(_asked) => ending_without_arguments(ErrorKind::Other),
        Err(error) => ending_of_refusal(rt.alloc(), &error),
    }
}

// Help has clap's layout: a description, the usage, the arguments, and a text after them.
#[test]
fn help_is_an_output(rt: HostRuntime) {
    for argument in ["-h", "--help"] {
        let arguments = ["csvtable", argument];
        let ending = ending_by(&rt, &arguments);
        assert!(rt; ending.status == 0 && !ending.is_message);
        let text = ending.message.text();
        assert!(rt;
            text.starts_with(
                "Draws the records of a CSV file as a table\n\n\
                 Usage: csvtable [OPTIONS] [FILE]\n\nOptions:\n"
            )
        );
        assert!(rt; text.contains("\n  -h, --help     Print help\n"));
        assert!(rt; text.ends_with("in upper or lower case.\n"));
    }
    for argument in ["-V", "--version"] {
        let arguments = ["csvtable", argument];
        assert_says(
            &rt,
            &ending_by(&rt, &arguments),
            0,
            false,
            "csvtable 0.1.0\n",
        );
    }
}

// An unknown argument, and an argument without its value.
#[test]
fn mistakes_are_messages(rt: HostRuntime) {
    let text = "error: csvtable draws one file; try mlr --csv cat FILE FILE | csvtable

Usage: csvtable [OPTIONS] [FILE]

For more information, try '--help'.
";
    let arguments = ["csvtable", "a.csv", "b.csv"];
    assert_says(&rt, &ending_by(&rt, &arguments), 2, true, text);
    let text = "error: unexpected argument '--json' found

Usage: csvtable [OPTIONS] [FILE]

For more information, try '--help'.
";
    let arguments = ["csvtable", "--json", "a.csv"];
    assert_says(&rt, &ending_by(&rt, &arguments), 2, true, text);
    let text = "error: a value is required for '--width <N>' but none was supplied

For more information, try '--help'.
";
    let arguments = ["csvtable", "-w"];
    assert_says(&rt, &ending_by(&rt, &arguments), 2, true, text);
}

// Fails unless these arguments are refused for this reason.
fn assert_refused<'a>(
    rt: &(impl Abort + Alloc<A = Global>),
    arguments: &'a [&'a str],
    reason: &str,
) {
    let ending = ending_by(rt, arguments);
    let message = ending.message.text();
    assert!(rt; ending.status == 2 && ending.is_message);
    let line = message.split('\n').next().unwrap_or("");
    assert_eq!(rt; line.strip_prefix("error: ").unwrap_or(""), reason);
}

// Messages list the numbers and the encodings that an option takes, and recommend another option if
// that may be meant. A word after `--` isn't the value of an option.
#[test]
fn words_that_are_no_numbers(rt: HostRuntime) {
    let cases = [
        (
            ["csvtable", "-w", "-5"],
            "-w takes a number from 0 to 65535, not '-5'",
        ),
        (
            ["csvtable", "--width", "65536"],
            "--width takes a number from 0 to 65535, not '65536'",
        ),
        (
            ["csvtable", "--limit", "x\u{1b}"],
            "--limit takes a number from 0 to 18446744073709551615, not 'x\u{fffd}'",
        ),
        (
            ["csvtable", "--width=x", "-n"],
            "--width takes a number from 0 to 65535, not 'x'",
        ),
        (
            ["csvtable", "-wabc", "-n"],
            "-w takes a number from 0 to 65535, not 'abc'",
        ),
        (
            ["csvtable", "-n", "-w=-5"],
            "-w takes a number from 0 to 65535, not '-5'",
        ),
        (
            ["csvtable", "-n", "-m1k"],
            "-m takes a number from 0 to 18446744073709551615, not '1k'",
        ),
        (
            ["csvtable", "-n", "--skip=1k"],
            "--skip takes a number from 0 to 18446744073709551615, not '1k'",
        ),
        (
            ["csvtable", "--unknown", "-w"],
            "unexpected argument '--unknown' found",
        ),
        (
            ["csvtable", "a.csv", "-n5"],
            "for the first records type --limit 5; -n means no header",
        ),
        (
            ["csvtable", "--head", "5"],
            "for the first records type --limit 5; -n means no header",
        ),
        (
            ["csvtable", "a.csv", "--no-wrap"],
            "-w 0 wraps nothing; -m 1 draws each row on one line",
        ),
        (
            ["csvtable", "-e", "cp1250"],
            "csvtable reads utf-8, utf-16 and cp1252; for others try iconv -f cp1250 FILE | \
                csvtable",
        ),
        (
            ["csvtable", "a.csv", "--encoding=latin2"],
            "csvtable reads utf-8, utf-16 and cp1252; for others try iconv -f latin2 FILE | \
                csvtable",
        ),
        (
            ["csvtable", "a.csv", "-esjis"],
            "csvtable reads utf-8, utf-16 and cp1252; for others try iconv -f sjis FILE | \
                csvtable",
        ),
        (
            ["csvtable", "-eUTF-8", "--styl=x"],
            "unexpected argument '--styl' found",
        ),
        (
            ["csvtable", "a.csv", "--sort=a"],
            "csvtable doesn't sort; try mlr --csv sort -nr COLUMN FILE | csvtable",
        ),
        (
            ["csvtable", "--filter", "a<0"],
            "csvtable doesn't filter; try mlr --csv filter '$COLUMN < 0' FILE | csvtable",
        ),
    ];
    for (arguments, reason) in &cases {
        assert_refused(&rt, arguments.as_slice(), reason);
    }
    let arguments = ["csvtable", "-n", "5", "a.csv"];
    let reason = "for the first records type --limit 5; -n means no header";
    assert_refused(&rt, &arguments, reason);
    let arguments = ["csvtable", "--", "-w", "-5"];
    assert_refused(&rt, &arguments, "unexpected argument '-5' found");
    let arguments = ["csvtable", "-e", ""];
    let reason = "a value is required for '--encoding <NAME>' but none was supplied";
    assert_refused(&rt, &arguments, reason);
}

// The message quotes a word that can't be a delimiter.
#[test]
fn words_that_are_no_delimiters(rt: HostRuntime) {
    let cases = [
        (
            ["csvtable", "-d", "comma"],
            "a delimiter is `tab`, `spaces`, `auto` or one ASCII character other than a quote or \
             a line end, not 'comma'",
        ),
        (
            ["csvtable", "-d", ""],
            "a delimiter is `tab`, `spaces`, `auto` or one ASCII character other than a quote or \
             a line end, not ''",
        ),
    ];
    for (arguments, reason) in &cases {
        assert_refused(&rt, arguments.as_slice(), reason);
    }
}

#[test]
fn words_that_can_not_be_read(rt: HostRuntime) {
    let ending = ending_without_arguments(ErrorKind::InvalidData);
    assert_says(&rt, &ending, 2, true, "csvtable: an argument isn't UTF-8\n");
    let ending = ending_without_arguments(ErrorKind::OutOfMemory);
    assert_says(&rt, &ending, 1, true, "csvtable: out of memory\n");
}
