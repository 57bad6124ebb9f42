//! The functions of `csv_promises`, each called on a file of two records. No clause states that
//! they return `Some`.

use crate::support::assert_bytes;
use comfy_run::run::MemorySink;
use csv_command::OutputContext;
use csv_promises::harmless::{harmless_drawing, harmless_message, harmless_output};
use csv_promises::kept::output_with_all_fields;
use csv_promises::markdown::markdown_output;
use csv_promises::straight::{
    straight_fitting_output, straight_output, straight_whole_output, straight_wide_output,
};
use csv_promises::width::output_within;
use csv_records::Records;
use std::alloc::{Alloc, Global};
use std::process::Abort;

const FILE: &str = "name,days\noats,3\n";

// A column of numbers is right-aligned.
const DRAWN: &str = "\
+------+------+
| name | days |
+=============+
| oats |    3 |
+------+------+
";

// In a terminal the header is bold: sequences surround each piece, with its paddings.
const DRAWN_IN_A_TERMINAL: &str = "\
+------+------+
|\u{1b}[1m name \u{1b}[0m|\u{1b}[1m days \u{1b}[0m|
+=============+
| oats |    3 |
+------+------+
";

const MARKDOWN: &str = "\
| name | days |
|------|-----:|
| oats |    3 |
";

// There is no width, also in a terminal.
const WORDS: [&str; 5] = ["csvtable", "-s", "ascii", "-w", "0"];

const TERMINAL: OutputContext<'static> = OutputContext {
    is_terminal: true,
    columns: None,
    no_color: None,
};

// Compares the records of the file, and their output.
fn assert_written(rt: &impl Abort, written: Option<(Records, MemorySink)>) {
    let (records, sink) = written.expect(rt, "a drawing");
    assert!(rt; records.rows().len() == 2);
    assert_bytes(rt, sink.bytes(), DRAWN_IN_A_TERMINAL);
}

#[test]
fn promised_outputs_are_those_of_the_program(rt: HostRuntime) {
    let input = FILE.as_bytes();
    let narrow = straight_output(rt.alloc(), &WORDS, TERMINAL, input, 200);
    let (_invocation, records, sink) = narrow.expect(&rt, "a drawing");
    assert_written(&rt, Some((records, sink)));
    let whole = straight_whole_output(rt.alloc(), &WORDS, TERMINAL, input, 200);
    let (_invocation, records, sink) = whole.expect(&rt, "a drawing");
    assert_written(&rt, Some((records, sink)));
    let fitting = straight_fitting_output(rt.alloc(), &WORDS, TERMINAL, input, 200);
    let (_invocation, records, sink) = fitting.expect(&rt, "a drawing");
    assert_written(&rt, Some((records, sink)));
    let wide = straight_wide_output(rt.alloc(), &WORDS, TERMINAL, input, 200);
    let (_invocation, records, sink) = wide.expect(&rt, "a drawing");
    assert_written(&rt, Some((records, sink)));
    let harmless = harmless_output(rt.alloc(), &WORDS, TERMINAL, input, 200);
    let (_invocation, sink) = harmless.expect(&rt, "a drawing");
    assert_bytes(&rt, sink.bytes(), DRAWN_IN_A_TERMINAL);
    let drawing = harmless_drawing(rt.alloc(), &WORDS, input).expect(&rt, "a drawing");
    assert!(rt; drawing.as_str() == DRAWN);
}

#[test]
fn promised_fields_are_those_of_the_records(rt: HostRuntime) {
    let input = FILE.as_bytes();
    let drawn = output_with_all_fields(rt.alloc(), &WORDS, TERMINAL, input, 200);
    let (_invocation, records, sink) = drawn.expect(&rt, "a drawing");
    assert_written(&rt, Some((records, sink)));
    assert!(rt; harmless_message(rt.alloc(), &WORDS, input).is_none());
    assert!(rt; harmless_message(rt.alloc(), &WORDS, b"\xff").is_some());
}

#[test]
fn promised_markdown_is_that_of_the_program(rt: HostRuntime) {
    let input = FILE.as_bytes();
    let drawn = markdown_output(
        rt.alloc(),
        &["csvtable", "--markdown"],
        TERMINAL,
        input,
        200,
    );
    let (_invocation, records, sink) = drawn.expect(&rt, "a drawing");
    assert!(rt; records.rows().len() == 2);
    assert_bytes(&rt, sink.bytes(), MARKDOWN);
    assert!(rt; markdown_output(rt.alloc(), &WORDS, TERMINAL, input, 200).is_none());
}

#[test]
fn promised_widths_are_those_of_the_program(rt: HostRuntime) {
    let input = FILE.as_bytes();
    let words = ["csvtable", "-s", "ascii", "-w", "40"];
    let drawn = output_within(rt.alloc(), &words, TERMINAL, input, 200);
    let (_invocation, records, sink) = drawn.expect(&rt, "a drawing");
    assert_written(&rt, Some((records, sink)));
    let filled = ["csvtable", "--full", "-w", "40", "--expanded", "never"];
    assert!(rt; output_within(rt.alloc(), &filled, TERMINAL, input, 1000).is_some());
}

// Returns true if `output_with_all_fields` returns a drawing for these words.
fn is_promised(rt: &impl Alloc<A = Global>, words: &[&str]) -> bool {
    output_with_all_fields(rt.alloc(), words, TERMINAL, FILE.as_bytes(), 400).is_some()
}

#[test]
fn chosen_and_expanded_fields_are_promised_too(rt: HostRuntime) {
    assert!(rt; is_promised(&rt, &["csvtable", "-x", "-w", "20"]));
    assert!(rt; is_promised(&rt, &["csvtable", "-c", "days", "--limit", "0"]));
    assert!(rt; is_promised(&rt, &["csvtable", "--drop", "1", "--expanded", "never"]));
    assert!(rt; is_promised(&rt, &["csvtable", "-l"]));
    assert!(rt; !is_promised(&rt, &["csvtable", "-m", "1"]));
}
