//! The examples of doc comments of `csv_records`, `devices`, `comfy_run` and `csv_command`, each
//! line as it is there. `tools/make/doc_examples.py --check` compares them.

use super::large::options;
use super::streams::PLAIN;
use crate::support::assert_bytes;
use comfy_run::run::{
    FromReader, MemorySink, MemorySource, RunError, Settings, ToWriter, render_tsv, run,
};
use comfy_table::ContentArrangement;
use comfy_table::presets::UTF8_FULL;
use csv_command::{CsvError, Options, Refusal, draw, render_csv};
use csv_records::{InputOptions, Records, RecordsError, is_number, read_records};
use std::alloc::{Alloc, AllocError, Global};
use std::process::Abort;

fn records_of_a_text(
    rt: &impl Abort,
    alloc: Global,
    options: InputOptions,
) -> Result<(), RecordsError> {
    let records = read_records(alloc, "name,days\noats,3\n", &options)?;
    let below = records.rows().rows_after(1);
    // one record, whose field at position 1 is 3
    assert!(rt; below.len() == 1);
    let record = below.first().expect(rt, "a record");
    assert!(rt; record.get(1) == Some("3"));
    Ok(())
}

fn records_of_fields(rt: &impl Abort, alloc: Global) -> Result<(), AllocError> {
    let records = Records::from_fields(alloc, &["name", "days", "oats", "3"], &[2, 2])?;
    // two records of two fields each
    let records = records.expect(rt, "records");
    assert!(rt; records.rows().len() == 2);
    let second = records.rows().rows_after(1).first().expect(rt, "a record");
    assert!(rt; second.len() == 2 && second.get(0) == Some("oats"));
    Ok(())
}

#[test]
fn records_are_made(rt: HostRuntime) {
    let options = options(rt.alloc(), None, false).input;
    records_of_a_text(&rt, rt.alloc(), options).expect(&rt, "records");
    records_of_fields(&rt, rt.alloc()).expect(&rt, "memory");
}

#[test]
fn fields_are_numbers(rt: HostRuntime) {
    assert!(rt; is_number("-1_000.5e3"));
    assert!(rt; is_number("($12,50)"));
    assert!(rt; is_number("1.234,56 €"));
    assert!(rt; is_number("EUR -5"));
    assert!(rt; is_number("4 GiB"));
}

const UNDER_NAMES: &str = "\
┌──────┬──────┐
│ name ┆ days │
╞══════╪══════╡
│ oats ┆ 3    │
└──────┴──────┘
";

const GRID: &str = "\
╭───┬───╮
│ a ┆ b │
╞═══╪═══╡
│ 1 ┆ 2 │
╰───┴───╯
";

const SMALL: &str = "\
+---+---+
| a | b |
+=======+
| 1 | 2 |
+---+---+
";

fn drawing_of_tabs(
    rt: &(impl Abort + Alloc<A = Global>),
    settings: Settings,
) -> comfy_table::Result<String> {
    let drawing = render_tsv(rt.alloc(), "name\tdays\noats\t3\n", settings)?;
    Ok(drawing)
}

fn drawing_of_commas(rt: &(impl Abort + Alloc<A = Global>)) -> Result<String, Refusal> {
    let drawing = render_csv(rt.alloc(), &["csvtable", "-s", "grid"], b"a,b\n1,2\n")?;
    Ok(drawing)
}

#[test]
fn texts_are_drawn(rt: HostRuntime) {
    let settings = Settings {
        width: Some(80),
        arrangement: ContentArrangement::Dynamic,
        style: UTF8_FULL,
    };
    let drawing = drawing_of_tabs(&rt, settings).expect(&rt, "memory");
    assert!(rt; drawing.as_str() == UNDER_NAMES);
    let drawing = drawing_of_commas(&rt).expect(&rt, "a drawing");
    assert!(rt; drawing.as_str() == GRID);
}

fn run_in_memory(rt: &(impl Abort + Alloc<A = Global>)) -> comfy_table::Result<()> {
    let mut source = MemorySource::new(b"a\tb\n1\t2\n", 0);
    let mut sink = MemorySink::new(rt.alloc(), 4096, 0)?;
    assert!(rt; run(rt.alloc(), &mut source, &mut sink, PLAIN).is_ok());
    assert_bytes(rt, sink.bytes(), SMALL);
    Ok(())
}

#[test]
fn bytes_in_memory_are_drawn(rt: HostRuntime) {
    run_in_memory(&rt).expect(&rt, "memory");
}

fn tabs_from_standard_input(rt: &HostRuntime, settings: Settings) -> Result<(), RunError> {
    let mut source = FromReader::new(rt.stdin());
    let mut sink = ToWriter::new(rt.stdout());
    run(rt.alloc(), &mut source, &mut sink, settings)?;
    Ok(())
}

fn commas_from_standard_input(rt: &HostRuntime, options: Options) -> Result<(), CsvError> {
    let mut source = FromReader::new(rt.stdin());
    let mut sink = ToWriter::new(rt.stdout());
    draw(rt.alloc(), &mut source, &mut sink, &options)?;
    Ok(())
}

// The gate gives tests no input. Without one, the table is empty, and there are no records.
#[test]
fn standard_input_is_drawn(rt: HostRuntime) {
    tabs_from_standard_input(&rt, PLAIN).expect(&rt, "an empty table");
    commas_from_standard_input(&rt, options(rt.alloc(), None, false)).expect(&rt, "no records");
}
