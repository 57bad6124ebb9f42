//! Prints the results of a run of tests: PASS and FAIL in colours, right-aligned times, and long
//! messages that are cut at three lines.
//!
//! The report is as wide as COLUMNS says, and has colours if it is printed on a terminal and
//! NO_COLOR isn't set. Arguments override this: `color` or `plain`, and then one or more widths.
//! The report is printed once for each width.
#![tactic(auto)]

mod report;

use anyhow::Context;
use comfy_table::{Table, Terminal};
use report::{Test, fill};
use std::env;
use std::io::IsTerminal;

const TESTS: &[Test] = &[
    Test {
        name: "parse::empty",
        millis: 3,
        failure: None,
    },
    Test {
        name: "parse::nested",
        millis: 1_204,
        failure: None,
    },
    Test {
        name: "store::crash",
        millis: 61_007,
        failure: Some(
            "17 records wanted, 16 found: the second of two writes is lost although \
             the log was flushed before it (src/log.rs:214)",
        ),
    },
    Test {
        name: "store::open",
        millis: 12,
        failure: None,
    },
];

fn main(rt: HostRuntime) -> anyhow::Result<()> {
    let mut report = Table::new(rt.alloc());
    fill(&mut report, rt.alloc(), TESTS)?;
    obey(&rt, &mut report)
}

// prints the report as the arguments request
fn obey(rt: &HostRuntime, report: &mut Table) -> anyhow::Result<()> {
    let mut terminal = terminal(rt);
    let mut is_printed = false;
    for word in env::args(rt)?.skip(1) {
        match word.as_str() {
            "color" => terminal.stdout_is_tty = true,
            "plain" => terminal.stdout_is_tty = false,
            width => {
                let width = width.parse::<u16>().context("no such width")?;
                print(rt, report.set_width(width).set_terminal(terminal))?;
                is_printed = true;
            }
        }
    }
    if is_printed {
        return Ok(());
    }
    let width = terminal.width.unwrap_or(80);
    print(rt, report.set_width(width).set_terminal(terminal))
}

fn print(rt: &HostRuntime, table: &Table) -> anyhow::Result<()> {
    println!(rt; "{}", table.to_text()?)?;
    Ok(())
}

// the facts about the terminal; colours are written if standard output is a terminal and NO_COLOR
// isn't set
fn terminal(rt: &HostRuntime) -> Terminal {
    let columns = env::var(rt, "COLUMNS").ok();
    Terminal {
        stdout_is_tty: rt.stdout().is_terminal() && env::var(rt, "NO_COLOR").is_err(),
        stderr_is_tty: false,
        width: columns.and_then(|text| text.parse::<u16>().ok()),
    }
}
