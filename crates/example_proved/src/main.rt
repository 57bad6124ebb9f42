//! Prints a summary of benchmarks. A contract has the facts on which its readers rely: all lines
//! are equally wide, none is wider than the width, and no text is lost.
#![tactic(auto)]

mod summary;

use std::alloc::Global;
use summary::{Measurement, summary};

const MEASURED: [(&str, u64, u64); 3] = [
    ("parse a file of 1000 records", 1_204_113, 100),
    ("sort", 88_410, 1000),
    ("draw the table in colours", 3_902_750, 50),
];

fn main(rt: HostRuntime) -> anyhow::Result<()> {
    let measurements = measured(rt.alloc())?;
    for line in summary(rt.alloc(), measurements, 40)? {
        println!(rt; "{line}")?;
    }
    Ok(())
}

// the result that a run of benchmarks would give
fn measured(alloc: Global) -> anyhow::Result<Vec<Measurement>> {
    let mut measurements = Vec::new(alloc);
    for (name, nanos, runs) in MEASURED {
        let name = String::from_str(alloc, name)?;
        measurements.push(Measurement { name, nanos, runs })?;
    }
    Ok(measurements)
}
