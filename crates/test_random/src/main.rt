//! Draws random tables of difficult texts, and checks each drawing. With each table it draws a
//! second table, of texts in many scripts. The edges of the second table must be straight if its
//! characters fit their columns. The program also prints how many other tables aren't straight,
//! which is no fault. Standard input has `SEED COUNT`: the same seed gives the same tables. Each
//! fault is printed with the number of its table. The status is 1 if there is a fault.
#![tactic(auto)]

mod check;
mod contents;
mod controls;
mod drawing;
mod hidden;
mod kept;
mod sample;
mod scan;
mod scripts;
mod settings;
mod stays;
mod straight;
mod texts;

use anyhow::Context;
use comfy_table::Result;
use rand_core::SeedableRng;
use rand_pcg::Pcg32;
use sample::Sample;
use std::alloc::Global;
use std::process::ExitCode;

// the message for an input that isn't `SEED COUNT`
const WANTED: &str = "SEED COUNT is wanted";

// the number of tables with a fault, and the number of tables that aren't straight and needn't be
#[derive(Clone, Copy)]
struct Counts {
    faults: u64,
    crooked: u64,
}

fn main(rt: HostRuntime) -> anyhow::Result<ExitCode> {
    let (seed, count) = read_arguments(&rt)?;
    let counts = look_at(&rt, Pcg32::seed_from_u64(seed), count)?;
    println!(rt; "{} crooked tables without the premise", counts.crooked)?;
    println!(rt; "{count} tables, {} faults", counts.faults)?;
    if counts.faults == 0 {
        Ok(ExitCode::SUCCESS)
    } else {
        Ok(ExitCode::FAILURE)
    }
}

// the counts of this many tables; each fault is printed
fn look_at(rt: &HostRuntime, rng: Pcg32, count: u64) -> anyhow::Result<Counts> {
    let mut rng = rng;
    let mut counts = Counts {
        faults: 0,
        crooked: 0,
    };
    for number in 0..count {
        let (fault, is_crooked) = next_found(rt.alloc(), &mut rng)?;
        if let Some(fault) = fault {
            println!(rt; "table {number}: {fault}")?;
        }
        counts = counted(counts, fault.is_some(), is_crooked);
    }
    Ok(counts)
}

fn counted(counts: Counts, has_fault: bool, is_crooked: bool) -> Counts {
    Counts {
        faults: counts.faults.saturating_add(u64::from(has_fault)),
        crooked: counts.crooked.saturating_add(u64::from(is_crooked)),
    }
}

// the fault of the next sample, or else of the next table of many scripts, and true if that table
// isn't straight and needn't be
fn next_found(alloc: Global, rng: &mut Pcg32) -> Result<(Option<&'static str>, bool)> {
    let of_sample = fault_of_sample(alloc, rng)?;
    let edges = straight::next_edges(alloc, rng)?;
    Ok((of_sample.or(edges.fault), edges.are_crooked))
}

fn fault_of_sample(alloc: Global, rng: &mut Pcg32) -> Result<Option<&'static str>> {
    let sample = Sample::new(alloc, rng, false)?;
    check::fault_of(alloc, &sample)
}

// the seed, and the number of tables
fn read_arguments(rt: &HostRuntime) -> anyhow::Result<(u64, u64)> {
    let line = rt.lines(rt.alloc()).next().context(WANTED)??;
    seed_and_count(line.as_str()).context(WANTED)
}

fn seed_and_count(line: &str) -> Option<(u64, u64)> {
    let (seed, count) = line.split_once(' ')?;
    Some((seed.parse::<u64>().ok()?, count.parse::<u64>().ok()?))
}
