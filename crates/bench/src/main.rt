//! Measures how long sheets of three sizes take to open, and how long their directories take to answer. The times go to
//! standard error.
#![tactic(auto)]

mod counts;
mod made;
mod measures;
mod questions;
mod records;

use crate::counts::{Counts, HALF, LARGEST, QUARTER};
use crate::made::made_sheet;
use crate::measures::{PerUnit, opened, time_opens};
use crate::questions::{Timing, time_makings, time_questions};
use directory::{FlattenedDirectory, LeafDirectory, ListedDirectory};
use std::io;

// How often a sheet is opened.
const OPENS: u32 = 200;

// How often a directory is made, and is asked all its questions.
const ROUNDS: u32 = 200;

fn measure_opens(rt: &HostRuntime, bytes: &[u8]) -> anyhow::Result<()> {
    let time = time_opens(rt, bytes, OPENS)?;
    let count = u32::try_from(bytes.len())?;
    let per_open = PerUnit { time, units: OPENS };
    let per_byte = PerUnit {
        time,
        units: OPENS.saturating_mul(count),
    };
    eprintln!(rt; "{count} bytes: {per_open} ns per open, {per_byte} ns per byte")?;
    Ok(())
}

fn tell(rt: &HostRuntime, directory: &str, unit: &str, timing: Timing) -> io::Result<()> {
    let per_unit = timing.per_unit;
    let units = per_unit.units;
    let sum = timing.sum;
    eprintln!(rt; "  {directory}: {per_unit} ns per {unit}, {units} times, sum {sum}")
}

// Measures one directory, and tells on standard output how many leaves it has and how many questions a round asks.
fn measure_directory<D: LeafDirectory>(
    rt: &HostRuntime,
    title: &str,
    directory: &D,
) -> anyhow::Result<()> {
    let timing = time_questions(rt, directory, ROUNDS)?;
    tell(rt, title, "question", timing)?;
    let leaves = directory.count();
    let questions = timing.per_unit.units / ROUNDS;
    println!(rt; "{title}: {leaves} leaves, {questions} questions")?;
    Ok(())
}

fn measure(rt: &HostRuntime, counts: Counts) -> anyhow::Result<()> {
    let bytes = made_sheet(rt.alloc(), counts)?;
    let length = bytes.len();
    println!(rt; "{length} bytes")?;
    measure_opens(rt, &bytes)?;
    let sheet = opened(rt.alloc(), &bytes)?;
    measure_directory(rt, "listed", &ListedDirectory::new(&sheet))?;
    measure_directory(rt, "flattened", &FlattenedDirectory::new(&sheet))?;
    tell(rt, "flattened", "making", time_makings(rt, &sheet, ROUNDS)?)?;
    Ok(())
}

fn run(rt: &HostRuntime) -> anyhow::Result<()> {
    for counts in [QUARTER, HALF, LARGEST] {
        measure(rt, counts)?;
    }
    println!(rt; "bench: done")?;
    Ok(())
}

fn main(rt: HostRuntime) -> anyhow::Result<()> {
    run(&rt)
}
