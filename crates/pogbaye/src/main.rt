//! Shows which leaf columns of a file are read for the columns that are asked for.
#![tactic(auto)]

mod arguments;
mod failure;
mod fault_text;
mod names;
mod paths;
mod schema;
mod steps;
#[cfg(test)]
mod tests;
mod ticks;

use crate::arguments::Tick;
use crate::failure::Failure;
use crate::steps::{opened, show};
use directory::{DirectoryKind, FlattenedDirectory, ListedDirectory};
use std::env;
use std::process::ExitCode;

const USAGE: &str = "usage: pogbaye tick [--flat] SHEET NAME...
Prints the schema of the sheet in the file SHEET, with a tick at each leaf column that is
read for the columns NAME..., and the paths of these leaves. A column is a root of the
schema; of several with one name it is the first. The leaves are those that the sheet
lists, or with --flat those of its flattened schema.";

fn tick(rt: &HostRuntime, asked: &Tick) -> Result<(), Failure> {
    let sheet = opened(rt, asked.sheet.as_str())?;
    // Two directories and no third: each arm is the generic code for its own.
    match asked.directory {
        DirectoryKind::Listed => show(rt, &sheet, &ListedDirectory::new(&sheet), asked),
        DirectoryKind::Flattened => show(rt, &sheet, &FlattenedDirectory::new(&sheet), asked),
    }
}

fn run(rt: &HostRuntime) -> Result<(), Failure> {
    let asked = Tick::read(rt.alloc(), env::args(rt)?)?;
    tick(rt, &asked)
}

// Says what went wrong, and how the program is called where that helps.
fn tell(rt: &HostRuntime, failure: &Failure) {
    let _ = eprintln!(rt; "pogbaye: {failure}");
    if failure.is_misuse() {
        let _ = eprintln!(rt; "{USAGE}");
    }
}

fn main(rt: HostRuntime) -> ExitCode {
    match run(&rt) {
        Ok(()) => ExitCode::SUCCESS,
        Err(failure) => {
            tell(&rt, &failure);
            ExitCode::FAILURE
        }
    }
}
