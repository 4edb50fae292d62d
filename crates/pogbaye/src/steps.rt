//! The steps from a file to its ticked schema, each of which tells what it did.
use crate::arguments::Tick;
use crate::failure::Failure;
use crate::paths::{LeafPath, Titled};
use crate::schema::print_schema;
use crate::ticks::{Ticks, plan_ticks};
use directory::LeafPaths;
use planner::Plan;
use sheet::{
    ElementRecord, ExpressionRecord, LeafRecord, NameRef, NodeRecord, RootRecord, Sheet,
    TypeRecord, open,
};
use std::{fmt, fs, io};

/// How many records each section of a sheet has.
#[derive(Clone, Copy)]
struct Counts<'a>(&'a Sheet);

impl fmt::Display for Counts<'_> {
    fn fmt<W: fmt::Write>(&self, f: &mut fmt::Formatter<W>) -> fmt::Result {
        let sheet = self.0;
        let names = sheet.names().len();
        let types = sheet.count::<TypeRecord>();
        let roots = sheet.count::<RootRecord>();
        let leaves = sheet.count::<LeafRecord>();
        let parts = sheet.count::<NameRef>();
        let elements = sheet.count::<ElementRecord>();
        let nodes = sheet.count::<NodeRecord>();
        let expressions = sheet.count::<ExpressionRecord>();
        write!(
            f,
            "names {names}, types {types}, roots {roots}, leaves {leaves}, parts {parts}"
        )?;
        write!(
            f,
            ", elements {elements}, nodes {nodes}, expressions {expressions}"
        )
    }
}

/// Numbers in a row.
#[derive(Clone, Copy)]
struct Numbers<'a>(&'a [usize]);

impl fmt::Display for Numbers<'_> {
    fn fmt<W: fmt::Write>(&self, f: &mut fmt::Formatter<W>) -> fmt::Result {
        let Some((first, rest)) = self.0.split_first() else {
            return f.write_str("none");
        };
        write!(f, "{first}")?;
        for number in rest {
            write!(f, " {number}")?;
        }
        Ok(())
    }
}

/// Reads a file and opens the sheet that it holds.
pub(crate) fn opened(rt: &HostRuntime, path: &str) -> Result<Sheet, Failure> {
    // A match, since the failure's text needs memory, for which a closure of `map_err` cannot ask.
    let bytes = match fs::read(rt, path) {
        Ok(bytes) => bytes,
        Err(error) => return Err(Failure::Unreadable(String::from_str(rt.alloc(), path)?, error)),
    };
    let count = bytes.len();
    println!(rt; "read {path}: {count} bytes")?;
    let sheet = open(bytes)?;
    let counts = Counts(&sheet);
    println!(rt; "opened the sheet: {counts}")?;
    Ok(sheet)
}

fn print_plan(rt: &HostRuntime, columns: usize, plan: &Plan) -> io::Result<()> {
    let fields = plan.field_count();
    let types = plan.type_count();
    let leaves = plan.leaf_count();
    println!(rt;
        "planned to read: columns {columns}, fields {fields}, types {types}, leaves {leaves}"
    )
}

fn print_ticks<D: LeafPaths>(rt: &HostRuntime, directory: &D, leaves: &[usize]) -> io::Result<()> {
    let numbers = Numbers(leaves);
    println!(rt; "ticked leaves: {numbers}")?;
    for leaf in leaves {
        let path = LeafPath {
            directory,
            leaf: *leaf,
        };
        println!(rt; "{leaf:>4}  {path}")?;
    }
    Ok(())
}

/// Asks a directory of the sheet, plans, and prints the schema and the leaves that are read.
pub(crate) fn show<D: LeafPaths + Titled>(
    rt: &HostRuntime,
    sheet: &Sheet,
    directory: &D,
    asked: &Tick,
) -> Result<(), Failure> {
    let title = directory.title();
    let count = directory.count();
    println!(rt; "asked the {title} directory: leaves {count}")?;
    let Ticks { plan, leaves } = plan_ticks(rt.alloc(), sheet, directory, &asked.columns)?;
    print_plan(rt, asked.columns.len(), &plan)?;
    let in_schema = print_schema(rt, sheet, &leaves)?;
    if in_schema != count {
        println!(rt; "the schema has {in_schema} leaves, but the directory has {count}")?;
    }
    print_ticks(rt, directory, &leaves)?;
    Ok(())
}
