//! The schema of a sheet as a tree.
use crate::names::NameText;
use sheet::{RootRecord, Sheet, TypeKind, TypeRecord};
use std::alloc::Global;
use std::{fmt, io};

/// What a leaf holds.
#[derive(Clone, Copy)]
enum LeafCode {
    Boolean,
    Integer,
    Text,
    Opaque(u16),
}

impl From<u16> for LeafCode {
    fn from(code: u16) -> LeafCode {
        match code {
            1 => LeafCode::Boolean,
            2 => LeafCode::Integer,
            3 => LeafCode::Text,
            other => LeafCode::Opaque(other),
        }
    }
}

impl fmt::Display for LeafCode {
    fn fmt<W: fmt::Write>(&self, f: &mut fmt::Formatter<W>) -> fmt::Result {
        match *self {
            LeafCode::Boolean => f.write_str("boolean"),
            LeafCode::Integer => f.write_str("integer"),
            LeafCode::Text => f.write_str("text"),
            LeafCode::Opaque(code) => write!(f, "opaque {code}"),
        }
    }
}

/// The kind of a type by the layout's number, as a record has it, with what its detail says.
#[derive(Clone, Copy)]
struct KindText {
    kind: u8,
    detail: u16,
}

impl fmt::Display for KindText {
    fn fmt<W: fmt::Write>(&self, f: &mut fmt::Formatter<W>) -> fmt::Result {
        let detail = self.detail;
        match TypeKind::try_from(self.kind) {
            Ok(TypeKind::Leaf) => {
                let code = LeafCode::from(detail);
                write!(f, "leaf ({code})")
            }
            Ok(TypeKind::Struct) => f.write_str("Struct"),
            Ok(TypeKind::List) => f.write_str("List"),
            Ok(TypeKind::LargeList) => f.write_str("LargeList"),
            Ok(TypeKind::ListView) => f.write_str("ListView"),
            Ok(TypeKind::LargeListView) => f.write_str("LargeListView"),
            Ok(TypeKind::FixedSizeList) => write!(f, "FixedSizeList({detail})"),
            Ok(TypeKind::Map) => f.write_str("Map"),
            Err(_) => f.write_str("no kind"),
        }
    }
}

/// A type in one line: its name, its kind, and whether it may be null.
#[derive(Clone, Copy)]
struct TypeLine<'a> {
    sheet: &'a Sheet,
    record: TypeRecord,
}

impl fmt::Display for TypeLine<'_> {
    fn fmt<W: fmt::Write>(&self, f: &mut fmt::Formatter<W>) -> fmt::Result {
        let name = NameText(self.sheet.name(self.record.name));
        let kind = KindText {
            kind: self.record.kind,
            detail: self.record.detail,
        };
        let null = if self.record.nullable == 1 {
            "nullable"
        } else {
            "not null"
        };
        write!(f, "{name}: {kind}, {null}")
    }
}

/// What stands at the left of a type: for a leaf its number, and a tick if it is read.
#[derive(Clone, Copy)]
enum Margin {
    Blank,
    Ticked(usize),
    Unticked(usize),
}

impl fmt::Display for Margin {
    fn fmt<W: fmt::Write>(&self, f: &mut fmt::Formatter<W>) -> fmt::Result {
        match *self {
            Margin::Blank => f.write_str("        "),
            Margin::Ticked(leaf) => write!(f, "[x] {leaf:>4}"),
            Margin::Unticked(leaf) => write!(f, "[ ] {leaf:>4}"),
        }
    }
}

/// Prints the tree, and counts its leaves on the way.
#[derive(Drop)]
struct TreePrinter<'a> {
    sheet: &'a Sheet,
    ticks: &'a [usize],
    leaves: usize,
    // Where the types around the present place end, the outermost first.
    ends: Vec<usize>,
}

impl<'a> TreePrinter<'a> {
    fn new(heap: Global, sheet: &'a Sheet, ticks: &'a [usize]) -> TreePrinter<'a> {
        TreePrinter {
            sheet,
            ticks,
            leaves: 0,
            ends: Vec::new(heap),
        }
    }

    // How many types are around the one at a place.
    fn depth(&self, place: usize) -> usize {
        self.ends
            .iter()
            .position(|end| *end <= place)
            .unwrap_or(self.ends.len())
    }

    // The margin of the next type. A leaf takes the next number.
    fn margin(&mut self, record: TypeRecord) -> Margin {
        let Ok(TypeKind::Leaf) = TypeKind::try_from(record.kind) else {
            return Margin::Blank;
        };
        let leaf = self.leaves;
        self.leaves = leaf.saturating_add(1);
        if self.ticks.contains(&leaf) {
            Margin::Ticked(leaf)
        } else {
            Margin::Unticked(leaf)
        }
    }

    fn print_type(&mut self, rt: &HostRuntime, place: usize) -> io::Result<()> {
        let record = self.sheet.record::<TypeRecord>(place);
        let depth = self.depth(place);
        self.ends.truncate(depth);
        self.ends.push(place.saturating_add(record.span as usize))?;
        let margin = self.margin(record);
        let indent = depth.saturating_mul(2);
        let line = TypeLine {
            sheet: self.sheet,
            record,
        };
        println!(rt; "{margin}  {:indent$}{line}", "")
    }

    fn print_root(&mut self, rt: &HostRuntime, root: usize) -> io::Result<()> {
        let top = self.sheet.record::<RootRecord>(root).type_place as usize;
        let span = self.sheet.record::<TypeRecord>(top).span as usize;
        self.ends.clear();
        for place in top..top + span {
            self.print_type(rt, place)?;
        }
        Ok(())
    }
}

/// Prints all roots, one behind the other, and tells how many leaves they have.
pub(crate) fn print_schema<'a>(
    rt: &HostRuntime,
    sheet: &'a Sheet,
    ticks: &'a [usize],
) -> io::Result<usize> {
    let mut printer = TreePrinter::new(rt.alloc(), sheet, ticks);
    for root in 0..sheet.count::<RootRecord>() {
        printer.print_root(rt, root)?;
    }
    Ok(printer.leaves)
}
