//! What faults mean, in words.
use sheet::Fault;
use std::fmt;

// A section by its number. The header counts as 0. A function, since the numbers are plain ones, and `Fault` is not this crate's.
fn section_name(section: u16) -> &'static str {
    match section {
        0 => "header",
        1 => "names",
        2 => "types",
        3 => "roots",
        4 => "leaves",
        5 => "parts",
        6 => "elements",
        7 => "nodes",
        8 => "expressions",
        _ => "no section",
    }
}

// A function, since `Fault` is not this crate's.
fn meaning(fault: Fault) -> &'static str {
    match fault {
        Fault::BadExtent { section: 0 } => "the length or the form number is wrong",
        Fault::BadExtent { .. } => "the section does not lie in the sheet",
        Fault::TooMany { .. } => "the section has too many records",
        Fault::BadRecord { .. } => "the record is bad",
        Fault::NoExpression { .. } => "there is no such expression",
        Fault::TablesFull { .. } => "the tables of the collection are full",
        Fault::NoRoot { .. } => "there is no such root",
        Fault::ShortBuffer => "a buffer is too short",
        Fault::BadValue { .. } => "a value of the record is bad",
        Fault::NoColumn { .. } => "the record lacks the column",
        Fault::NoField { .. } => "the value lacks the field",
        Fault::NoCast { .. } => "the value cannot be cast",
        Fault::Host { .. } => "the function failed",
    }
}

/// Where a fault lies.
#[derive(Clone, Copy)]
struct Place(Fault);

impl fmt::Display for Place {
    fn fmt<W: fmt::Write>(&self, f: &mut fmt::Formatter<W>) -> fmt::Result {
        match self.0 {
            Fault::BadExtent { section } | Fault::TooMany { section } => {
                f.write_str(section_name(section))
            }
            Fault::BadRecord { section, record } => {
                let name = section_name(section);
                write!(f, "{name}, record {record}")
            }
            other => {
                let place = other.place();
                write!(f, "place {place}")
            }
        }
    }
}

/// A fault in one line: its number, its meaning, and where it lies.
#[derive(Clone, Copy)]
pub(crate) struct FaultText(pub Fault);

impl fmt::Display for FaultText {
    fn fmt<W: fmt::Write>(&self, f: &mut fmt::Formatter<W>) -> fmt::Result {
        let number = self.0.number();
        let meaning = meaning(self.0);
        let place = Place(self.0);
        write!(f, "refused with fault {number}, {meaning}: {place}")
    }
}
