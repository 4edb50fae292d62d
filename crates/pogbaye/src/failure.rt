//! Why nothing, or not all, was shown.
use crate::fault_text::FaultText;
use sheet::{Fault, Unopened};
use std::alloc::{AllocError, AllocFailed};
use std::fmt::Display;
use std::{fmt, io};

#[derive(Drop)]
pub(crate) enum Failure {
    NoCommand,
    UnknownCommand(String),
    NoSheet,
    Unreadable(String, io::Error),
    /// The sheet, or a plan over it, is refused.
    Fault(Fault),
    UnknownColumn(String),
    /// The system failed: no memory, or an output that is closed.
    System(io::Error),
}

impl Failure {
    /// Whether the program was called in a wrong way.
    pub(crate) fn is_misuse(&self) -> bool {
        match self {
            Failure::NoCommand
            | Failure::UnknownCommand(_)
            | Failure::NoSheet
            | Failure::Unreadable(_, _)
            | Failure::UnknownColumn(_) => true,
            Failure::Fault(_) | Failure::System(_) => false,
        }
    }
}

impl fmt::Display for Failure {
    fn fmt<W: fmt::Write>(&self, f: &mut fmt::Formatter<W>) -> fmt::Result {
        match self {
            Failure::NoCommand => f.write_str("the command is missing"),
            Failure::UnknownCommand(name) => write!(f, "unknown command: {name}"),
            Failure::NoSheet => f.write_str("the file of the sheet is missing"),
            Failure::Unreadable(path, error) => write!(f, "cannot read {path}: {error}"),
            Failure::Fault(fault) => FaultText(*fault).fmt(f),
            Failure::UnknownColumn(name) => write!(f, "unknown column: {name}"),
            Failure::System(error) => write!(f, "{error}"),
        }
    }
}

impl From<Fault> for Failure {
    fn from(fault: Fault) -> Failure {
        Failure::Fault(fault)
    }
}

impl From<Unopened> for Failure {
    fn from(unopened: Unopened) -> Failure {
        Failure::Fault(unopened.fault)
    }
}

impl From<io::Error> for Failure {
    fn from(error: io::Error) -> Failure {
        Failure::System(error)
    }
}

impl From<AllocError> for Failure {
    fn from(error: AllocError) -> Failure {
        Failure::System(error.into())
    }
}

impl<T: Drop> From<AllocFailed<T>> for Failure {
    fn from(error: AllocFailed<T>) -> Failure {
        Failure::System(error.into())
    }
}
