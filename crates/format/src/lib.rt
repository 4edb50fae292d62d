//! The byte format of sheets: records, sections, and which fault bytes have.
#![tactic(auto)]

mod check;
mod decode;
mod elements;
mod fault;
mod forms;
pub mod inner;
mod kinds;
mod layout;
mod opening;
mod opens;
mod read;
mod records;
mod search;

pub use fault::Fault;
pub use kinds::{LiteralKind, NodeKind, TypeKind, UnknownKind};
pub use records::{
    ElementRecord, ExpressionRecord, LeafRecord, NameRef, NodeRecord, RootRecord, TypeRecord,
};
