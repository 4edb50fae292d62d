//! Sheets: a file's schema, its leaves and expressions over it, packed into bytes.
#![tactic(auto)]

mod children;
pub mod inner;
mod node_ref;
mod sections;
mod sheet;
mod type_ref;

pub use format::{
    ElementRecord, ExpressionRecord, Fault, LeafRecord, LiteralKind, NameRef, NodeKind, NodeRecord,
    RootRecord, TypeKind, TypeRecord, UnknownKind,
};
pub use sections::SectionRecord;
pub use sheet::{Sheet, Unopened, open};
