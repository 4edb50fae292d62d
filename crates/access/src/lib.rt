//! Inner: for our own crates. The records by which accesses and casts are written down, and the pruning of types by accesses.
#![tactic(auto)]

mod accesses;
mod paths;
mod prune;

pub use accesses::{CastColumnAccess, StructFieldAccess};
pub use prune::{has_access, prune_struct_type};
