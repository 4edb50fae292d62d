//! Inner: for our own crates. Which leaves of a nested type a cast needs. `TypePair::of` asks that both places lie in the
//! table of types.
#![tactic(auto)]

mod keeping;
mod nested_schema_pruning;
mod pairs;
mod records;
mod tables;
mod type_pair;

pub use nested_schema_pruning::{contains_struct, count_leaves};
pub use tables::{Clip, ClipTable};
pub use type_pair::TypePair;
