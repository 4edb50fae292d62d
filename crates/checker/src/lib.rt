//! Inner: for our own crates. What an expression needs of a file.
#![tactic(auto)]

mod columns;
mod data_type;
mod nodes;
mod projection_read_plan;
mod recursion;
mod root_set;
mod state;
mod supported_predicates;

pub use columns::PushdownColumns;
pub use root_set::{RootList, RootSet};
pub use state::PushdownChecker;
pub use supported_predicates::supports_list_predicates;
