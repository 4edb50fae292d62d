//! Plans which leaf columns of a file are read.
#![tactic(auto)]

mod assemble;
mod leaves;
mod projection_read_plan;
mod readings;

pub use projection_read_plan::{Plan, field_room, root_level_plan, schema_is_of_the_file};
