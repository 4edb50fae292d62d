//! Inner: for the crate `sheet`, which opens bytes and looks records up in them, and for the flattened directory, which
//! keeps the open elements. What is here may ask something of its caller.
pub use crate::decode::{Record, Records, count_in, cut};
pub use crate::layout::{Layout, Section};
pub use crate::opening::checked;
pub use crate::opens::{Open, OpenElements};
