//! Inner: for our own crates, which go from place to place in a sheet. What is here may ask something of its caller.
pub use crate::children::Children;
pub use crate::node_ref::NodeRef;
pub use crate::type_ref::TypeRef;
