//! What a checker comes to.
use crate::root_set::RootList;
use access::{CastColumnAccess, StructFieldAccess};
use arrayvec::ArrayVec;

/// The roots that are required, ascending, each once; the accesses and the casts, in the order in which they were found.
#[derive(Drop)]
pub struct PushdownColumns {
    pub required_columns: RootList,
    pub struct_field_accesses: ArrayVec<StructFieldAccess, 256>,
    pub cast_accesses: ArrayVec<CastColumnAccess, 256>,
}
