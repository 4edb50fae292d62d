//! The state of a checker.
use crate::root_set::RootSet;
use access::{CastColumnAccess, StructFieldAccess};
use arrayvec::ArrayVec;
use sheet::Sheet;

/// Goes through an expression and notes what it needs of the roots, and whether anything keeps it from being pushed down.
#[derive(Drop)]
pub struct PushdownChecker<'schema> {
    pub(crate) file_schema: &'schema Sheet,
    pub(crate) allow_list_columns: bool,
    pub(crate) collect_cast_accesses: bool,
    // A column's name is no root's.
    pub(crate) projected_columns: bool,
    // A column is nested, and no supported list.
    pub(crate) non_primitive_columns: bool,
    // What only the reader knows is asked for.
    pub(crate) has_unpushable_udfs: bool,
    pub(crate) required_columns: RootSet,
    pub(crate) struct_field_accesses: ArrayVec<StructFieldAccess, 256>,
    pub(crate) cast_accesses: ArrayVec<CastColumnAccess, 256>,
}
