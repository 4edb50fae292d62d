//! The tables that a clip is written to.
ghost use Rattle.std.specs.Prelude.{◌≡◌, []};

use arrayvec::ArrayVec;
use sheet::TypeRecord;

/// Room for one clip: the kept leaves, each by its offset from the type's first leaf, and the records of the clipped type.
#[derive(Drop)]
pub struct ClipTable {
    pub offsets: ArrayVec<u16, 2048>,
    pub types: ArrayVec<TypeRecord, 2048>,
}

/// Says that a table holds a clip. The table is lent, since one serves all roots of a plan.
#[derive(Clone, Copy)]
pub struct Clip;

impl ClipTable {
    /// An empty table.
    pub fn new() -> ClipTable
        ensures offsets { result.offsets.items ≡ [] }
        ensures types { result.types.items ≡ [] }
    {
        ClipTable {
            offsets: ArrayVec::new(),
            types: ArrayVec::new(),
        }
    }
}
