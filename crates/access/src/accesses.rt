//! The records by which a collection writes down what it found.
ghost use Rattle.std.specs.Prelude.{◌≡◌, ◌+◌, ◌&&◌, nat_eq};
ghost use Rattle.access.specs.Accesses.{is_access, is_cast, node_name};
ghost use Rattle.access.specs.Following.{is_on, goes_on};

use sheet::{NodeRecord, RootRecord, Sheet, TypeRecord};

/// A root that is read along a path, `get_field(column, text, text ..)`: the path is the text literals, which stand one
/// behind the other among the nodes.
#[derive(Clone, Copy, PartialEq, Eq, Debug, Default)]
pub struct StructFieldAccess {
    pub root_index: u16,
    pub first_part: u16,
    pub parts: u16,
}

/// A root that is read through a cast to the type at a place.
#[derive(Clone, Copy, PartialEq, Eq, Debug, Default)]
pub struct CastColumnAccess {
    pub root_index: u16,
    pub target_type: u16,
}

impl StructFieldAccess {
    /// Whether the sheet has the root and the nodes that the access names.
    pub fn is_in(&self, sheet: &Sheet) -> bool
        ensures { result ≡ is_access sheet.now self.now }
    {
        (self.root_index as usize) < sheet.count::<RootRecord>()
            && self.first_part as usize + self.parts as usize <= sheet.count::<NodeRecord>()
    }

    /// Whether it is on a root, with all that it names in the sheet.
    pub fn is_on(&self, sheet: &Sheet, root: usize) -> bool
        ensures { result ≡ is_on sheet.now root self.now }
    {
        self.root_index as usize == root && self.is_in(sheet)
    }

    /// The name that the path has at a depth; empty where the sheet has no such node.
    pub fn part<'a>(&self, sheet: &'a Sheet, depth: usize) -> &'a [u8]
        ensures { result.now ≡ node_name sheet.now (self.now.first_part + depth) }
    {
        let place = (self.first_part as usize).saturating_add(depth);
        sheet.name(sheet.record::<NodeRecord>(place).name)
    }

    /// Whether the path has a name at a depth.
    pub(crate) fn goes_on(&self, sheet: &Sheet, depth: usize, name: &[u8]) -> bool
        ensures { result ≡ goes_on sheet.now depth name.now self.now }
    {
        self.parts as usize > depth && name == self.part(sheet, depth)
    }
}

impl CastColumnAccess {
    /// Whether the sheet has the root and the type that the cast names.
    pub fn is_in(&self, sheet: &Sheet) -> bool
        ensures { result ≡ is_cast sheet.now self.now }
    {
        (self.root_index as usize) < sheet.count::<RootRecord>()
            && (self.target_type as usize) < sheet.count::<TypeRecord>()
    }
}
