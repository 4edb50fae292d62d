//! Inner: for our own crates. Nodes of a sheet, each by a place that the sheet has. A twin of `TypeRef`: for a generic struct with a
//! ghost field Rattle derives neither Clone nor Copy (`derive-over-ghost-field`), and a Clone by hand answers a Result.
ghost use Rattle.std.specs.Prelude.{◌≡◌, ◌<◌, length, Some, slice_index_or};
ghost use Rattle.format.specs.Kinds.{node_kind_of};
ghost use Rattle.format.specs.Records.{name_bytes, no_node};
ghost use Rattle.sheet.specs.Seen.{names_in, nodes_in};

use crate::sheet::Sheet;
use format::{NodeKind, NodeRecord};

/// A node of the expressions of a sheet, by its place.
#[derive(Clone, Copy)]
pub struct NodeRef<'a> {
    sheet: &'a Sheet,
    place: usize,
    ghost there: { place < length (nodes_in sheet.now) },
}

impl<'a> NodeRef<'a> {
    /// The node at a place.
    pub fn at(sheet: &'a Sheet, place: usize) -> NodeRef<'a>
        requires { place < length (nodes_in sheet.now) }
        ensures sheet { result.sheet.now ≡ sheet.now }
        ensures place { result.place ≡ place }
    {
        NodeRef { sheet, place }
    }

    pub fn sheet(self) -> &'a Sheet
        ensures { result.now ≡ self.entry.sheet.now }
    {
        self.sheet
    }

    pub fn place(self) -> usize
        ensures { result ≡ self.entry.place }
    {
        self.place
    }

    pub fn record(self) -> NodeRecord
        ensures { result ≡ slice_index_or (nodes_in self.entry.sheet.now) self.entry.place no_node }
    {
        self.sheet.record(self.place)
    }

    /// Its kind, which every node of a sheet has.
    pub fn kind(self) -> NodeKind
        ensures { node_kind_of (slice_index_or (nodes_in self.entry.sheet.now) self.entry.place no_node).kind ≡ Some result }
    {
        let Ok(kind) = NodeKind::try_from(self.record().kind) else {
            unreachable!()
        };
        kind
    }

    /// The bytes of its name.
    pub fn name(self) -> &'a [u8]
        ensures { result.now ≡ name_bytes (names_in self.entry.sheet.now) (slice_index_or (nodes_in self.entry.sheet.now) self.entry.place no_node).name }
    {
        self.sheet.name(self.record().name)
    }
}
