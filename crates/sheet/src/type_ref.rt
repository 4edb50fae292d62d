//! Inner: for our own crates. Types of a sheet, each by a place that the sheet has.
ghost use Rattle.std.specs.Prelude.{◌≡◌, ◌<◌, ◌≤◌, length, take, Some, slice_index_or};
ghost use Rattle.rules.specs.Trees.{preorder, size};
ghost use Rattle.format.specs.Kinds.{type_kind_of};
ghost use Rattle.format.specs.Records.{name_bytes, no_root, no_type};
ghost use Rattle.sheet.specs.Seen.{names_in, roots_in, types_in};
ghost use Rattle.sheet.specs.SheetTrees.{type_tree};

use crate::sheet::Sheet;
use format::{RootRecord, TypeKind, TypeRecord};

/// A type of a sheet, by its place.
#[derive(Clone, Copy)]
pub struct TypeRef<'a> {
    sheet: &'a Sheet,
    place: usize,
    ghost there: { place < length (types_in sheet.now) },
}

impl<'a> TypeRef<'a> {
    /// The type at a place.
    pub fn at(sheet: &'a Sheet, place: usize) -> TypeRef<'a>
        requires { place < length (types_in sheet.now) }
        ensures sheet { result.sheet.now ≡ sheet.now }
        ensures place { result.place ≡ place }
    {
        TypeRef { sheet, place }
    }

    /// The type of a root's field.
    pub fn of_root(sheet: &'a Sheet, root: usize) -> TypeRef<'a>
        requires { root < length (roots_in sheet.now) }
        ensures sheet { result.sheet.now ≡ sheet.now }
        ensures place { result.place ≡ (slice_index_or (roots_in sheet.now) root no_root).type_place }
    {
        TypeRef::at(sheet, sheet.record::<RootRecord>(root).type_place as usize)
    }

    pub fn sheet(self) -> &'a Sheet
        ensures { result.now ≡ self.entry.sheet.now }
    {
        self.sheet
    }

    pub fn place(self) -> usize
        ensures { result ≡ self.entry.place }
    {
        self.place
    }

    pub fn record(self) -> TypeRecord
        ensures { result ≡ slice_index_or (types_in self.entry.sheet.now) self.entry.place no_type }
    {
        self.sheet.record(self.place)
    }

    /// Its kind, which every type of a sheet has.
    pub fn kind(self) -> TypeKind
        ensures { type_kind_of (slice_index_or (types_in self.entry.sheet.now) self.entry.place no_type).kind ≡ Some result }
    {
        let Ok(kind) = TypeKind::try_from(self.record().kind) else {
            unreachable!()
        };
        kind
    }

    /// The bytes of its name.
    pub fn name(self) -> &'a [u8]
        ensures { result.now ≡ name_bytes (names_in self.entry.sheet.now) (slice_index_or (types_in self.entry.sheet.now) self.entry.place no_type).name }
    {
        self.sheet.name(self.record().name)
    }

    /// Copies the type, with all below it, to the front of a buffer. Tells how many records that are.
    pub fn copy_into(self, fields: &mut [TypeRecord]) -> usize
        requires { size (type_tree self.sheet.now self.place) ≤ length fields.old }
        ensures copied { take result fields.new ≡ preorder (type_tree self.entry.sheet.now self.entry.place) }
        ensures count { result ≡ size (type_tree self.entry.sheet.now self.entry.place) }
    {
        let span = self.record().span as usize;
        for (k, field) in fields[..span].iter_mut().enumerate() {
            *field = self.sheet.record(self.place + k);
        }
        span
    }
}
