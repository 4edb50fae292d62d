//! Inner: for our own crates. Two types of one sheet.
ghost use Rattle.std.specs.Prelude.{◌≡◌, ◌<◌, length, slice_index_or};
ghost use Rattle.format.specs.Kinds.{type_kind_of};
ghost use Rattle.format.specs.Records.{no_type};
ghost use Rattle.sheet.specs.Seen.{types_in};

use crate::pairs::{Pair, pair_up};
use sheet::Sheet;
use sheet::inner::TypeRef;

/// The type at a place, and the one at `goal` that a cast asks for.
#[derive(Clone, Copy)]
pub struct TypePair<'a> {
    pub(crate) sheet: &'a Sheet,
    pub(crate) place: usize,
    pub(crate) goal: usize,
    ghost here: { place < length (types_in sheet.now) },
    ghost there: { goal < length (types_in sheet.now) },
}

impl<'a> TypePair<'a> {
    ghost use Rattle.nested.specs.PairKinds.{pair_of};

    /// The types at two places.
    pub fn of(sheet: &'a Sheet, place: usize, goal: usize) -> TypePair<'a>
        requires here { place < length (types_in sheet.now) }
        requires there { goal < length (types_in sheet.now) }
        ensures sheet { result.sheet.now ≡ sheet.now }
        ensures place { result.place ≡ place }
        ensures goal { result.goal ≡ goal }
    {
        TypePair { sheet, place, goal }
    }

    pub fn first(self) -> TypeRef<'a>
        ensures sheet { result.sheet.now ≡ self.entry.sheet.now }
        ensures place { result.place ≡ self.entry.place }
    {
        TypeRef::at(self.sheet, self.place)
    }

    pub fn second(self) -> TypeRef<'a>
        ensures sheet { result.sheet.now ≡ self.entry.sheet.now }
        ensures place { result.place ≡ self.entry.goal }
    {
        TypeRef::at(self.sheet, self.goal)
    }

    /// What the two kinds are together.
    pub(crate) fn kinds(self) -> Pair
        ensures { result ≡ pair_of (type_kind_of (slice_index_or (types_in self.entry.sheet.now) self.entry.place no_type).kind) (type_kind_of (slice_index_or (types_in self.entry.sheet.now) self.entry.goal no_type).kind) }
    {
        pair_up(self.first().kind(), self.second().kind())
    }
}
