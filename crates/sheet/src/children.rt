//! Inner: the children of a type, which stand side by side behind it.
ghost use Rattle.std.specs.Prelude.{◌≡◌, ◌+◌, ◌<◌, slice_index_or};
ghost use Rattle.format.specs.Records.{no_type};
ghost use Rattle.sheet.specs.Seen.{types_in};
ghost use Rattle.sheet.specs.Spans.{Reach};

use crate::type_ref::TypeRef;

/// The children of a type that are left, in their order.
#[derive(Drop)]
pub struct Children<'a> {
    above: TypeRef<'a>,
    next: usize,
    left: u16,
    ghost behind: { above.place < next },
    ghost reach: { Reach above.sheet.now above.place left next },
}

impl<'a> TypeRef<'a> {
    /// Its children.
    pub fn children(self) -> Children<'a>
        ensures above { result.above ≡ self.entry }
        ensures next { result.next ≡ self.entry.place + 1 }
        ensures left { result.left ≡ (slice_index_or (types_in self.entry.sheet.now) self.entry.place no_type).children }
    {
        Children {
            above: self,
            next: self.place() + 1,
            left: self.record().children,
        }
    }
}

impl<'a> Iterator for Children<'a> {
    type Item = TypeRef<'a>;

    ghost use Rattle.std.specs.Iterator.{at_most};
    ghost use Rattle.sheet.specs.Children.{GivesNext};

    ghost next_gives = { GivesNext };

    ghost remaining = { λ s. at_most s.left };

    fn next(&mut self) -> Option<TypeRef<'a>> {
        if self.left == 0 {
            return None;
        }
        let child = TypeRef::at(self.above.sheet(), self.next);
        self.left -= 1;
        self.next += child.record().span as usize;
        Some(child)
    }
}
