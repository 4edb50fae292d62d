//! The accesses that go on at a level of a type: those whose first parts, up to a depth, led there.
ghost use Rattle.std.specs.Prelude.{◌≡◌, ◌+◌, ◌≤◌, Bool, [], filter, length, slice_index_or};
ghost use Rattle.std.specs.Fn.{FnReturnsAt};
ghost use Rattle.rules.specs.Keeping.{ends_here, onward as going_on};
ghost use Rattle.rules.specs.ReadPlan.{on};
ghost use Rattle.format.specs.Records.{name_bytes, no_type};
ghost use Rattle.sheet.specs.declared.sheet.Sheet.{Sheet};
ghost use Rattle.sheet.specs.Seen.{names_in, types_in};
ghost use Rattle.access.specs.declared.accesses.StructFieldAccess.{StructFieldAccess};
ghost use Rattle.access.specs.Accesses.{accesses_in};
ghost use Rattle.access.specs.Following.{left};

use crate::accesses::StructFieldAccess;
use arrayvec::ArrayVec;
use sheet::Sheet;
use sheet::inner::TypeRef;

// The most accesses. Who passes a slice of them says that they are no more; a level has that with it.
const MOST: usize = 256;

/// Accesses that were gathered.
pub(crate) type Paths = ArrayVec<StructFieldAccess, MOST>;

// Gathers the accesses that pass a test. The room is lent, so that it serves all children of a type; `extend` is fallible, and here is
// room, so it is a loop.
fn gather<F: Fn(&StructFieldAccess) -> bool>(
    accesses: &[StructFieldAccess],
    test: F,
    paths: &mut Paths,
)
    requires few { length accesses.now ≤ 256 }
    requires callable { F.IsAlwaysCallable test }
    ensures { (p : StructFieldAccess → Bool) → ((x : StructFieldAccess) (b : Bool) → FnReturnsAt F.Fn test x b → b ≡ p x) → paths.new.items ≡ filter p accesses.now }
{
    paths.clear();
    for access in accesses {
        if test(access) {
            paths.push(*access);
        }
    }
}

/// The accesses on a root that are in the sheet.
pub(crate) fn on_root(sheet: &Sheet, root: usize, accesses: &[StructFieldAccess]) -> Paths
    requires { length accesses.now ≤ 256 }
    ensures { left sheet.now 0 result.items ≡ on root (accesses_in sheet.now accesses.now) }
{
    let mut paths = Paths::new();
    gather(accesses, |access| access.is_on(sheet, root), &mut paths);
    paths
}

/// The accesses that go on at a level, and how many of their parts led there.
#[derive(Clone, Copy)]
pub(crate) struct Level<'a> {
    accesses: &'a [StructFieldAccess],
    depth: usize,
    ghost few: { length accesses.now ≤ 256 },
}

impl<'a> Level<'a> {
    pub(crate) fn at(depth: usize, paths: &'a Paths) -> Level<'a>
        ensures depth { result.depth ≡ depth }
        ensures accesses { result.accesses.now ≡ paths.now.items }
    {
        Level {
            accesses: paths.as_slice(),
            depth,
        }
    }

    pub(crate) fn depth(self) -> usize
        ensures { result ≡ self.entry.depth }
    {
        self.depth
    }

    /// Whether some path ends here.
    pub(crate) fn ends_here(self) -> bool
        ensures { (s : Sheet) → result ≡ ends_here (left s self.entry.depth self.entry.accesses.now) }
    {
        let depth = self.depth;
        self.accesses
            .iter()
            .any(|access| access.parts as usize <= depth)
    }

    /// Gathers the accesses whose path goes on by the name of a type.
    pub(crate) fn onward(self, child: TypeRef<'_>, paths: &mut Paths)
        ensures { left child.entry.sheet.now (self.entry.depth + 1) paths.new.items ≡ going_on (name_bytes (names_in child.entry.sheet.now) (slice_index_or (types_in child.entry.sheet.now) child.entry.place no_type).name) (left child.entry.sheet.now self.entry.depth self.entry.accesses.now) }
    {
        let sheet = child.sheet();
        let name = child.name();
        let depth = self.depth;
        gather(
            self.accesses,
            |access| access.goes_on(sheet, depth, name),
            paths,
        );
    }
}
