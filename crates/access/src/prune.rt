//! The pruning of types by accesses. Ported from `src/projection_read_plan.rs` of the crate
//! datafusion-datasource-parquet 55.0.0, changed: types are records of a sheet and are written to a lent buffer, and in
//! place of a tree of accesses each level has the list of those that go on there.
ghost use Rattle.std.specs.Prelude.{◌≡◌, ◌+◌, ◌≤◌, not, ◌++◌, length, take};
ghost use Rattle.rules.specs.ReadPlan.{on, is_empty};
ghost use Rattle.rules.specs.Trees.{preorder, size};
ghost use Rattle.sheet.specs.KeptTrees.{kept_tree};
ghost use Rattle.sheet.specs.SheetTrees.{type_tree};
ghost use Rattle.access.specs.Accesses.{accesses_in, pruned_at};
ghost use Rattle.access.specs.Following.{left, kept_at};

use crate::accesses::StructFieldAccess;
use crate::paths::{Level, Paths, on_root};
use sheet::inner::TypeRef;
use sheet::{Sheet, TypeKind, TypeRecord};

/// Whether some access that is in the sheet is on a root.
pub fn has_access(sheet: &Sheet, root: usize, accesses: &[StructFieldAccess]) -> bool
    ensures { result ≡ not (is_empty (on root (accesses_in sheet.now accesses.now))) }
{
    accesses.iter().any(|access| access.is_on(sheet, root))
}

// Writes what the accesses that go on at a type leave of it, to the front of a buffer. Tells how many records that are.
fn prune(here: TypeRef<'_>, level: Level<'_>, fields: &mut [TypeRecord]) -> usize
    requires room { size (type_tree here.sheet.now here.place) ≤ length fields.old }
    requires low { level.depth + size (type_tree here.sheet.now here.place) ≤ 2048 }
    ensures copied { take result fields.new ≡ preorder (kept_at here.entry.sheet.now (left here.entry.sheet.now level.entry.depth level.entry.accesses.now) here.entry.place) }
    ensures count { result ≡ size (kept_at here.entry.sheet.now (left here.entry.sheet.now level.entry.depth level.entry.accesses.now) here.entry.place) }
{
    if here.kind() != TypeKind::Struct || level.ends_here() {
        return here.copy_into(fields);
    }
    // The head is written last, once its children and its span are known. (`nested` writes its own: the two do not rest on each other.)
    let head = here.record();
    let mut written = 1;
    let mut children = 0;
    let mut paths = Paths::new();
    for child in here.children() {
        level.onward(child, &mut paths);
        if !paths.is_empty() {
            let deeper = Level::at(level.depth() + 1, &paths);
            written += prune(child, deeper, &mut fields[written..]);
            children += 1;
        }
    }
    fields[0] = TypeRecord {
        children,
        span: written as u16,
        ..head
    };
    written
}

/// Writes the type at a place, pruned by the accesses on a root, to the front of a buffer: a type stays where a path ends,
/// or if it is no Struct; a Struct keeps the fields that continue a path. Tells how many records that are. At most 256 accesses are
/// asked for, because they come in as a caller's slice.
pub fn prune_struct_type(
    here: TypeRef<'_>,
    root: usize,
    accesses: &[StructFieldAccess],
    fields: &mut [TypeRecord],
) -> usize
    requires room { size (type_tree here.sheet.now here.place) ≤ length fields.old }
    requires few { length accesses.now ≤ 256 }
    ensures copied { take result fields.new ≡ preorder (kept_tree (pruned_at here.entry.sheet.now accesses.now root here.entry.place) (type_tree here.entry.sheet.now here.entry.place)) }
    ensures count { result ≡ size (kept_tree (pruned_at here.entry.sheet.now accesses.now root here.entry.place) (type_tree here.entry.sheet.now here.entry.place)) }
{
    let paths = on_root(here.sheet(), root, accesses);
    prune(here, Level::at(0, &paths), fields)
}
