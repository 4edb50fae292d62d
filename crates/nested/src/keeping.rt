//! What a clip keeps entire.
ghost use Rattle.std.specs.Prelude.{◌≡◌, ◌+◌, ◌-◌, ◌<◌, ◌≤◌, ◌++◌, slice_set};
ghost use Rattle.std.specs.List.{range_with_len};
ghost use Rattle.arrayvec.specs.ArrayVec.{array_vec_len};
ghost use Rattle.rules.specs.Keeping.{all};
ghost use Rattle.rules.specs.Trees.{preorder, size};
ghost use Rattle.rules.specs.Types.{leaf_count_of};
ghost use Rattle.sheet.specs.SheetTrees.{type_tree};
ghost use Rattle.sheet.specs.SheetExpressions.{type_at_place};
ghost use Rattle.nested.specs.ClipSteps.{Added, head_of};

use crate::nested_schema_pruning::count_leaves;
use crate::records::{headed, record_behind};
use crate::tables::ClipTable;
use arrayvec::ArrayVec;
use sheet::TypeRecord;
use sheet::inner::TypeRef;

// Adds so many numbers, from `first` on.
fn number_leaves(offsets: &mut ArrayVec<u16, 2048>, first: usize, count: usize)
    requires room { array_vec_len offsets.old + count ≤ 2048 }
    requires low { first + count ≤ 2048 }
    ensures { offsets.new.items ≡ offsets.old.items ++ range_with_len first count }
{
    // A loop: `extend` is fallible, and here is room.
    for k in first..first + count {
        offsets.push(k as u16);
    }
}

// Adds the records of a type, with all below it.
fn add_records(here: TypeRef<'_>, types: &mut ArrayVec<TypeRecord, 2048>)
    requires { array_vec_len types.old + size (type_tree here.sheet.now here.place) ≤ 2048 }
    ensures { types.new.items ≡ types.old.items ++ preorder (type_tree here.entry.sheet.now here.entry.place) }
{
    let span = here.record().span as usize;
    // A loop: `extend` is fallible, and here is room.
    for k in 0..span {
        types.push(record_behind(here, k));
    }
}

/// Sets a head that was added as it was, once its children and its span are known.
pub(crate) fn set_head(
    types: &mut ArrayVec<TypeRecord, 2048>,
    head: usize,
    here: TypeRecord,
    children: u16,
)
    requires { head < array_vec_len types.old }
    ensures { types.new.items ≡ slice_set types.old.items head (head_of here children (array_vec_len types.old - head)) }
{
    let span = types.len() - head;
    types[head] = headed(here, children, span);
}

/// Adds a type to a clip as it is. `leaf` counts the leaves that the clip passed.
pub(crate) fn keep_entire(here: TypeRef<'_>, table: &mut ClipTable, leaf: &mut usize)
    requires room { array_vec_len table.old.offsets + leaf_count_of (type_at_place here.sheet.now here.place) ≤ 2048 }
    requires low { leaf.old + leaf_count_of (type_at_place here.sheet.now here.place) ≤ 2048 }
    requires space { array_vec_len table.old.types + size (type_tree here.sheet.now here.place) ≤ 2048 }
    ensures { Added all (type_at_place here.entry.sheet.now here.entry.place) (type_tree here.entry.sheet.now here.entry.place) leaf.old table.old leaf.new table.new }
{
    let count = count_leaves(here);
    number_leaves(&mut table.offsets, *leaf, count);
    *leaf += count;
    add_records(here, &mut table.types);
}
