//! Ported from `src/nested_schema_pruning.rs` of the crate datafusion-datasource-parquet 55.0.0, changed: types are places in
//! the table of a sheet, and a clip is written to a table of its own.
ghost use Rattle.std.specs.Prelude.{◌≡◌, ◌+◌, ◌-◌, ◌≤◌, ◌==◌, count_by, is_err, slice_index_or, OnOk};
ghost use Rattle.std.specs.List.{range_with_len, list_all};
ghost use Rattle.format.specs.Records.{no_type};
ghost use Rattle.arrayvec.specs.ArrayVec.{array_vec_len};
ghost use Rattle.sheet.specs.Seen.{types_in};
ghost use Rattle.std.specs.Option.{option_map};
ghost use Rattle.rules.specs.Findings.{is_nested_cast};
ghost use Rattle.rules.specs.Keeping.{is_void};
ghost use Rattle.rules.specs.Trees.{size};
ghost use Rattle.rules.specs.Types.{leaf_count_of, contains_struct, same_type, type_named};
ghost use Rattle.sheet.specs.SheetTrees.{type_tree};
ghost use Rattle.sheet.specs.SheetExpressions.{type_at_place};
ghost use Rattle.nested.specs.Found.{fields_under, Inside};

use crate::keeping::{keep_entire, set_head};
use crate::pairs::Pair;
use crate::records::{is_leaf, is_same_field, is_same_top, record_behind};
use crate::tables::{Clip, ClipTable};
use crate::type_pair::TypePair;
use sheet::inner::TypeRef;
use sheet::{TypeKind, TypeRecord};

/// How many leaves a type has.
pub fn count_leaves(here: TypeRef<'_>) -> usize
    ensures { result ≡ leaf_count_of (type_at_place here.entry.sheet.now here.entry.place) }
{
    leaves_among(here, here.record().span as usize)
}

// How many leaves are among so many records from the top of a type on.
fn leaves_among(here: TypeRef<'_>, span: usize) -> usize
    ensures { result ≡ count_by (λ k. (slice_index_or (types_in here.entry.sheet.now) (here.entry.place + k) no_type).kind == 1) (range_with_len 0 span) }
{
    (0..span)
        .filter(|k| is_leaf(record_behind(here, *k)))
        .count()
}

/// Whether a type is a Struct, or wrapped around one.
pub fn contains_struct(here: TypeRef<'_>) -> bool
    ensures { result ≡ contains_struct (type_at_place here.entry.sheet.now here.entry.place) }
{
    let mut at = here;
    // A loop: one step for each wrapper, until a kind answers.
    loop {
        match at.kind() {
            TypeKind::Struct => return true,
            TypeKind::Leaf => return false,
            _ => at = TypeRef::at(at.sheet(), at.place() + 1),
        }
    }
}

/// The place of the first field that bears a name, of a Struct.
pub(crate) fn find_field(here: TypeRef<'_>, name: &[u8]) -> Option<usize>
    ensures found { option_map (type_at_place here.entry.sheet.now) result ≡ type_named name.now (fields_under here.entry.sheet.now here.entry.place) }
    ensures inside { Inside here.entry.sheet.now result }
{
    // A loop: that a chain of `find` gives the first one would be an induction of its own.
    for child in here.children() {
        if child.name() == name {
            return Some(child.place());
        }
    }
    None
}

/// A field that a cast asks for keeps no leaf.
#[derive(Clone, Copy)]
pub(crate) struct Void;

impl TypePair<'_> {
    ghost use Rattle.nested.specs.SameRecords.{same_at};
    ghost use Rattle.nested.specs.Clips.{clip_at, clip_in, shown};
    ghost use Rattle.nested.specs.ClipSteps.{Added};

    /// Whether the two types are the same. Where one is shorter, a record before its end differs. No derive says that: two places of one
    /// table are compared.
    pub fn is_same_type(self) -> bool
        ensures { result ≡ same_type (type_at_place self.entry.sheet.now self.entry.place) (type_at_place self.entry.sheet.now self.entry.goal) }
    {
        let top = self.sheet.record::<TypeRecord>(self.place);
        is_same_top(top, self.sheet.record(self.goal)) && self.is_same_below(top.span as usize)
    }

    // Whether the records below the tops are the same, up to the end of a span.
    fn is_same_below(self, span: usize) -> bool
        ensures { result ≡ list_all (same_at self.entry.sheet.now self.entry.place self.entry.goal) (range_with_len 1 (span - 1)) }
    {
        (1..span).all(|k| self.is_same_behind(k))
    }

    // Whether the records so many places behind the tops are the same.
    fn is_same_behind(self, k: usize) -> bool
        ensures { result ≡ same_at self.entry.sheet.now self.entry.place self.entry.goal k }
    {
        let first = record_behind(self.first(), k);
        let second = record_behind(self.second(), k);
        is_same_field(self.sheet, first, second)
    }

    /// Whether a cast from the first type to the second is looked into: Struct to Struct, or through lists of one kind to
    /// such.
    pub fn requires_nested_struct_cast(self) -> bool
        ensures { result ≡ is_nested_cast (type_at_place self.entry.sheet.now self.entry.place) (type_at_place self.entry.sheet.now self.entry.goal) }
    {
        let mut pair = self;
        // A loop: one step for each pair of lists, until the kinds answer.
        loop {
            match pair.kinds() {
                Pair::Structs => return true,
                Pair::Others => return false,
                Pair::Lists => pair = TypePair::of(pair.sheet, pair.place + 1, pair.goal + 1),
            }
        }
    }

    // Adds to a table what a cast to the second type needs of the first. `leaf` counts the leaves that the clip passed.
    fn clip(self, table: &mut ClipTable, leaf: &mut usize) -> Result<(), Void>
        requires room { array_vec_len table.old.offsets + leaf_count_of (type_at_place self.sheet.now self.place) ≤ 2048 }
        requires low { leaf.old + leaf_count_of (type_at_place self.sheet.now self.place) ≤ 2048 }
        requires space { array_vec_len table.old.types + size (type_tree self.sheet.now self.place) ≤ 2048 }
        ensures refuses { is_err result ≡ is_void (clip_at self.entry.sheet.now self.entry.place self.entry.goal) (type_at_place self.entry.sheet.now self.entry.place) }
        ensures adds { OnOk result (Added (clip_at self.entry.sheet.now self.entry.place self.entry.goal) (type_at_place self.entry.sheet.now self.entry.place) (type_tree self.entry.sheet.now self.entry.place) leaf.old table.old leaf.new table.new) }
    {
        let sheet = self.sheet;
        let here = sheet.record::<TypeRecord>(self.place);
        let head = table.types.len();
        match self.kinds() {
            Pair::Others => keep_entire(self.first(), table, leaf),
            Pair::Lists => {
                table.types.push(here);
                TypePair::of(sheet, self.place + 1, self.goal + 1).clip(table, leaf)?;
                set_head(&mut table.types, head, here, 1);
            }
            Pair::Structs => {
                table.types.push(here);
                let mut children = 0;
                for child in self.first().children() {
                    match find_field(self.second(), child.name()) {
                        None => *leaf += count_leaves(child),
                        Some(wanted) => {
                            let before = table.offsets.len();
                            TypePair::of(sheet, child.place(), wanted).clip(table, leaf)?;
                            if table.offsets.len() == before {
                                return Err(Void);
                            }
                            children += 1;
                        }
                    }
                }
                set_head(&mut table.types, head, here, children);
            }
        }
        Ok(())
    }

    /// Clips the first type to what a cast to the second needs of it, in a table that is cleared first. None where a field
    /// that the cast asks for keeps no leaf, or where no leaf is kept, or all are.
    pub fn clip_for_cast(self, table: &mut ClipTable) -> Option<Clip>
        ensures { shown result table.new ≡ clip_in self.entry.sheet.now self.entry.place self.entry.goal }
    {
        table.offsets.clear();
        table.types.clear();
        let mut leaves = 0;
        if let Err(Void) = self.clip(table, &mut leaves) {
            return None;
        }
        let kept = table.offsets.len();
        if kept == 0 || kept == leaves {
            return None;
        }
        Some(Clip)
    }
}
