//! The plan of some uses, written root by root. Ported from `assemble_read_plan` and `build_read_plan_with_cast_clipping` of
//! `src/projection_read_plan.rs` of the crate datafusion-datasource-parquet 55.0.0, changed: the roots are gone through once,
//! in order, so that leaves and fields come out sorted.
ghost use Rattle.std.specs.Prelude.{◌≡◌, ◌-◌, ◌≤◌, length, take};
ghost use Rattle.rules.specs.Trees.{size};
ghost use Rattle.sheet.specs.SheetTrees.{type_tree};
ghost use Rattle.planner.specs.ReadPlans.{Written, written_by, uses_reading};
ghost use Rattle.planner.specs.Readings.{ClipFits, ClipShort, chosen_by, fields_by, kept_by, paths_on};
ghost use Rattle.planner.specs.RootPlans.{all_records};

use crate::leaves::{LeafRange, choose_all, choose_along, choose_kept};
use crate::projection_read_plan::Plan;
use crate::readings::{RootReading, RootUses, Uses, read_root};
use access::prune_struct_type;
use directory::LeafDirectory;
use nested::ClipTable;
use sheet::inner::TypeRef;
use sheet::{RootRecord, Sheet, TypeRecord};

// Chooses the leaves that are read of a root, of those that it has. Tells how many are chosen. Room is asked for, because the mask is
// lent; here and below at most 256 accesses are, because they come in as a caller's slice.
fn choose_root<D: LeafDirectory>(
    sheet: &Sheet,
    directory: &D,
    used: RootUses<'_>,
    reading: RootReading,
    table: &ClipTable,
    leaves: LeafRange,
    mask: &mut [usize],
) -> usize
    requires room { leaves.end - leaves.first ≤ length mask.old }
    requires clip { ClipFits reading table.now leaves.first leaves.end }
    ensures chosen { take result mask.new ≡ chosen_by (D.LeafDirectory.leaves directory.now) (paths_on sheet.now used.entry.uses used.entry.root) reading table.now leaves.first leaves.end }
    ensures count { result ≤ leaves.end - leaves.first }
{
    match reading {
        RootReading::Unread => 0,
        RootReading::Entire => choose_all(leaves, mask),
        RootReading::Along => choose_along(sheet, directory, used, leaves, mask),
        RootReading::Narrowed => choose_kept(&table.offsets, leaves.first, mask),
    }
}

// Copies a clipped type to the front of a buffer. Tells how many records that are.
fn copy_clipped(types: &[TypeRecord], fields: &mut [TypeRecord]) -> usize
    requires { length types.now ≤ length fields.old }
    ensures copied { take result fields.new ≡ types.now }
    ensures count { result ≡ length types.now }
{
    fields[..types.len()].copy_from_slice(types);
    types.len()
}

// Writes what is kept of the field of a root to the front of a buffer. Tells how many records that are.
fn keep_root(
    here: TypeRef<'_>,
    used: RootUses<'_>,
    reading: RootReading,
    table: &ClipTable,
    fields: &mut [TypeRecord],
) -> usize
    requires room { size (type_tree here.sheet.now here.place) ≤ length fields.old }
    requires few { length used.uses.accesses.now ≤ 256 }
    requires clip { ClipShort reading table.now (size (type_tree here.sheet.now here.place)) }
    ensures kept { take result fields.new ≡ kept_by here.entry.sheet.now here.entry.place (paths_on here.entry.sheet.now used.entry.uses used.entry.root) reading table.now }
    ensures count { result ≤ size (type_tree here.entry.sheet.now here.entry.place) }
{
    match reading {
        RootReading::Unread => 0,
        RootReading::Entire => here.copy_into(fields),
        RootReading::Along => prune_struct_type(here, used.root, used.uses.accesses, fields),
        RootReading::Narrowed => copy_clipped(&table.types, fields),
    }
}

// How many fields a reading keeps of a root.
fn field_count(reading: RootReading) -> usize
    ensures { result ≡ fields_by reading }
{
    match reading {
        RootReading::Unread => 0,
        RootReading::Entire | RootReading::Along | RootReading::Narrowed => 1,
    }
}

/// Writes the plan of some uses: the numbers of the leaves that are read and the fields that are kept, with zeros behind
/// them.
pub fn build_read_plan<D: LeafDirectory>(
    sheet: &Sheet,
    directory: &D,
    uses: &Uses<'_>,
    table: &mut ClipTable,
    leaves: &mut [usize],
    fields: &mut [TypeRecord],
) -> Plan
    requires leaves { length (D.LeafDirectory.leaves directory.now) ≤ length leaves.old }
    requires fields { length (all_records sheet.now) ≤ length fields.old }
    requires few { length uses.now.accesses.now ≤ 256 }
    ensures { ◌≡◌ {A = Written} (result, (leaves.new, fields.new)) (written_by sheet.now (D.LeafDirectory.leaves directory.now) (uses_reading sheet.now (D.LeafDirectory.leaves directory.now) uses.now) leaves.old fields.old) }
{
    let mut plan = Plan {
        leaves: 0,
        fields: 0,
        types: 0,
    };
    let mut first = 0;
    for root in 0..sheet.count::<RootRecord>() {
        let here = TypeRef::of_root(sheet, root);
        let used = RootUses { root, uses: *uses };
        let own = LeafRange::of_root(directory, root, first);
        let reading = read_root(here, used, own.len(), table);
        let mask = &mut leaves[plan.leaves..];
        plan.leaves += choose_root(sheet, directory, used, reading, table, own, mask);
        plan.types += keep_root(here, used, reading, table, &mut fields[plan.types..]);
        plan.fields += field_count(reading);
        first = own.end;
    }
    leaves[plan.leaves..].fill(0);
    fields[plan.types..].fill(TypeRecord::BLANK);
    plan
}
