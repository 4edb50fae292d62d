//! Ported from `src/projection_read_plan.rs` of the crate datafusion-datasource-parquet 55.0.0, changed: the schema is a
//! sheet, the leaves come from a directory, and the mask and the projected schema are written to lent buffers.
ghost use Rattle.std.specs.Prelude.{◌≡◌, ℕ, ◌+◌, ◌<◌, ◌≤◌, List, ◌++◌, length, take, Option, nat_lt, slice_index};
ghost use Rattle.rules.specs.RootPlan.{is_listed, leaves_of_listed, padded};
ghost use Rattle.rules.specs.Searches.{first_failing};
ghost use Rattle.rules.specs.Trees.{preorder, size};
ghost use Rattle.format.specs.declared.records.TypeRecord.{TypeRecord};
ghost use Rattle.format.specs.Records.{no_type};
ghost use Rattle.sheet.specs.Seen.{roots_in, types_in};
ghost use Rattle.sheet.specs.SheetTrees.{type_tree};
ghost use Rattle.planner.specs.RootPlans.{PlanAnswer, SchemaOfTheFile, root_level, listed_fields, field_records, all_records, span_of};

use directory::LeafDirectory;
use sheet::inner::TypeRef;
use sheet::{Fault, RootRecord, Sheet, TypeRecord};

/// A plan: how many leaves are read, and how many fields and type records the projected schema has. They stand at the
/// front of the two buffers that the plan was written to.
#[derive(Drop)]
pub struct Plan {
    pub(crate) leaves: usize,
    pub(crate) fields: usize,
    pub(crate) types: usize,
}

impl Plan {
    pub fn leaf_count(&self) -> usize
        ensures { result ≡ self.now.leaves }
    {
        self.leaves
    }

    pub fn field_count(&self) -> usize
        ensures { result ≡ self.now.fields }
    {
        self.fields
    }

    pub fn type_count(&self) -> usize
        ensures { result ≡ self.now.types }
    {
        self.types
    }
}

// Whether a root is listed, which is asked for every leaf and every root. `contains` of the library and `any` take longer (docs/CHECK-TIMES.md).
fn is_listed(roots: &[usize], root: usize) -> bool
    ensures { result ≡ is_listed roots.now root }
{
    roots.iter().position(|listed| *listed == root).is_some()
}

// The position of the first listed root that the file lacks.
fn first_unknown(sheet: &Sheet, roots: &[usize]) -> Option<usize>
    ensures { result ≡ first_failing (λ k. nat_lt (slice_index roots.now k) (length (roots_in sheet.now))) 0 (length roots.now) }
{
    let count = sheet.count::<RootRecord>();
    roots.iter().position(|root| *root >= count)
}

// How many type records a root has; none beyond the roots.
fn span_of(sheet: &Sheet, root: usize) -> usize
    ensures { result ≡ span_of sheet.now root }
{
    let place = sheet.record::<RootRecord>(root).type_place as usize;
    sheet.record::<TypeRecord>(place).span as usize
}

/// How long the buffer for a plan's fields has to be: as many type records as all roots have.
pub fn field_room(sheet: &Sheet) -> usize
    ensures { result ≡ length (all_records sheet.now) }
{
    (0..sheet.count::<RootRecord>())
        .map(|root| span_of(sheet, root))
        .sum()
}

// Writes the numbers of the leaves whose root is listed, and zeros behind them. Tells how many there are.
fn choose_leaves<D: LeafDirectory>(directory: &D, roots: &[usize], mask: &mut [usize]) -> usize
    requires { length (D.LeafDirectory.leaves directory.now) ≤ length mask.old }
    ensures chosen { mask.new ≡ padded 0 (leaves_of_listed roots.now 0 (D.LeafDirectory.leaves directory.now)) (length mask.old) }
    ensures count { result ≡ length (leaves_of_listed roots.now 0 (D.LeafDirectory.leaves directory.now)) }
{
    let mut count = 0;
    // A loop: the numbers that pass go to the front of a lent buffer.
    for leaf in 0..directory.count() {
        if let Some(root) = directory.root(leaf) {
            if is_listed(roots, root) {
                mask[count] = leaf;
                count += 1;
            }
        }
    }
    mask[count..].fill(0);
    count
}

// How many fields a projected schema has, and how many type records.
#[derive(Drop)]
struct Schema {
    fields: usize,
    types: usize,
}

// Writes the fields of the listed roots, and blanks behind them.
fn copy_fields(sheet: &Sheet, roots: &[usize], buffer: &mut [TypeRecord]) -> Schema
    requires { length (all_records sheet.now) ≤ length buffer.old }
    ensures copied { buffer.new ≡ padded no_type (field_records (listed_fields sheet.now roots.now)) (length buffer.old) }
    ensures fields { result.fields ≡ length (listed_fields sheet.now roots.now) }
    ensures types { result.types ≡ length (field_records (listed_fields sheet.now roots.now)) }
{
    let mut fields = 0;
    let mut types = 0;
    for root in 0..sheet.count::<RootRecord>() {
        if is_listed(roots, root) {
            types += TypeRef::of_root(sheet, root).copy_into(&mut buffer[types..]);
            fields += 1;
        }
    }
    buffer[types..].fill(TypeRecord::BLANK);
    Schema { fields, types }
}

/// The plan that reads the listed roots whole: all their leaves, ascending, each once, and their fields. Refused with a
/// root that the file lacks (its position is told), then with a buffer that is shorter than the directory's leaves or
/// than the type records of all roots.
pub fn root_level_plan<D: LeafDirectory>(
    sheet: &Sheet,
    directory: &D,
    roots: &[usize],
    leaves: &mut [usize],
    fields: &mut [TypeRecord],
) -> Result<Plan, Fault>
    ensures { ◌≡◌ {A = PlanAnswer} (result, (leaves.new, fields.new)) (root_level sheet.now (D.LeafDirectory.leaves directory.now) roots.now leaves.old fields.old) }
{
    if let Some(expression) = first_unknown(sheet, roots) {
        return Err(Fault::NoRoot { expression });
    }
    if leaves.len() < directory.count() || fields.len() < field_room(sheet) {
        return Err(Fault::ShortBuffer);
    }
    let chosen = choose_leaves(directory, roots, leaves);
    let schema = copy_fields(sheet, roots, fields);
    Ok(Plan {
        leaves: chosen,
        fields: schema.fields,
        types: schema.types,
    })
}

/// A plan's fields are fields of the file: taken as types, the fields of the listed roots are what is left of the file if
/// only those roots are read, with their names and nullability.
pub fn schema_is_of_the_file()
    ensures { SchemaOfTheFile }
{}
