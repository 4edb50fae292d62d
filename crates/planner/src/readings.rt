//! How a root is read.
ghost use Rattle.std.specs.Prelude.{◌≡◌, not};
ghost use Rattle.rules.specs.ReadPlan.{every};
ghost use Rattle.rules.specs.Types.{same_type};
ghost use Rattle.sheet.specs.SheetExpressions.{type_at_place};
ghost use Rattle.nested.specs.Clips.{shown};
ghost use Rattle.planner.specs.Readings.{Reads, clip_met, may_narrow, paths_on, reading_of};
ghost use Rattle.planner.specs.Targets.{is_cast_on, is_unlike, targets_on, FirstTarget};

use access::{CastColumnAccess, StructFieldAccess, has_access};
use nested::{Clip, ClipTable, TypePair, count_leaves};
use sheet::Sheet;
use sheet::inner::TypeRef;

/// What a plan is made from: the roots that are read entire, and the accesses and casts on others.
#[derive(Clone, Copy)]
pub struct Uses<'a> {
    pub required: &'a [usize],
    pub accesses: &'a [StructFieldAccess],
    pub casts: &'a [CastColumnAccess],
}

/// What one root is used for.
#[derive(Clone, Copy)]
pub(crate) struct RootUses<'a> {
    pub(crate) root: usize,
    pub(crate) uses: Uses<'a>,
}

/// How a root is read: not at all, entire, along the accesses on it, or as the clip in a table keeps it.
#[derive(Clone, Copy)]
pub enum RootReading {
    Unread,
    Entire,
    Along,
    Narrowed,
}

// Only the planner asks for a cast's root.
fn is_cast_on(sheet: &Sheet, cast: CastColumnAccess, root: usize) -> bool
    ensures { result ≡ is_cast_on sheet.now cast root }
{
    cast.is_in(sheet) && cast.root_index as usize == root
}

// The target of the first cast on a root.
fn cast_target(sheet: &Sheet, used: RootUses<'_>) -> Option<usize>
    ensures { FirstTarget sheet.now used.entry.uses.casts.now used.entry.root result }
{
    used.uses
        .casts
        .iter()
        .find(|cast| is_cast_on(sheet, **cast, used.root))
        .map(|cast| cast.target_type as usize)
}

// Whether a cast is on a root, and has another target than this type.
fn is_unlike(goal: TypeRef<'_>, cast: CastColumnAccess, root: usize) -> bool
    ensures { result ≡ is_unlike goal.entry.sheet.now goal.entry.place root cast }
{
    is_cast_on(goal.sheet(), cast, root)
        && !TypePair::of(goal.sheet(), goal.place(), cast.target_type as usize).is_same_type()
}

// Whether a cast on a root has another target than this type.
fn has_other_target(goal: TypeRef<'_>, used: RootUses<'_>) -> bool
    ensures { result ≡ not (every (same_type (type_at_place goal.entry.sheet.now goal.entry.place)) (targets_on goal.entry.sheet.now used.entry.uses.casts.now used.entry.root)) }
{
    used.uses
        .casts
        .iter()
        .any(|cast| is_unlike(goal, *cast, used.root))
}

// Whether one clip may meet the casts on a root, from its type to the target of the first: it is not accessed too, no cast
// has another target, and the directory has as many leaves of it as its type.
fn may_narrow(pair: TypePair<'_>, used: RootUses<'_>, leaf_count: usize) -> bool
    ensures { result ≡ may_narrow pair.entry.sheet.now used.entry.uses used.entry.root pair.entry.place pair.entry.goal leaf_count }
{
    let here = pair.first();
    !has_access(here.sheet(), used.root, used.uses.accesses)
        && !has_other_target(pair.second(), used)
        && leaf_count == count_leaves(here)
}

// The clip that meets the casts on a root, if one may, and there is one.
fn narrow(
    pair: TypePair<'_>,
    used: RootUses<'_>,
    leaf_count: usize,
    table: &mut ClipTable,
) -> Option<Clip>
    ensures { shown result table.new ≡ clip_met pair.entry.sheet.now used.entry.uses used.entry.root pair.entry.place pair.entry.goal leaf_count }
{
    if !may_narrow(pair, used, leaf_count) {
        return None;
    }
    pair.clip_for_cast(table)
}

/// How a root is read, by the type of its field, and of which the directory has so many leaves. A clip stands in the table.
pub(crate) fn read_root(
    here: TypeRef<'_>,
    used: RootUses<'_>,
    leaf_count: usize,
    table: &mut ClipTable,
) -> RootReading
    ensures { Reads here.entry.sheet.now here.entry.place leaf_count (paths_on here.entry.sheet.now used.entry.uses used.entry.root) result table.new (reading_of here.entry.sheet.now used.entry.uses used.entry.root here.entry.place leaf_count) }
{
    let sheet = here.sheet();
    if used.uses.required.contains(&used.root) {
        return RootReading::Entire;
    }
    let Some(goal) = cast_target(sheet, used) else {
        if has_access(sheet, used.root, used.uses.accesses) {
            return RootReading::Along;
        }
        return RootReading::Unread;
    };
    let pair = TypePair::of(sheet, here.place(), goal);
    match narrow(pair, used, leaf_count, table) {
        Some(Clip) => RootReading::Narrowed,
        None => RootReading::Entire,
    }
}
