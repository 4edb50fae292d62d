//! Which leaves are read.
use crate::failure::Failure;
use directory::LeafDirectory;
use planner::{Plan, field_room, root_level_plan};
use sheet::{Sheet, TypeRecord};
use std::alloc::Global;

/// A plan, and the numbers of the leaves that it reads.
#[derive(Drop)]
pub(crate) struct Ticks {
    pub plan: Plan,
    pub leaves: Vec<usize>,
}

fn roots_named(heap: Global, sheet: &Sheet, names: &[String]) -> Result<Vec<usize>, Failure> {
    let mut roots = Vec::new(heap);
    for name in names {
        let Some(root) = sheet.root_named(name.as_bytes()) else {
            return Err(Failure::UnknownColumn(name.clone()?));
        };
        roots.push(root)?;
    }
    Ok(roots)
}

/// Plans to read the columns of these names.
pub(crate) fn plan_ticks<D: LeafDirectory>(
    heap: Global,
    sheet: &Sheet,
    directory: &D,
    names: &[String],
) -> Result<Ticks, Failure> {
    let roots = roots_named(heap, sheet, names)?;
    let mut leaves = vec![in heap; 0usize; directory.count()]?;
    let mut fields = vec![in heap; TypeRecord::BLANK; field_room(sheet)]?;
    let plan = root_level_plan(sheet, directory, &roots, &mut leaves, &mut fields)?;
    leaves.truncate(plan.leaf_count());
    Ok(Ticks { plan, leaves })
}
