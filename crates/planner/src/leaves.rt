//! The leaves of one root, and which of them are read. Sheet and directory go side by side, since a planner's caller has them apart;
//! where numbers are written, room is asked for, because the mask is lent.
ghost use Rattle.std.specs.Prelude.{◌≡◌, ℕ, ◌+◌, ◌-◌, ◌^◌, ◌<◌, ◌≤◌, [], ◌∷◌, map, length, take, slice_index};
ghost use Rattle.std.specs.List.{range_with_len, list_all};
ghost use Rattle.rules.specs.ReadPlan.{is_along, numbers_along, on};
ghost use Rattle.access.specs.Accesses.{path_at, accesses_in};
ghost use Rattle.planner.specs.Readings.{is_part_at, paths_on};
ghost use Rattle.planner.specs.Segments.{segment, parts_of, Run};

use crate::readings::RootUses;
use access::StructFieldAccess;
use directory::LeafDirectory;
use sheet::Sheet;

/// The leaves from one number up to another.
#[derive(Clone, Copy)]
pub(crate) struct LeafRange {
    pub(crate) first: usize,
    pub(crate) end: usize,
    ghost order: { first ≤ end },
}

impl LeafRange {
    /// The leaves of a root, of which `first` is the first.
    pub(crate) fn of_root<D: LeafDirectory>(directory: &D, root: usize, first: usize) -> LeafRange
        requires { first ≤ length (D.LeafDirectory.leaves directory.now) }
        ensures first { result.first ≡ first }
        ensures run { Run (D.LeafDirectory.leaves directory.now) root first result.end }
    {
        let end = leaves_end(directory, root, first);
        LeafRange { first, end }
    }

    /// How many leaves these are.
    pub(crate) fn len(self) -> usize
        ensures { result ≡ self.end - self.first }
    {
        self.end - self.first
    }
}

// Where the leaves of a root end, of which `first` is the first.
fn leaves_end<D: LeafDirectory>(directory: &D, root: usize, first: usize) -> usize
    requires { first ≤ length (D.LeafDirectory.leaves directory.now) }
    ensures { Run (D.LeafDirectory.leaves directory.now) root first result }
{
    let count = directory.count();
    (first..count)
        .find(|leaf| directory.root(*leaf) != Some(root))
        .unwrap_or(count)
}

/// Chooses all leaves of a range. Tells how many are chosen.
pub(crate) fn choose_all(leaves: LeafRange, mask: &mut [usize]) -> usize
    requires { leaves.end - leaves.first ≤ length mask.old }
    ensures chosen { take result mask.new ≡ range_with_len leaves.first (leaves.end - leaves.first) }
    ensures count { result ≡ leaves.end - leaves.first }
{
    let count = leaves.len();
    for (k, place) in mask[..count].iter_mut().enumerate() {
        *place = leaves.first + k;
    }
    count
}

// Whether the part of an access's path at a depth is that of the leaf, behind its first; false where it has no such part.
fn is_part_at<D: LeafDirectory>(
    sheet: &Sheet,
    directory: &D,
    leaf: usize,
    access: StructFieldAccess,
    depth: u16,
) -> bool
    ensures { result ≡ is_part_at sheet.now (D.LeafDirectory.leaves directory.now) leaf access depth }
{
    let name = access.part(sheet, depth as usize);
    directory
        .part_is(leaf, depth as usize + 1, name)
        .unwrap_or(false)
}

// Whether each part of an access's path is.
fn are_parts<D: LeafDirectory>(
    sheet: &Sheet,
    directory: &D,
    leaf: usize,
    access: StructFieldAccess,
) -> bool
    ensures { result ≡ list_all (is_part_at sheet.now (D.LeafDirectory.leaves directory.now) leaf access) (range_with_len 0 access.parts) }
{
    (0..access.parts).all(|depth| is_part_at(sheet, directory, leaf, access, depth))
}

// Whether the path of an access prefixes the leaf's parts after the first.
fn has_prefix<D: LeafDirectory>(
    sheet: &Sheet,
    directory: &D,
    leaf: usize,
    access: StructFieldAccess,
) -> bool
    ensures { result ≡ is_along (path_at sheet.now access ∷ []) (parts_of (D.LeafDirectory.leaves directory.now) leaf) }
{
    let count = directory.parts(leaf).unwrap_or(0);
    (access.parts as usize) < count && are_parts(sheet, directory, leaf, access)
}

// Whether an access is on a root, and its path prefixes the leaf's parts after the first.
fn leads_to<D: LeafDirectory>(
    sheet: &Sheet,
    directory: &D,
    leaf: usize,
    root: usize,
    access: StructFieldAccess,
) -> bool
    ensures { result ≡ is_along (on root (accesses_in sheet.now (access ∷ []))) (parts_of (D.LeafDirectory.leaves directory.now) leaf) }
{
    access.is_on(sheet, root) && has_prefix(sheet, directory, leaf, access)
}

// Whether one of the accesses on a root has a path that prefixes the leaf's parts after the first.
fn is_along<D: LeafDirectory>(sheet: &Sheet, directory: &D, leaf: usize, used: RootUses<'_>) -> bool
    ensures { result ≡ is_along (paths_on sheet.now used.entry.uses used.entry.root) (parts_of (D.LeafDirectory.leaves directory.now) leaf) }
{
    used.uses.accesses.iter().any(|access| leads_to(sheet, directory, leaf, used.root, *access))
}

/// Chooses the leaves of a root that lie along the accesses on it. Tells how many are chosen.
pub(crate) fn choose_along<D: LeafDirectory>(
    sheet: &Sheet,
    directory: &D,
    used: RootUses<'_>,
    leaves: LeafRange,
    mask: &mut [usize],
) -> usize
    requires { leaves.end - leaves.first ≤ length mask.old }
    ensures chosen { take result mask.new ≡ numbers_along (paths_on sheet.now used.entry.uses used.entry.root) (segment (D.LeafDirectory.leaves directory.now) leaves.first leaves.end) }
    ensures count { result ≤ leaves.end - leaves.first }
{
    let mut chosen = 0;
    // A loop: the numbers that pass go to the front of a lent buffer.
    for leaf in leaves.first..leaves.end {
        if is_along(sheet, directory, leaf, used) {
            mask[chosen] = leaf;
            chosen += 1;
        }
    }
    chosen
}

/// Chooses the leaves that a clip keeps, by their offsets from the root's first leaf. Tells how many are chosen.
pub(crate) fn choose_kept(offsets: &[u16], first: usize, mask: &mut [usize]) -> usize
    requires low { (k : ℕ) → k < length offsets.now → first + slice_index offsets.now k < 2 ^ 64 }
    requires room { length offsets.now ≤ length mask.old }
    ensures chosen { take result mask.new ≡ map (λ o. first + o) offsets.now }
    ensures count { result ≡ length offsets.now }
{
    // A loop: what stands in the lent mask behind the offsets stays.
    for (k, offset) in offsets.iter().enumerate() {
        mask[k] = first + *offset as usize;
    }
    offsets.len()
}
