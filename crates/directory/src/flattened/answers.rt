//! What a flattened directory answers.
ghost use Rattle.std.specs.Prelude.{◌≡◌, ◌<◌, ◌≤◌, length, IfSome};
ghost use Rattle.std.specs.Option.{option_map};
ghost use Rattle.std.specs.List.{slice_get};
ghost use Rattle.rules.specs.Leaves.{part_of};
ghost use Rattle.sheet.specs.Seen.{elements_in};
ghost use Rattle.directory.specs.Flattened.{flattened_leaves, flattened_never_fall};
ghost use Rattle.directory.specs.Rows.{leaf_of_row, path_to, upward, ParentsInside};

use crate::directory::{LeafDirectory, LeafPaths};
use crate::flattened::FlattenedDirectory;
use crate::flattened::rows::ElementRow;
use sheet::{ElementRecord, Sheet};

// The element that lies a number of steps above one.
fn climb(sheet: &Sheet, parents: &[u16], from: usize, steps: usize) -> usize
    requires climbs { ParentsInside sheet.now parents.now }
    requires inside { from < length (elements_in sheet.now) }
    requires long { length (elements_in sheet.now) ≤ length parents.now }
    ensures { result ≡ upward parents.now steps from }
{
    let mut at = from;
    for _k in 0..steps {
        at = parents[at] as usize;
    }
    at
}

impl FlattenedDirectory<'_> {
    // The row of a leaf, or none beyond the list.
    fn row(&self, leaf: usize) -> Option<ElementRow>
        ensures leaf { option_map (leaf_of_row self.now.sheet.now self.now.parents) result ≡ slice_get (flattened_leaves self.now.sheet.now) leaf }
        ensures inside { IfSome result (λ x. (x.element < length (elements_in self.now.sheet.now)) × (length (path_to self.now.sheet.now self.now.parents x.parts x.element) ≡ x.parts)) }
    {
        self.rows.get(leaf).copied()
    }

    // A part of the path to a row's element.
    fn part_of_row(&self, row: ElementRow, part: usize) -> Option<&[u8]>
        requires { row.element < length (elements_in self.now.sheet.now) }
        ensures { option_map (λ x. x.now) result ≡ slice_get (path_to self.now.sheet.now self.now.parents row.parts row.element) part }
    {
        let parts = row.parts as usize;
        if part >= parts {
            return None;
        }
        let steps = parts - (part + 1);
        let at = climb(self.sheet, &self.parents, row.element as usize, steps);
        Some(self.sheet.name(self.sheet.record::<ElementRecord>(at).name))
    }
}

impl LeafDirectory for FlattenedDirectory<'_> {
    ghost leaves = { λ d. flattened_leaves d.sheet.now };

    ghost rising = { λ d. flattened_never_fall d.sheet.now };

    fn count(&self) -> usize {
        self.rows.len()
    }

    fn root(&self, leaf: usize) -> Option<usize> {
        self.row(leaf).map(|row| row.root as usize)
    }

    fn parts(&self, leaf: usize) -> Option<usize> {
        self.row(leaf).map(|row| row.parts as usize)
    }

    fn part_is(&self, leaf: usize, part: usize, name: &[u8]) -> Option<bool> {
        self.part(leaf, part).map(|bytes| bytes == name)
    }
}

impl LeafPaths for FlattenedDirectory<'_> {
    fn part(&self, leaf: usize, part: usize) -> Option<&[u8]> {
        self.part_of_row(self.row(leaf)?, part)
    }
}
