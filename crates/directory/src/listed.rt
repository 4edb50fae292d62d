//! The directory that the sections of leaves and parts list.
ghost use Rattle.std.specs.Prelude.{◌≡◌, length, IfSome};
ghost use Rattle.std.specs.Option.{option_map};
ghost use Rattle.std.specs.List.{slice_get};
ghost use Rattle.rules.specs.Leaves.{part_of};
ghost use Rattle.directory.specs.Listed.{listed_leaf, listed_leaves, listed_never_fall};

use crate::directory::{LeafDirectory, LeafPaths};
use sheet::{LeafRecord, Sheet};

/// The leaves of a sheet, as its sections of leaves and parts list them.
#[derive(Clone, Copy)]
pub struct ListedDirectory<'a> {
    sheet: &'a Sheet,
}

impl<'a> ListedDirectory<'a> {
    /// The directory of a sheet.
    pub fn new(sheet: &'a Sheet) -> ListedDirectory<'a>
        ensures { listed_leaves result.sheet.now ≡ listed_leaves sheet.now }
    {
        ListedDirectory { sheet }
    }

    // The record of a leaf, or none beyond the list.
    fn leaf_record(&self, leaf: usize) -> Option<LeafRecord>
        ensures leaf { option_map (listed_leaf self.now.sheet.now) result ≡ slice_get (listed_leaves self.now.sheet.now) leaf }
        ensures parts { IfSome result (λ x. length (listed_leaf self.now.sheet.now x).parts ≡ x.parts) }
    {
        if leaf >= self.sheet.count::<LeafRecord>() {
            return None;
        }
        Some(self.sheet.record(leaf))
    }

    // A part of the path of a leaf that has as many parts as its record says.
    fn part_of_record(&self, leaf: LeafRecord, part: usize) -> Option<&[u8]>
        requires { length (listed_leaf self.now.sheet.now leaf).parts ≡ leaf.parts }
        ensures { option_map (λ x. x.now) result ≡ slice_get (listed_leaf self.now.sheet.now leaf).parts part }
    {
        if part >= leaf.parts as usize {
            return None;
        }
        let name = self.sheet.record(leaf.first_part as usize + part);
        Some(self.sheet.name(name))
    }
}

impl LeafDirectory for ListedDirectory<'_> {
    ghost leaves = { λ d. listed_leaves d.sheet.now };

    ghost rising = { λ d. listed_never_fall d.sheet.now };

    fn count(&self) -> usize {
        self.sheet.count::<LeafRecord>()
    }

    fn root(&self, leaf: usize) -> Option<usize> {
        self.leaf_record(leaf).map(|found| found.root as usize)
    }

    fn parts(&self, leaf: usize) -> Option<usize> {
        self.leaf_record(leaf).map(|found| found.parts as usize)
    }

    fn part_is(&self, leaf: usize, part: usize, name: &[u8]) -> Option<bool> {
        self.part(leaf, part).map(|bytes| bytes == name)
    }
}

impl LeafPaths for ListedDirectory<'_> {
    fn part(&self, leaf: usize, part: usize) -> Option<&[u8]> {
        self.part_of_record(self.leaf_record(leaf)?, part)
    }
}
