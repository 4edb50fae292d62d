//! The paths of leaves.
use crate::names::NameText;
use directory::{FlattenedDirectory, LeafPaths, ListedDirectory};
use std::fmt;

/// A directory with a title.
pub(crate) trait Titled {
    /// What the directory is called.
    fn title(&self) -> &'static str;
}

impl Titled for ListedDirectory<'_> {
    fn title(&self) -> &'static str {
        "listed"
    }
}

impl Titled for FlattenedDirectory<'_> {
    fn title(&self) -> &'static str {
        "flattened"
    }
}

/// The path of a leaf: its parts, joined by dots. The leaf is a number, as a directory of any maker is asked by one.
#[derive_where(Clone, Copy)]
pub(crate) struct LeafPath<'a, D> {
    pub directory: &'a D,
    pub leaf: usize,
}

impl<D: LeafPaths> fmt::Display for LeafPath<'_, D> {
    fn fmt<W: fmt::Write>(&self, f: &mut fmt::Formatter<W>) -> fmt::Result {
        for part in 0..self.directory.parts(self.leaf).unwrap_or(0) {
            if part > 0 {
                f.write_str(".")?;
            }
            let name = NameText(self.directory.part(self.leaf, part).unwrap_or(&[]));
            write!(f, "{name}")?;
        }
        Ok(())
    }
}
