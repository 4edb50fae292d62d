//! The leaves of a directory as text.
use crate::hex::Hex;
use directory::LeafPaths;
use std::fmt;

/// A leaf: its root, and the parts of its path in digits. `pogbaye` writes paths too, by their letters and without the root.
#[derive_where(Clone, Copy)]
struct LeafLine<'a, D> {
    directory: &'a D,
    leaf: usize,
}

impl<D: LeafPaths> fmt::Display for LeafLine<'_, D> {
    fn fmt<W: fmt::Write>(&self, f: &mut fmt::Formatter<W>) -> fmt::Result {
        let root = self.directory.root(self.leaf).unwrap_or(0);
        let parts = self.directory.parts(self.leaf).unwrap_or(0);
        write!(f, "{root}:")?;
        for part in 0..parts {
            if part > 0 {
                f.write_str(".")?;
            }
            let name = Hex(self.directory.part(self.leaf, part).unwrap_or(&[]));
            write!(f, "{name}")?;
        }
        Ok(())
    }
}

/// All leaves of a directory.
#[derive_where(Clone, Copy)]
pub(crate) struct LeafList<'a, D> {
    pub directory: &'a D,
}

impl<D: LeafPaths> fmt::Display for LeafList<'_, D> {
    fn fmt<W: fmt::Write>(&self, f: &mut fmt::Formatter<W>) -> fmt::Result {
        let directory = self.directory;
        let count = directory.count();
        f.write_str("leaves")?;
        if count == 0 {
            f.write_str(" -")?;
        }
        for leaf in 0..count {
            let line = LeafLine { directory, leaf };
            write!(f, " {line}")?;
        }
        Ok(())
    }
}
