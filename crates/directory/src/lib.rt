//! Leaf directories: which leaves a file has, each with its root and its path.
#![tactic(auto)]

mod directory;
mod flattened;
mod listed;

pub use directory::{DirectoryKind, LeafDirectory, LeafPaths};
pub use flattened::FlattenedDirectory;
pub use listed::ListedDirectory;
