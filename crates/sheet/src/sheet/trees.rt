//! What every sheet stands for.
ghost use Rattle.sheet.specs.SheetTrees.{TreesStand};

use crate::sheet::Sheet;

impl Sheet {
    /// A tree of at most 32 levels stands at every place of types and of nodes.
    pub fn trees_stand(&self)
        ensures { TreesStand self.now }
    {}
}
