//! How a walk goes on.
ghost use Rattle.std.specs.Prelude.{◌≡◌};
ghost use Rattle.checker.specs.Rules.{steps_of};

/// On to what stands below the node, or past it.
#[derive(Clone, Copy)]
pub enum TreeNodeRecursion {
    Continue,
    Jump,
}

impl TreeNodeRecursion {
    /// By how many places, where the node and all below it are so many.
    pub fn steps(self, span: usize) -> usize
        ensures { result ≡ steps_of self span }
    {
        match self {
            TreeNodeRecursion::Continue => 1,
            TreeNodeRecursion::Jump => span,
        }
    }
}
