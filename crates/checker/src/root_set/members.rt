//! What is in a set of roots.
ghost use Rattle.std.specs.Prelude.{◌≡◌, ℕ, ◌<◌, true, false, ◌||◌, set, replicate, slice_index_or, slice_set};
ghost use Rattle.rules.specs.RootPlan.{is_listed};
ghost use Rattle.checker.specs.Found.{roots_of};
ghost use Rattle.checker.specs.Notes.{flagged};

use crate::root_set::{RootList, RootSet};
use arrayvec::ArrayVec;

impl RootSet {
    /// The set without roots.
    pub fn new() -> RootSet
        ensures { result.flags ≡ replicate 256 false }
    {
        RootSet {
            flags: [false; 256],
        }
    }

    pub fn insert(&mut self, root: usize)
        requires { root < 256 }
        ensures { self.new.flags ≡ slice_set self.old.flags root true }
    {
        self.flags[root] = true;
    }

    /// Takes in each root of a list.
    pub fn insert_all(&mut self, roots: &RootList)
        ensures { (j : ℕ) → slice_index_or self.new.flags j false ≡ (slice_index_or self.old.flags j false || is_listed (roots_of roots.now) j) }
    {
        for root in roots.as_slice() {
            self.flags[*root] = true;
        }
    }

    /// The roots of the set, ascending.
    pub fn sorted(&self) -> RootList
        ensures { roots_of result ≡ flagged 0 self.now.flags }
    {
        let mut roots = ArrayVec::new();
        // A loop: `collect` answers a `Result`, for roots that do not fit.
        for (root, flag) in self.flags.iter().enumerate() {
            if *flag {
                roots.push(root);
            }
        }
        RootList { roots }
    }
}

impl RootList {
    pub fn as_slice(&self) -> &[usize]
        ensures { result.now ≡ roots_of self.now }
    {
        self.roots.as_slice()
    }
}
