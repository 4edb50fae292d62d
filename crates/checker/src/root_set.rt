//! Sets of roots.
ghost use Rattle.std.specs.Prelude.{◌≡◌, ℕ, ◌<◌, length, slice_index};

use arrayvec::ArrayVec;

mod members;

/// A set of roots, of which a sheet has at most 256: a flag for each, so no length stands beside them.
#[derive(Drop)]
pub struct RootSet {
    pub flags: [bool; 256],
    ghost sized: { length flags ≡ 256 },
}

/// Roots in a row, at most 256, each of which can be in a set.
#[derive(Drop)]
pub struct RootList {
    pub roots: ArrayVec<usize, 256>,
    ghost low: { (k : ℕ) → k < length roots.items → slice_index roots.items k < 256 },
}
