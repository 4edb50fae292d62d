//! What a leaf directory answers, whatever it is made from.
ghost use Rattle.std.specs.Prelude.{◌≡◌, List, length};
ghost use Rattle.std.specs.Option.{option_map};
ghost use Rattle.std.specs.List.{slice_get};
ghost use Rattle.rules.specs.Leaves.{Leaf, roots, root_at, part_count_at, part_of, part_is, NeverFalls};

/// Which of a sheet's directories is meant.
#[derive(Clone, Copy, Debug, PartialEq, Eq)]
pub enum DirectoryKind {
    /// What its sections of leaves and parts list.
    Listed,
    /// What its elements flatten to.
    Flattened,
}

/// One fixed list of leaves, in the order of their roots.
pub trait LeafDirectory {
    /// The list that the directory stands for.
    ghost leaves: { Self → List Leaf };

    /// The law that every implementation shows: no leaf has a lower root than the leaf before it.
    ghost rising: { (d : Self) → NeverFalls (roots (leaves d)) };

    /// How many leaves there are.
    fn count(&self) -> usize
        ensures { result ≡ length (leaves self.now) };

    /// The root of a leaf, or none beyond the list.
    fn root(&self, leaf: usize) -> Option<usize>
        ensures { result ≡ root_at (leaves self.now) leaf };

    /// How many parts a leaf's path has, or none beyond the list.
    fn parts(&self, leaf: usize) -> Option<usize>
        ensures { result ≡ part_count_at (leaves self.now) leaf };

    /// Whether a part of a leaf's path is `name`, or none where there is no such part.
    /// No default reads it off `part`, which only `LeafPaths` has; so both directories here say it in the same words.
    fn part_is(&self, leaf: usize, part: usize, name: &[u8]) -> Option<bool>
        ensures { result ≡ part_is (leaves self.now) leaf part name.now };
}

/// A directory that also gives the bytes of the parts. Planning does not ask for them; who prints paths does.
pub trait LeafPaths: LeafDirectory {
    /// A part of a leaf's path, or none where there is no such part.
    fn part(&self, leaf: usize, part: usize) -> Option<&[u8]>
        ensures { option_map (λ x. x.now) result ≡ part_of (slice_get (Self.LeafDirectory.leaves self.now) leaf) part };
}
