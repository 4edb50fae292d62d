//! The memory of a collection.
ghost use Rattle.std.specs.Prelude.{◌≡◌, ◌≤◌, length};

use access::{CastColumnAccess, StructFieldAccess};

/// The records that collections write down: the numbers of the expressions, the casts and the accesses. Those behind a
/// collection's counts are free scratch. Arrays, not vectors: they are lent at each call, and each collection has counts of its own.
#[derive(Drop)]
pub struct Records {
    pub(crate) expressions: [u16; 64],
    pub(crate) casts: [CastColumnAccess; 64],
    pub(crate) accesses: [StructFieldAccess; 256],
    ghost expressions_sized: { length expressions ≡ 64 },
    ghost casts_sized: { length casts ≡ 64 },
    ghost accesses_sized: { length accesses ≡ 256 },
}

/// How many expressions, casts and accesses are held.
#[derive(Clone, Copy)]
pub(crate) struct Counts {
    pub(crate) expressions: usize,
    pub(crate) casts: usize,
    pub(crate) accesses: usize,
    ghost expressions_within: { expressions ≤ 64 },
    ghost casts_within: { casts ≤ 64 },
    ghost accesses_within: { accesses ≤ 256 },
}

/// What a collection holds, by its counts. It is moved, and never copied. Its tables are not in it: they are lent at each
/// call.
#[derive(Drop)]
pub struct Collection {
    pub(crate) counts: Counts,
}
