//! How large the sheets are.

/// How many records each section has. The types come in groups of 8, the elements behind the first in groups of 3, and
/// the nodes in groups of 4.
#[derive(Clone, Copy)]
pub(crate) struct Counts {
    pub names: u16,
    pub types: u16,
    pub roots: u16,
    pub leaves: u16,
    pub parts: u16,
    pub elements: u16,
    pub nodes: u16,
    pub expressions: u16,
}

/// A sheet of 65,536 bytes, which is as large as a sheet may be.
pub(crate) const LARGEST: Counts = Counts {
    names: 7502,
    types: 2048,
    roots: 256,
    leaves: 1024,
    parts: 2048,
    elements: 1024,
    nodes: 512,
    expressions: 64,
};

/// A sheet of 32,768 bytes.
pub(crate) const HALF: Counts = Counts {
    names: 3732,
    types: 1024,
    roots: 128,
    leaves: 512,
    parts: 1024,
    elements: 511,
    nodes: 256,
    expressions: 32,
};

/// A sheet of 16,384 bytes.
pub(crate) const QUARTER: Counts = Counts {
    names: 1838,
    types: 512,
    roots: 64,
    leaves: 256,
    parts: 512,
    elements: 256,
    nodes: 128,
    expressions: 16,
};
