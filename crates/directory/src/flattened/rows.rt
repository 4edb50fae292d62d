//! What is known of elements while and after a directory is built.

/// An element: its place, the number of its root, and how many elements lead to it from its root's on.
#[derive(Clone, Copy, Debug, Default, PartialEq, Eq)]
pub(crate) struct ElementRow {
    pub element: u16,
    pub root: u16,
    pub parts: u16,
}

/// Where an element stands: its parent, its root, how many elements lead to its parent, and the number of roots that
/// have begun with it.
#[derive(Clone, Copy)]
pub(crate) struct Seat {
    pub parent: u16,
    pub root: u16,
    pub above: u16,
    pub roots: u16,
}
