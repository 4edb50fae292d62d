//! The records of a sheet, every field as its bytes give it, used or not. The kinds stay the layout's numbers, since a bad one
//! must be tellable and a blank record has none; `TypeKind` and the others stand beside them.

/// A name: `len` bytes of the section of names, from `start` on.
#[derive(Clone, Copy, Debug, Default, PartialEq, Eq)]
pub struct NameRef {
    pub start: u16,
    pub len: u16,
}

/// A type, or a part of one. Those below it stand behind it, within its span.
#[derive(Clone, Copy, Debug, Default, PartialEq, Eq)]
pub struct TypeRecord {
    pub kind: u8,
    pub nullable: u8,
    pub detail: u16,
    pub children: u16,
    pub span: u16,
    pub name: NameRef,
}

impl TypeRecord {
    /// Zeros: what stands behind the result in a buffer, and what is read behind the end of the section. A constant beside the
    /// derived default, since buffers are filled with it.
    pub const BLANK: TypeRecord = TypeRecord {
        kind: 0,
        nullable: 0,
        detail: 0,
        children: 0,
        span: 0,
        name: NameRef { start: 0, len: 0 },
    };
}

/// A root of the file, by the place of its type.
#[derive(Clone, Copy, Debug, Default, PartialEq, Eq)]
pub struct RootRecord {
    pub type_place: u16,
}

/// A leaf: its root, and its parts, which stand in the section of parts.
#[derive(Clone, Copy, Debug, Default, PartialEq, Eq)]
pub struct LeafRecord {
    pub root: u16,
    pub first_part: u16,
    pub parts: u16,
}

/// An element of Parquet's flattened schema. Those below it stand behind it.
#[derive(Clone, Copy, Debug, Default, PartialEq, Eq)]
pub struct ElementRecord {
    pub children: u16,
    pub name: NameRef,
}

/// A node of an expression. Those below it stand behind it, within its span.
#[derive(Clone, Copy, Debug, Default, PartialEq, Eq)]
pub struct NodeRecord {
    pub kind: u8,
    pub literal_kind: u8,
    pub children: u16,
    pub span: u16,
    pub name: NameRef,
    pub index: u16,
    pub type_place: u16,
    pub spare: u16,
    pub value: i64,
}

/// An expression, by the place of its top node.
#[derive(Clone, Copy, Debug, Default, PartialEq, Eq)]
pub struct ExpressionRecord {
    pub node_place: u16,
}
