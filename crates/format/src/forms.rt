//! How each record stands in its bytes, and which rules its own fields keep.
ghost use Rattle.std.specs.Prelude.{◌≡◌, ℕ, ◌+◌, ◌≤◌, length, ◌==◌};
ghost use Rattle.format.specs.Blanks.{zero_name, zero_type, zero_root, zero_leaf, zero_element, zero_node, zero_expression};
ghost use Rattle.format.specs.Good.{good_name, type_children, node_children, literal_fields, node_fields, fair_type, fair_root, fair_leaf, fair_part, fair_element, fair_node, fair_expression};
ghost use Rattle.format.specs.Records.{name_from, type_from, root_from, leaf_from, element_from, node_from, expression_from, no_name, no_type, no_root, no_leaf, no_element, no_node, no_expression};

use crate::check::{Checked, Preorder};
use crate::decode::Record;
use crate::kinds::{LiteralKind, NodeKind, TypeKind};
use crate::layout::Layout;
use crate::read::{read_i64, read_u16};
use crate::records::{
    ElementRecord, ExpressionRecord, LeafRecord, NameRef, NodeRecord, RootRecord, TypeRecord,
};

const MAX_NAME: u16 = 255;

impl Record for NameRef {
    ghost width = { 4 };

    ghost from = { name_from };

    ghost blank = { no_name };

    fn size() -> usize {
        4
    }

    fn read(bytes: &[u8], at: usize) -> NameRef {
        NameRef {
            start: read_u16(bytes, at),
            len: read_u16(bytes, at + 2),
        }
    }

    ghost defaults = { zero_name };
}

impl Record for TypeRecord {
    ghost width = { 12 };

    ghost from = { type_from };

    ghost blank = { no_type };

    fn size() -> usize {
        12
    }

    fn read(bytes: &[u8], at: usize) -> TypeRecord {
        TypeRecord {
            kind: bytes[at],
            nullable: bytes[at + 1],
            detail: read_u16(bytes, at + 2),
            children: read_u16(bytes, at + 4),
            span: read_u16(bytes, at + 6),
            name: <NameRef as Record>::read(bytes, at + 8),
        }
    }

    ghost defaults = { zero_type };
}

impl Record for RootRecord {
    ghost width = { 2 };

    ghost from = { root_from };

    ghost blank = { no_root };

    fn size() -> usize {
        2
    }

    fn read(bytes: &[u8], at: usize) -> RootRecord {
        RootRecord {
            type_place: read_u16(bytes, at),
        }
    }

    ghost defaults = { zero_root };
}

impl Record for LeafRecord {
    ghost width = { 6 };

    ghost from = { leaf_from };

    ghost blank = { no_leaf };

    fn size() -> usize {
        6
    }

    fn read(bytes: &[u8], at: usize) -> LeafRecord {
        LeafRecord {
            root: read_u16(bytes, at),
            first_part: read_u16(bytes, at + 2),
            parts: read_u16(bytes, at + 4),
        }
    }

    ghost defaults = { zero_leaf };
}

impl Record for ElementRecord {
    ghost width = { 6 };

    ghost from = { element_from };

    ghost blank = { no_element };

    fn size() -> usize {
        6
    }

    fn read(bytes: &[u8], at: usize) -> ElementRecord {
        ElementRecord {
            children: read_u16(bytes, at),
            name: <NameRef as Record>::read(bytes, at + 2),
        }
    }

    ghost defaults = { zero_element };
}

impl Record for NodeRecord {
    ghost width = { 24 };

    ghost from = { node_from };

    ghost blank = { no_node };

    fn size() -> usize {
        24
    }

    fn read(bytes: &[u8], at: usize) -> NodeRecord {
        NodeRecord {
            kind: bytes[at],
            literal_kind: bytes[at + 1],
            children: read_u16(bytes, at + 2),
            span: read_u16(bytes, at + 4),
            name: <NameRef as Record>::read(bytes, at + 6),
            index: read_u16(bytes, at + 10),
            type_place: read_u16(bytes, at + 12),
            spare: read_u16(bytes, at + 14),
            value: read_i64(bytes, at + 16),
        }
    }

    ghost defaults = { zero_node };
}

impl Record for ExpressionRecord {
    ghost width = { 2 };

    ghost from = { expression_from };

    ghost blank = { no_expression };

    fn size() -> usize {
        2
    }

    fn read(bytes: &[u8], at: usize) -> ExpressionRecord {
        ExpressionRecord {
            node_place: read_u16(bytes, at),
        }
    }

    ghost defaults = { zero_expression };
}

impl NameRef {
    // Whether the name is short and lies in a section of so many bytes.
    fn lies_in(self, names: u16) -> bool
        ensures { result ≡ good_name names self }
    {
        self.start as u32 + self.len as u32 <= names as u32 && self.len <= MAX_NAME
    }
}

impl TypeRecord {
    fn is_struct(self) -> bool
        ensures { result ≡ (self.kind == 2) }
    {
        matches!(TypeKind::try_from(self.kind), Ok(TypeKind::Struct))
    }
}

// Whether a type of this kind may have so many children, the first of which stands right behind it.
fn type_children_fit(kind: Option<TypeKind>, children: u16, behind: TypeRecord) -> bool
    ensures { result ≡ type_children kind children behind }
{
    match kind {
        Some(TypeKind::Leaf) => children == 0,
        Some(TypeKind::Struct) => true,
        Some(TypeKind::Map) => children == 1 && behind.is_struct() && behind.children == 2,
        Some(
            TypeKind::List
            | TypeKind::LargeList
            | TypeKind::ListView
            | TypeKind::LargeListView
            | TypeKind::FixedSizeList,
        ) => children == 1,
        None => false,
    }
}

// Whether a node of this kind may have so many children.
fn node_children_fit(kind: Option<NodeKind>, children: u16) -> bool
    ensures { result ≡ node_children kind children }
{
    match kind {
        Some(NodeKind::Column | NodeKind::Literal) => children == 0,
        Some(NodeKind::Cast | NodeKind::IsNull | NodeKind::IsNotNull) => children == 1,
        Some(
            NodeKind::GetField
            | NodeKind::InputFileName
            | NodeKind::FileRowIndex
            | NodeKind::ScalarFunction
            | NodeKind::Operator,
        ) => children <= 8,
        None => false,
    }
}

// Whether a literal of this kind may have this name.
fn literal_fits(kind: Option<LiteralKind>, names: u16, name: NameRef) -> bool
    ensures { result ≡ literal_fields kind names name }
{
    match kind {
        Some(LiteralKind::Null | LiteralKind::Integer) => true,
        Some(LiteralKind::Text) => name.lies_in(names),
        None => false,
    }
}

// Whether the fields that a node of this kind uses are in their sets.
fn node_fields_fit(kind: Option<NodeKind>, layout: Layout, node: NodeRecord) -> bool
    ensures { result ≡ node_fields kind layout node }
{
    match kind {
        Some(NodeKind::Column | NodeKind::ScalarFunction | NodeKind::Operator) => {
            node.name.lies_in(layout.names.count)
        }
        Some(NodeKind::Literal) => literal_fits(
            LiteralKind::try_from(node.literal_kind).ok(),
            layout.names.count,
            node.name,
        ),
        Some(NodeKind::GetField | NodeKind::Cast) => node.type_place < layout.types.count,
        Some(
            NodeKind::IsNull
            | NodeKind::IsNotNull
            | NodeKind::InputFileName
            | NodeKind::FileRowIndex,
        ) => true,
        None => false,
    }
}

impl Checked for TypeRecord {
    ghost fair = { fair_type };

    fn is_fair(self, _before: TypeRecord, behind: TypeRecord, layout: Layout) -> bool {
        type_children_fit(TypeKind::try_from(self.kind).ok(), self.children, behind)
            && self.nullable <= 1
            && self.name.lies_in(layout.names.count)
    }
}

impl Checked for RootRecord {
    ghost fair = { fair_root };

    fn is_fair(self, _before: RootRecord, _behind: RootRecord, layout: Layout) -> bool {
        self.type_place < layout.types.count
    }
}

impl Checked for LeafRecord {
    ghost fair = { fair_leaf };

    fn is_fair(self, before: LeafRecord, _behind: LeafRecord, layout: Layout) -> bool {
        self.root < layout.roots.count
            && before.root <= self.root
            && (self.parts == 0
                || self.first_part as u32 + self.parts as u32 <= layout.parts.count as u32)
    }
}

impl Checked for NameRef {
    ghost fair = { fair_part };

    fn is_fair(self, _before: NameRef, _behind: NameRef, layout: Layout) -> bool {
        self.lies_in(layout.names.count)
    }
}

impl Checked for ElementRecord {
    ghost fair = { fair_element };

    fn is_fair(self, _before: ElementRecord, _behind: ElementRecord, layout: Layout) -> bool {
        self.name.lies_in(layout.names.count)
    }
}

impl Checked for NodeRecord {
    ghost fair = { fair_node };

    fn is_fair(self, _before: NodeRecord, _behind: NodeRecord, layout: Layout) -> bool {
        let kind = NodeKind::try_from(self.kind).ok();
        node_children_fit(kind, self.children) && node_fields_fit(kind, layout, self)
    }
}

impl Checked for ExpressionRecord {
    ghost fair = { fair_expression };

    fn is_fair(self, _before: ExpressionRecord, _behind: ExpressionRecord, layout: Layout) -> bool {
        self.node_place < layout.nodes.count
    }
}

impl Preorder for TypeRecord {
    ghost kids = { λ t. t.children };

    ghost reach = { λ t. t.span };

    fn children(self) -> u16 {
        self.children
    }

    fn span(self) -> u16 {
        self.span
    }
}

impl Preorder for NodeRecord {
    ghost kids = { λ t. t.children };

    ghost reach = { λ t. t.span };

    fn children(self) -> u16 {
        self.children
    }

    fn span(self) -> u16 {
        self.span
    }
}
