//! What the kinds of the layout mean.
ghost use Rattle.std.specs.Prelude.{◌≡◌, ok_or};
ghost use Rattle.format.specs.Kinds.{type_kind_of, node_kind_of, literal_kind_of};

/// A number of the layout that stands for no kind.
#[derive(Clone, Copy, Debug, PartialEq, Eq)]
pub struct UnknownKind(pub u8);

/// The kinds of types, each with its number of the layout.
#[derive(Clone, Copy, Debug, PartialEq, Eq)]
pub enum TypeKind {
    Leaf,
    Struct,
    List,
    LargeList,
    ListView,
    LargeListView,
    FixedSizeList,
    Map,
}

impl TryFrom<u8> for TypeKind {
    type Error = UnknownKind;

    ghost try_from_gives = { λ code kind. kind ≡ ok_or (type_kind_of code) (record { 0 = code }) };

    fn try_from(code: u8) -> Result<TypeKind, UnknownKind> {
        match code {
            1 => Ok(TypeKind::Leaf),
            2 => Ok(TypeKind::Struct),
            3 => Ok(TypeKind::List),
            4 => Ok(TypeKind::LargeList),
            5 => Ok(TypeKind::ListView),
            6 => Ok(TypeKind::LargeListView),
            7 => Ok(TypeKind::FixedSizeList),
            8 => Ok(TypeKind::Map),
            _ => Err(UnknownKind(code)),
        }
    }
}

/// The kinds of the nodes of an expression, each with its number of the layout.
#[derive(Clone, Copy, Debug, PartialEq, Eq)]
pub enum NodeKind {
    Column,
    Literal,
    GetField,
    Cast,
    IsNull,
    IsNotNull,
    InputFileName,
    FileRowIndex,
    ScalarFunction,
    Operator,
}

impl TryFrom<u8> for NodeKind {
    type Error = UnknownKind;

    ghost try_from_gives = { λ code kind. kind ≡ ok_or (node_kind_of code) (record { 0 = code }) };

    fn try_from(code: u8) -> Result<NodeKind, UnknownKind> {
        match code {
            1 => Ok(NodeKind::Column),
            2 => Ok(NodeKind::Literal),
            3 => Ok(NodeKind::GetField),
            4 => Ok(NodeKind::Cast),
            5 => Ok(NodeKind::IsNull),
            6 => Ok(NodeKind::IsNotNull),
            7 => Ok(NodeKind::InputFileName),
            8 => Ok(NodeKind::FileRowIndex),
            9 => Ok(NodeKind::ScalarFunction),
            10 => Ok(NodeKind::Operator),
            _ => Err(UnknownKind(code)),
        }
    }
}

/// The kinds of literals, each with its number of the layout.
#[derive(Clone, Copy, Debug, PartialEq, Eq)]
pub enum LiteralKind {
    Null,
    Text,
    Integer,
}

impl TryFrom<u8> for LiteralKind {
    type Error = UnknownKind;

    ghost try_from_gives = { λ code kind. kind ≡ ok_or (literal_kind_of code) (record { 0 = code }) };

    fn try_from(code: u8) -> Result<LiteralKind, UnknownKind> {
        match code {
            0 => Ok(LiteralKind::Null),
            1 => Ok(LiteralKind::Text),
            2 => Ok(LiteralKind::Integer),
            _ => Err(UnknownKind(code)),
        }
    }
}
