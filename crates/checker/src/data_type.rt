//! Tests of the types of a sheet: three that differ in the kinds, one line each.
ghost use Rattle.std.specs.Prelude.{◌≡◌};
ghost use Rattle.rules.specs.Types.{is_nested, is_map, is_list};
ghost use Rattle.sheet.specs.SheetExpressions.{type_at_place};

use sheet::TypeKind;
use sheet::inner::TypeRef;

/// Every type but a leaf is nested.
pub fn is_nested(data_type: TypeRef<'_>) -> bool
    ensures { result ≡ is_nested (type_at_place data_type.entry.sheet.now data_type.entry.place) }
{
    !matches!(data_type.kind(), TypeKind::Leaf)
}

pub fn is_map(data_type: TypeRef<'_>) -> bool
    ensures { result ≡ is_map (type_at_place data_type.entry.sheet.now data_type.entry.place) }
{
    matches!(data_type.kind(), TypeKind::Map)
}

/// The kinds of lists that a predicate can support.
pub fn is_list(data_type: TypeRef<'_>) -> bool
    ensures { result ≡ is_list (type_at_place data_type.entry.sheet.now data_type.entry.place) }
{
    matches!(
        data_type.kind(),
        TypeKind::List | TypeKind::LargeList | TypeKind::FixedSizeList
    )
}
