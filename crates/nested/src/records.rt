//! Type records: the heads of clipped types, and which records say the same.
ghost use Rattle.std.specs.Prelude.{◌≡◌, ◌+◌, ◌<◌, ◌==◌, slice_index_or};
ghost use Rattle.format.specs.Records.{no_type};
ghost use Rattle.sheet.specs.Seen.{names_in, types_in};
ghost use Rattle.nested.specs.ClipSteps.{head_of};
ghost use Rattle.nested.specs.Alike.{used_detail, same_top, same_field};

use sheet::inner::TypeRef;
use sheet::{Sheet, TypeKind, TypeRecord};

/// The head of a type that has other children than before. (`access` writes its heads where it prunes: it does not rest on `nested`.)
pub(crate) fn headed(here: TypeRecord, children: u16, span: usize) -> TypeRecord
    requires { span < 65536 }
    ensures { result ≡ head_of here children span }
{
    TypeRecord {
        children,
        span: span as u16,
        ..here
    }
}

// The detail of a type whose kind uses one.
fn used_detail(one: TypeRecord) -> u16
    ensures { result ≡ used_detail one }
{
    match TypeKind::try_from(one.kind) {
        Ok(TypeKind::Leaf | TypeKind::FixedSizeList | TypeKind::Map) => one.detail,
        _ => 0,
    }
}

/// Whether a record is a leaf's.
pub(crate) fn is_leaf(one: TypeRecord) -> bool
    ensures { result ≡ (one.kind == 1) }
{
    matches!(TypeKind::try_from(one.kind), Ok(TypeKind::Leaf))
}

/// The record so many places behind the top of a type, and the blank record beyond the table.
pub(crate) fn record_behind(here: TypeRef<'_>, k: usize) -> TypeRecord
    ensures { result ≡ slice_index_or (types_in here.entry.sheet.now) (here.entry.place + k) no_type }
{
    here.sheet().record(here.place().saturating_add(k))
}

/// Whether two types are the same on top: in kind, number of children and used detail. No derive says that: some kinds do not
/// use their detail.
pub(crate) fn is_same_top(one: TypeRecord, other: TypeRecord) -> bool
    ensures { result ≡ same_top one other }
{
    one.kind == other.kind
        && one.children == other.children
        && used_detail(one) == used_detail(other)
}

/// Whether two fields or items are the same on top: as types, and in nullability and name, which is bytes elsewhere in the sheet, so no
/// derive says that.
pub(crate) fn is_same_field(sheet: &Sheet, one: TypeRecord, other: TypeRecord) -> bool
    ensures { result ≡ same_field (names_in sheet.now) one other }
{
    if !is_same_top(one, other) {
        return false;
    }
    one.nullable == other.nullable && sheet.name(one.name) == sheet.name(other.name)
}
