//! Pairs of types, the one that is read and the one that a cast asks for.
ghost use Rattle.std.specs.Prelude.{◌≡◌, Some};
ghost use Rattle.nested.specs.PairKinds.{pair_of};

use sheet::TypeKind;

/// Two Structs, whose fields meet by name; two lists of one kind, whose items meet; or two others, which a cast does not look
/// into.
#[derive(Clone, Copy)]
pub(crate) enum Pair {
    Structs,
    Lists,
    Others,
}

/// The pair that two kinds are.
pub(crate) fn pair_up(here: TypeKind, there: TypeKind) -> Pair
    ensures { result ≡ pair_of (Some here) (Some there) }
{
    match (here, there) {
        (TypeKind::Struct, TypeKind::Struct) => Pair::Structs,
        (TypeKind::List, TypeKind::List) | (TypeKind::LargeList, TypeKind::LargeList) =>
            Pair::Lists,
        _ => Pair::Others,
    }
}
