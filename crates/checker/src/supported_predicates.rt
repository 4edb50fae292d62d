//! Ported from `src/supported_predicates.rs` of the crate datafusion-datasource-parquet 55.0.0, changed: an expression is a
//! node of a sheet.
ghost use Rattle.std.specs.Prelude.{◌≡◌};
ghost use Rattle.rules.specs.Expressions.{has_list_predicate, is_array_function};
ghost use Rattle.sheet.specs.SheetExpressions.{expr_at};
ghost use Rattle.access.specs.Accesses.{node_name};
ghost use Rattle.checker.specs.Visits.{kind_at};
ghost use Rattle.checker.specs.Predicates.{is_null_check, is_supported_function, is_asked};

use crate::nodes::end_of;
use sheet::NodeKind;
use sheet::inner::NodeRef;

// Whether a node is an is null or an is not null.
fn is_null_check(node: NodeRef<'_>) -> bool
    ensures { result ≡ is_null_check (kind_at node.entry.sheet.now node.entry.place) }
{
    matches!(node.kind(), NodeKind::IsNull | NodeKind::IsNotNull)
}

// The registry of functions that may be asked of a list.
fn is_array_function(name: &[u8]) -> bool
    ensures { result ≡ is_array_function name.now }
{
    [
        b"array_has".as_slice(),
        b"array_has_all".as_slice(),
        b"array_has_any".as_slice(),
    ]
    .contains(&name)
}

// Whether a node is a scalar function that may be asked of a list.
fn is_supported_scalar_function(node: NodeRef<'_>) -> bool
    ensures { result ≡ is_supported_function (kind_at node.entry.sheet.now node.entry.place) (node_name node.entry.sheet.now node.entry.place) }
{
    matches!(node.kind(), NodeKind::ScalarFunction) && is_array_function(node.name())
}

// Whether a node itself may be asked of a list.
fn supports_list_pushdown(node: NodeRef<'_>) -> bool
    ensures { result ≡ is_asked (kind_at node.entry.sheet.now node.entry.place) (node_name node.entry.sheet.now node.entry.place) }
{
    is_null_check(node) || is_supported_scalar_function(node)
}

/// Whether an expression, or one below it, is one that may be asked of a list.
pub fn supports_list_predicates(node: NodeRef<'_>) -> bool
    ensures { result ≡ has_list_predicate (expr_at node.entry.sheet.now node.entry.place) }
{
    let sheet = node.sheet();
    let place = node.place();
    (place..end_of(node)).any(|at| supports_list_pushdown(NodeRef::at(sheet, at)))
}
