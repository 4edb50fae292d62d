//! Columns and literals among the nodes of a sheet.
ghost use Rattle.std.specs.Prelude.{◌≡◌, ◌+◌, ◌≤◌, true, length, slice_index_or};
ghost use Rattle.std.specs.Option.{option_map};
ghost use Rattle.rules.specs.Expressions.{name_of_column};
ghost use Rattle.format.specs.Records.{no_node};
ghost use Rattle.sheet.specs.Seen.{nodes_in};
ghost use Rattle.sheet.specs.SheetExpressions.{expr_at};
ghost use Rattle.checker.specs.Visits.{Spelt, is_text_at, arguments_of, first_is_column, behind_first};

use sheet::inner::NodeRef;
use sheet::{LiteralKind, NodeKind};

/// The place right behind a node and all below it.
pub fn end_of(node: NodeRef<'_>) -> usize
    ensures value { result ≡ node.entry.place + (slice_index_or (nodes_in node.entry.sheet.now) node.entry.place no_node).span }
    ensures within { result ≤ length (nodes_in node.entry.sheet.now) }
{
    node.place() + node.record().span as usize
}

/// The name of a column, if the node is one.
pub fn column_name(node: NodeRef<'_>) -> Option<&[u8]>
    ensures { option_map (λ x. x.now) result ≡ name_of_column (expr_at node.entry.sheet.now node.entry.place) }
{
    // A match: of `matches!(..).then(..)` the result stayed open.
    match node.kind() {
        NodeKind::Column => Some(node.name()),
        _ => None,
    }
}

fn is_text_literal(node: NodeRef<'_>) -> bool
    ensures { result ≡ is_text_at node.entry.sheet.now node.entry.place }
{
    matches!(node.kind(), NodeKind::Literal)
        && matches!(
            LiteralKind::try_from(node.record().literal_kind),
            Ok(LiteralKind::Text)
        )
}

/// Where the first argument of an expression is a column: how many the others are, if all of them are text literals. They
/// then stand one behind the other from the next place but one on.
pub fn literal_path(node: NodeRef<'_>) -> Option<usize>
    requires column { first_is_column (arguments_of (expr_at node.sheet.now node.place)) ≡ true }
    ensures { Spelt node.entry.sheet.now (node.entry.place + 2) (behind_first (arguments_of (expr_at node.entry.sheet.now node.entry.place))) result }
{
    let sheet = node.sheet();
    let place = node.place();
    let first = place + 2;
    let end = end_of(node);
    (first..end)
        .all(|at| is_text_literal(NodeRef::at(sheet, at)))
        .then_some(end - first)
}
