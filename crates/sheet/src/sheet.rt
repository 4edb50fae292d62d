//! An opened sheet.
ghost use Rattle.std.specs.Prelude.{◌≡◌, false, length, is_some};
ghost use Rattle.format.specs.Format.{Laid, Few, Each, types_at, roots_at, leaves_at, parts_at, elements_at, nodes_at, expressions_at};
ghost use Rattle.format.specs.Good.{good_type, good_node, first_bad_element, fair_at, fair_root, fair_leaf, fair_part, fair_expression};
ghost use Rattle.format.specs.Records.{no_name, no_root, no_leaf, no_expression};

use format::Fault;
use format::inner::Layout;

mod lookup;
mod opening;
mod trees;
mod views;

pub use opening::open;

/// Bytes that are a sheet: the sections lie inside them, have few enough records, and every record is good. So a tree of
/// at most 32 levels stands at every place of types and of nodes (`trees_stand`), elements are one tree, every name that
/// a record uses lies in the names, and every place that one uses lies in its section.
#[derive(Drop)]
pub struct Sheet {
    bytes: Vec<u8>,
    layout: Layout,
    ghost laid: { Laid layout (length bytes.items) },
    ghost few: { Few layout },
    ghost types: { Each layout.types.count (good_type layout (types_at layout bytes.items)) },
    ghost roots: { Each layout.roots.count (fair_at (fair_root layout) no_root (roots_at layout bytes.items)) },
    ghost leaves: { Each layout.leaves.count (fair_at (fair_leaf layout) no_leaf (leaves_at layout bytes.items)) },
    ghost parts: { Each layout.parts.count (fair_at (fair_part layout) no_name (parts_at layout bytes.items)) },
    ghost elements: { is_some (first_bad_element layout (elements_at layout bytes.items)) ≡ false },
    ghost nodes: { Each layout.nodes.count (good_node layout (nodes_at layout bytes.items)) },
    ghost expressions: { Each layout.expressions.count (fair_at (fair_expression layout) no_expression (expressions_at layout bytes.items)) },
}

/// Bytes that are no sheet, handed back.
#[derive(Drop)]
pub struct Unopened {
    pub fault: Fault,
    pub bytes: Vec<u8>,
}
