//! Makes good sheets of a given size. Numbers of the format stand here again: the bytes are written as docs/FORMAT.md has them, not as the
//! code that reads them does.
use crate::counts::Counts;
use crate::records::{NodeShape, SheetBytes, TypeShape};
use std::alloc::{AllocError, Global};

const FORM: u16 = 1;

const HEADER: u32 = 50;

const LEAF: TypeShape = TypeShape {
    kind: 1,
    children: 0,
    span: 1,
};

// A Struct of a Struct of two leaves, a List of a List of a leaf, and a leaf.
const TYPES: [TypeShape; 8] = [
    TypeShape {
        kind: 2,
        children: 3,
        span: 8,
    },
    TypeShape {
        kind: 2,
        children: 2,
        span: 3,
    },
    LEAF,
    LEAF,
    TypeShape {
        kind: 3,
        children: 1,
        span: 3,
    },
    TypeShape {
        kind: 3,
        children: 1,
        span: 2,
    },
    LEAF,
    LEAF,
];

// An element with two leaves.
const ELEMENTS: [u16; 3] = [2, 0, 0];

const TEXT: NodeShape = NodeShape {
    kind: 2,
    literal_kind: 1,
    children: 0,
    span: 1,
};

// A `get_field` of a column and two texts.
const NODES: [NodeShape; 4] = [
    NodeShape {
        kind: 3,
        literal_kind: 0,
        children: 3,
        span: 4,
    },
    NodeShape {
        kind: 1,
        literal_kind: 0,
        children: 0,
        span: 1,
    },
    TEXT,
    TEXT,
];

fn write_header(sheet: &mut SheetBytes, counts: Counts) -> Result<(), AllocError> {
    let widths = [
        (counts.names, 1),
        (counts.types, 12),
        (counts.roots, 2),
        (counts.leaves, 6),
        (counts.parts, 4),
        (counts.elements, 6),
        (counts.nodes, 24),
        (counts.expressions, 2),
    ];
    sheet.number(FORM)?;
    let mut start = HEADER;
    for (count, width) in widths {
        sheet.section(count, start)?;
        start = start.saturating_add(u32::from(count).saturating_mul(width));
    }
    Ok(())
}

// Writes so many records, each by its place.
fn write_each<F: Fn(&mut SheetBytes, u16) -> Result<(), AllocError>>(
    sheet: &mut SheetBytes,
    count: u16,
    write: F,
) -> Result<(), AllocError>
    requires { F.IsAlwaysCallable write }
{
    for place in 0..count {
        write(sheet, place)?;
    }
    Ok(())
}

/// The bytes of a good sheet, its sections one behind the other. Each root has four leaves, and each leaf two parts.
pub(crate) fn made_sheet(heap: Global, counts: Counts) -> Result<Vec<u8>, AllocError> {
    let mut sheet = SheetBytes::new(heap);
    write_header(&mut sheet, counts)?;
    write_each(&mut sheet, counts.names, |sheet, place| {
        sheet.byte(b'a' + (place % 26) as u8)
    })?;
    write_each(&mut sheet, counts.types, |sheet, place| {
        sheet.type_record(place, TYPES[place as usize % 8])
    })?;
    write_each(&mut sheet, counts.roots, |sheet, root| {
        sheet.number(root.saturating_mul(8))
    })?;
    write_each(&mut sheet, counts.leaves, |sheet, leaf| {
        sheet.leaf_record(leaf / 4, leaf.saturating_mul(2), 2)
    })?;
    write_each(&mut sheet, counts.parts, |sheet, part| sheet.name(part))?;
    sheet.element_record(0, counts.elements / 3)?;
    write_each(
        &mut sheet,
        counts.elements.saturating_sub(1),
        |sheet, place| {
            sheet.element_record(place.saturating_add(1), ELEMENTS[place as usize % 3])
        },
    )?;
    write_each(&mut sheet, counts.nodes, |sheet, place| {
        sheet.node_record(place, NODES[place as usize % 4])
    })?;
    write_each(&mut sheet, counts.expressions, |sheet, expression| {
        sheet.number(expression.saturating_mul(8))
    })?;
    Ok(sheet.into_bytes())
}
