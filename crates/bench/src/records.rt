//! Writes the records of a sheet.
use std::alloc::{AllocError, Global};

/// The fields of a type that differ within a group of types. The kind is the layout's number, as it is written.
#[derive(Clone, Copy)]
pub(crate) struct TypeShape {
    pub kind: u8,
    pub children: u16,
    pub span: u16,
}

/// The fields of a node that differ within a group of nodes. The kinds are the layout's numbers, as they are written.
#[derive(Clone, Copy)]
pub(crate) struct NodeShape {
    pub kind: u8,
    pub literal_kind: u8,
    pub children: u16,
    pub span: u16,
}

/// The bytes of a sheet, as far as they are written.
#[derive(Drop)]
pub(crate) struct SheetBytes {
    bytes: Vec<u8>,
}

impl SheetBytes {
    pub(crate) fn new(heap: Global) -> SheetBytes {
        SheetBytes {
            bytes: Vec::new(heap),
        }
    }

    pub(crate) fn into_bytes(self) -> Vec<u8> {
        self.bytes
    }

    pub(crate) fn byte(&mut self, byte: u8) -> Result<(), AllocError> {
        self.bytes.push(byte)?;
        Ok(())
    }

    pub(crate) fn number(&mut self, number: u16) -> Result<(), AllocError> {
        self.bytes.extend_from_slice(&number.to_le_bytes())
    }

    // A section's line in the header.
    pub(crate) fn section(&mut self, count: u16, start: u32) -> Result<(), AllocError> {
        self.number(count)?;
        self.bytes.extend_from_slice(&start.to_le_bytes())
    }

    // A name of eight bytes that starts within the first thousand or so.
    pub(crate) fn name(&mut self, place: u16) -> Result<(), AllocError> {
        self.number(place % 1024)?;
        self.number(8)
    }

    pub(crate) fn type_record(&mut self, place: u16, shape: TypeShape) -> Result<(), AllocError> {
        self.byte(shape.kind)?;
        self.byte(1)?;
        self.number(2)?;
        self.number(shape.children)?;
        self.number(shape.span)?;
        self.name(place)
    }

    pub(crate) fn leaf_record(
        &mut self,
        root: u16,
        first_part: u16,
        parts: u16,
    ) -> Result<(), AllocError> {
        self.number(root)?;
        self.number(first_part)?;
        self.number(parts)
    }

    pub(crate) fn element_record(&mut self, place: u16, children: u16) -> Result<(), AllocError> {
        self.number(children)?;
        self.name(place)
    }

    pub(crate) fn node_record(&mut self, place: u16, shape: NodeShape) -> Result<(), AllocError> {
        self.byte(shape.kind)?;
        self.byte(shape.literal_kind)?;
        self.number(shape.children)?;
        self.number(shape.span)?;
        self.name(place)?;
        self.bytes.extend_from_slice(&[0; 14])
    }
}
