//! The records that a sheet holds, section by section.
ghost use Rattle.std.specs.Prelude.{◌≡◌, ℕ};
ghost use Rattle.format.specs.declared.layout.Layout.{Layout};
ghost use Rattle.format.specs.declared.layout.Section.{Section};
ghost use Rattle.format.specs.Format.{Laid};
ghost use Rattle.format.specs.Records.{Inside};
ghost use Rattle.sheet.specs.Sections.{laid_types, laid_roots, laid_leaves, laid_parts, laid_elements, laid_nodes, laid_expressions};

use format::inner::{Layout, Record, Section};
use format::{
    ElementRecord, ExpressionRecord, LeafRecord, NameRef, NodeRecord, RootRecord, TypeRecord,
};

/// A record that one section of each sheet is made of.
pub trait SectionRecord: Record {
    /// The section, of those of a layout.
    ghost section_of: { Layout → Section };

    fn section(layout: Layout) -> Section
        ensures { result ≡ section_of layout };

    /// The law that every implementation shows: where the sections lie inside some bytes, its records do.
    ghost lies: { (l : Layout) (bytes : ℕ) → Laid l bytes → Inside Self.Record.width (section_of l).count (section_of l).start bytes };
}

impl SectionRecord for TypeRecord {
    ghost section_of = { λ l. l.types };

    ghost lies = { laid_types };

    fn section(layout: Layout) -> Section {
        layout.types
    }
}

impl SectionRecord for RootRecord {
    ghost section_of = { λ l. l.roots };

    ghost lies = { laid_roots };

    fn section(layout: Layout) -> Section {
        layout.roots
    }
}

impl SectionRecord for LeafRecord {
    ghost section_of = { λ l. l.leaves };

    ghost lies = { laid_leaves };

    fn section(layout: Layout) -> Section {
        layout.leaves
    }
}

// Parts are names, one behind the other.
impl SectionRecord for NameRef {
    ghost section_of = { λ l. l.parts };

    ghost lies = { laid_parts };

    fn section(layout: Layout) -> Section {
        layout.parts
    }
}

impl SectionRecord for ElementRecord {
    ghost section_of = { λ l. l.elements };

    ghost lies = { laid_elements };

    fn section(layout: Layout) -> Section {
        layout.elements
    }
}

impl SectionRecord for NodeRecord {
    ghost section_of = { λ l. l.nodes };

    ghost lies = { laid_nodes };

    fn section(layout: Layout) -> Section {
        layout.nodes
    }
}

impl SectionRecord for ExpressionRecord {
    ghost section_of = { λ l. l.expressions };

    ghost lies = { laid_expressions };

    fn section(layout: Layout) -> Section {
        layout.expressions
    }
}
