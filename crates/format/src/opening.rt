//! Which fault bytes have.
ghost use Rattle.std.specs.Prelude.{◌≡◌, ◌&&◌, length, Some, None, MatchResult};
ghost use Rattle.std.specs.Option.{option_map};
ghost use Rattle.std.specs.Result.{result_err};
ghost use Rattle.rules.specs.Preorder.{placed};
ghost use Rattle.rules.specs.Searches.{first_failing};
ghost use Rattle.format.specs.declared.fault.Fault.TheVariants.{BadRecord};
ghost use Rattle.format.specs.Format.{Laid, Few, record_fault, fault_of};
ghost use Rattle.format.specs.Good.{first_unfair, fair_at};
ghost use Rattle.format.specs.Layouts.{layout_of};
ghost use Rattle.format.specs.Records.{by_place};

use crate::check::{Checked, Preorder, first_misplaced, first_unfair};
use crate::decode::Records;
use crate::elements::first_bad_element;
use crate::fault::Fault;
use crate::layout::Layout;
use crate::records::{ExpressionRecord, LeafRecord, NameRef, NodeRecord, RootRecord, TypeRecord};
use crate::search::earlier;

// The first bad record of a section whose records are judged by their own fields alone.
fn first_bad_flat<R: Checked>(records: &Records<'_, R>, layout: Layout) -> Option<u16>
    ensures { result ≡ first_unfair (R.Checked.fair layout) R.Record.blank records.now }
{
    first_unfair(records, layout, 0)
}

// The first bad record of a section in preorder.
fn first_bad_nested<R: Checked + Preorder>(records: &Records<'_, R>, layout: Layout) -> Option<u16>
    ensures { result ≡ first_failing (λ p. fair_at (R.Checked.fair layout) R.Record.blank records.now p && placed (by_place R.Preorder.kids R.Record.blank records.now) (by_place R.Preorder.reach R.Record.blank records.now) (length records.now) 32 p) 0 (length records.now) }
{
    earlier(first_unfair(records, layout, 0), first_misplaced(records))
}

// Refuses a section, by the number that its fault tells, for its first bad record.
fn refuse(section: u16, found: Option<u16>) -> Result<(), Fault>
    ensures { result_err result ≡ option_map (BadRecord section) found }
{
    match found {
        Some(record) => Err(Fault::BadRecord { section, record }),
        None => Ok(()),
    }
}

// Looks for the first bad record, section by section.
fn check_records(bytes: &[u8], layout: Layout) -> Result<(), Fault>
    requires laid { Laid layout (length bytes.now) }
    requires few { Few layout }
    ensures { result_err result ≡ record_fault layout bytes.now }
{
    let types: Records<'_, TypeRecord> = Records::of(bytes, layout.types);
    refuse(2, first_bad_nested(&types, layout))?;
    let roots: Records<'_, RootRecord> = Records::of(bytes, layout.roots);
    refuse(3, first_bad_flat(&roots, layout))?;
    let leaves: Records<'_, LeafRecord> = Records::of(bytes, layout.leaves);
    refuse(4, first_bad_flat(&leaves, layout))?;
    let parts: Records<'_, NameRef> = Records::of(bytes, layout.parts);
    refuse(5, first_bad_flat(&parts, layout))?;
    let elements = Records::of(bytes, layout.elements);
    refuse(6, first_bad_element(&elements, layout))?;
    let nodes: Records<'_, NodeRecord> = Records::of(bytes, layout.nodes);
    refuse(7, first_bad_nested(&nodes, layout))?;
    let expressions: Records<'_, ExpressionRecord> = Records::of(bytes, layout.expressions);
    refuse(8, first_bad_flat(&expressions, layout))
}

// Where the sections of bytes without a fault lie, or the first fault of the bytes.
pub fn checked(bytes: &[u8]) -> Result<Layout, Fault>
    ensures { MatchResult result (λ l. (fault_of bytes.now ≡ None) × (l ≡ layout_of bytes.now)) (λ e. fault_of bytes.now ≡ Some e) }
{
    let layout = Layout::read(bytes)?;
    check_records(bytes, layout)?;
    Ok(layout)
}
