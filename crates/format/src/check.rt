//! Which records of a section are good.
ghost use Rattle.std.specs.Prelude.{◌≡◌, ℕ, ◌+◌, ◌-◌, ◌<◌, ◌≤◌, Bool, length, take, slice_index};
ghost use Rattle.rules.specs.Preorder.{fills, spanned, placed};
ghost use Rattle.rules.specs.Searches.{first_failing};
ghost use Rattle.format.specs.declared.layout.Layout.{Layout};
ghost use Rattle.format.specs.Good.{previous, fair_at};
ghost use Rattle.format.specs.Records.{by_place};

use crate::decode::{Record, Records};
use crate::layout::Layout;
use arrayvec::ArrayVec;

// The most levels.
pub(crate) const MAX_DEPTH: usize = 32;

/// A record whose own fields are judged with the records before and behind it.
pub(crate) trait Checked: Record {
    ghost fair: { Layout → Self → Self → Self → Bool };

    fn is_fair(self, before: Self, behind: Self, layout: Layout) -> bool
        ensures { result ≡ fair layout before self behind };
}

/// A record with a number of children and a span.
pub(crate) trait Preorder: Record {
    ghost kids: { Self → ℕ };

    ghost reach: { Self → ℕ };

    fn children(self) -> u16
        ensures { result ≡ kids self };

    fn span(self) -> u16
        ensures { result ≡ reach self };
}

// The record before a place.
fn before<R: Record>(records: &Records<'_, R>, place: usize) -> R
    ensures { result ≡ previous R.Record.blank records.now place }
{
    if place == 0 {
        return R::default();
    }
    records.get(place - 1)
}

// Whether the own fields of the record at a place keep the rules.
fn is_fair_at<R: Checked>(records: &Records<'_, R>, layout: Layout, place: u16) -> bool
    ensures { result ≡ fair_at (R.Checked.fair layout) R.Record.blank records.now place }
{
    let at = place as usize;
    let here = records.get(at);
    here.is_fair(before(records, at), records.get(at + 1), layout)
}

// The first record, from a place on, whose own fields break a rule.
pub(crate) fn first_unfair<R: Checked>(
    records: &Records<'_, R>,
    layout: Layout,
    from: u16,
) -> Option<u16>
    ensures { result ≡ first_failing (fair_at (R.Checked.fair layout) R.Record.blank records.now) from (length records.now - from) }
{
    (from..records.count()).find(|place| !is_fair_at(records, layout, *place))
}

// Whether the children of a record, one behind the other, end where its span does.
fn children_fill<R: Preorder>(records: &Records<'_, R>, place: u16) -> bool
    ensures { result ≡ fills (by_place R.Preorder.reach R.Record.blank records.now) (by_place R.Preorder.kids R.Record.blank records.now place) (place + 1) (place + by_place R.Preorder.reach R.Record.blank records.now place) }
{
    let parent = records.get(place as usize);
    let end = place as usize + parent.span() as usize;
    let mut at = place as usize + 1;
    // A loop: each child stands behind the span of the one before it, as far as spans lead.
    for _k in 0..parent.children() {
        if at >= end {
            return false;
        }
        at += records.get(at).span() as usize;
    }
    at == end
}

// Whether a record's span lies in the section, and its children fill it.
fn is_spanned<R: Preorder>(records: &Records<'_, R>, place: u16) -> bool
    ensures { result ≡ spanned (by_place R.Preorder.kids R.Record.blank records.now) (by_place R.Preorder.reach R.Record.blank records.now) (length records.now) place }
{
    let span = records.get(place as usize).span();
    span > 0
        && place as usize + span as usize <= records.count() as usize
        && children_fill(records, place)
}

// Lets go of the ends, which do not rise, that do not lie behind a place.
fn let_go(ends: &mut ArrayVec<usize, MAX_DEPTH>, place: usize)
    ensures kept { ends.new.items ≡ take (length ends.new.items) ends.old.items }
    ensures passed { (i : ℕ) → length ends.new.items ≤ i → i < length ends.old.items → slice_index ends.old.items i ≤ place }
    ensures last { 0 < length ends.new.items → place < slice_index ends.new.items (length ends.new.items - 1) }
{
    // A loop: from the end on, up to the first that stays; those before it are not looked at.
    while let Some(end) = ends.last() {
        if *end > place {
            return;
        }
        ends.pop();
    }
}

// The first record whose children do not fill its span, whose span leaves the section, or that lies too deep. The ends
// of the records around a place are held in a stack.
pub(crate) fn first_misplaced<R: Preorder>(records: &Records<'_, R>) -> Option<u16>
    ensures { result ≡ first_failing (placed (by_place R.Preorder.kids R.Record.blank records.now) (by_place R.Preorder.reach R.Record.blank records.now) (length records.now) 32) 0 (length records.now) }
{
    let mut ends: ArrayVec<usize, MAX_DEPTH> = ArrayVec::new();
    for place in 0..records.count() {
        let at = place as usize;
        let_go(&mut ends, at);
        if ends.is_full() {
            return Some(place);
        }
        if !is_spanned(records, place) {
            return Some(place);
        }
        ends.push(at + records.get(at).span() as usize);
    }
    None
}
