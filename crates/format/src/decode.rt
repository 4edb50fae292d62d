//! The records of a section of bytes.
ghost use Rattle.std.specs.Prelude.{◌≡◌, ℕ, ◌+◌, ◌≤◌, List, length, take, drop, slice_index_or};
ghost use Rattle.format.specs.Records.{table, Inside as Fits};

use crate::layout::Section;
use std::marker::{Model, PhantomData};

/// What stands in a section: a record of so many bytes.
pub trait Record: Copy + Default {
    /// How many bytes a record has.
    ghost width: { ℕ };

    /// The record that stands at a byte.
    ghost from: { List ℕ → ℕ → Self };

    /// What is read behind the end of a section.
    ghost blank: { Self };

    fn size() -> usize
        ensures { result ≡ width };

    fn read(bytes: &[u8], at: usize) -> Self
        requires { at + width ≤ length bytes.now }
        ensures { result ≡ from bytes.now at };

    /// The law that every implementation shows: the default record is the blank one.
    ghost defaults: { (r : Self) → Self.Default.is_default r → r ≡ blank };
}

/// The records of a section that lies inside some bytes: a list of them.
#[derive(Drop)]
pub struct Records<'a, R: Record> {
    bytes: &'a [u8],
    section: Section,
    kind: PhantomData<R>,
}

impl<'a, R: Record> Model for Records<'a, R> {
    ghost Value = { List R };

    ghost view = { λ r. table R.Record.width R.Record.from r.bytes.now r.section.start r.section.count };

    ghost invariant = { λ r. Fits R.Record.width r.section.count r.section.start (length r.bytes.now) };
}

impl<'a, R: Record> Records<'a, R> {
    /// The records of a section.
    pub fn of(bytes: &'a [u8], section: Section) -> Records<'a, R>
        requires { Fits R.Record.width section.count section.start (length bytes.now) }
        ensures { result ≡ table R.Record.width R.Record.from bytes.now section.start section.count }
    {
        Records {
            bytes,
            section,
            kind: PhantomData,
        }
    }

    /// How many there are.
    pub fn count(&self) -> u16
        ensures { result ≡ length self.now }
    {
        let Section { count, .. } = self.section;
        count
    }

    /// The record at a place, and the blank record beyond the last.
    pub fn get(&self, place: usize) -> R
        ensures { result ≡ slice_index_or self.now place R.Record.blank }
    {
        if place >= self.section.count as usize {
            return R::default();
        }
        R::read(self.bytes, self.section.start as usize + R::size() * place)
    }
}

/// How many records a section has, wherever it lies.
pub fn count_in<R: Record>(bytes: &[u8], section: Section) -> usize
    ensures { result ≡ length (table R.Record.width R.Record.from bytes.now section.start section.count) }
{
    section.count as usize
}

// So many bytes from a start on, or as many of them as there are.
pub fn cut(bytes: &[u8], start: usize, count: usize) -> &[u8]
    ensures { result.now ≡ take count (drop start bytes.now) }
{
    if start >= bytes.len() {
        return &bytes[..0];
    }
    let rest = &bytes[start..];
    if count >= rest.len() {
        return rest;
    }
    &rest[..count]
}
