//! What a sheet holds.
ghost use Rattle.std.specs.Prelude.{◌≡◌, length, slice_index_or};
ghost use Rattle.format.specs.Records.{name_bytes, table};
ghost use Rattle.sheet.specs.Seen.{names_in, records_in};

use crate::sections::SectionRecord;
use crate::sheet::Sheet;
use format::NameRef;
use format::inner::{Records, count_in, cut};

impl Sheet {
    /// The bytes that names lie in.
    pub fn names(&self) -> &[u8]
        ensures { result.now ≡ names_in self.now }
    {
        let section = self.layout.names;
        cut(&self.bytes, section.start as usize, section.count as usize)
    }

    /// The bytes of a name, as far as the section of names has them.
    pub fn name(&self, name: NameRef) -> &[u8]
        ensures { result.now ≡ name_bytes (names_in self.now) name }
    {
        cut(self.names(), name.start as usize, name.len as usize)
    }

    // The records of a kind.
    fn records<R: SectionRecord>(&self) -> Records<'_, R>
        ensures { result ≡ records_in R.Record.width R.Record.from R.SectionRecord.section_of self.now }
    {
        Records::of(&self.bytes, R::section(self.layout))
    }

    /// How many records of a kind there are.
    pub fn count<R: SectionRecord>(&self) -> usize
        ensures { result ≡ length (records_in R.Record.width R.Record.from R.SectionRecord.section_of self.now) }
    {
        count_in::<R>(&self.bytes, R::section(self.layout))
    }

    /// The record of a kind at a place, and the blank record beyond its section.
    pub fn record<R: SectionRecord>(&self, place: usize) -> R
        ensures { result ≡ slice_index_or (records_in R.Record.width R.Record.from R.SectionRecord.section_of self.now) place R.Record.blank }
    {
        self.records::<R>().get(place)
    }
}
