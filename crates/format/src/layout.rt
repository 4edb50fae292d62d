//! Where the sections of a sheet lie.
ghost use Rattle.std.specs.Prelude.{◌≡◌, ◌<◌, ◌≤◌, length, Some, None, MatchResult};
ghost use Rattle.std.specs.Result.{result_err};
ghost use Rattle.format.specs.Layouts.{section_at, layout_of, lies, lies_at, few, extents_fault, counts_fault, layout_fault};

use crate::fault::Fault;
use crate::read::{read_u16, read_u32};

const HEADER: usize = 50;

const FORM: u16 = 1;

const MAX_BYTES: usize = 65536;

// The bytes of a record and the most records, by the number of the section, which faults tell too.
const WIDTHS: [usize; 8] = [1, 12, 2, 6, 4, 6, 24, 2];

const LIMITS: [u16; 8] = [16384, 2048, 256, 1024, 2048, 1024, 512, 64];

/// The records of one section. The start of an empty one says nothing.
#[derive(Clone, Copy)]
pub struct Section {
    pub count: u16,
    pub start: u32,
}

/// The sections, in the order of the header.
#[derive(Clone, Copy)]
pub struct Layout {
    pub names: Section,
    pub types: Section,
    pub roots: Section,
    pub leaves: Section,
    pub parts: Section,
    pub elements: Section,
    pub nodes: Section,
    pub expressions: Section,
}

impl Section {
    // Whether the records lie behind the header and inside so many bytes.
    fn lies_inside(self, bytes: usize, width: usize) -> bool
        requires { 0 < width }
        ensures { result ≡ lies width self.count self.start bytes }
    {
        let start = self.start as usize;
        self.count == 0
            || (start >= HEADER && self.count as usize <= bytes.saturating_sub(start) / width)
    }
}

/// Bytes that have a whole header.
#[derive(Clone, Copy)]
struct Header<'a> {
    bytes: &'a [u8],
    ghost whole: { 50 ≤ length bytes.now },
}

// A number below 8 is asked for in three places; a type for such numbers would be no plainer than that.
impl Header<'_> {
    // The section of a number, counted from 0.
    fn section(&self, number: usize) -> Section
        requires { number < 8 }
        ensures { result ≡ section_at self.now.bytes.now number }
    {
        Section {
            count: read_u16(self.bytes, 2 + 6 * number),
            start: read_u32(self.bytes, 4 + 6 * number),
        }
    }

    fn lies_inside(&self, number: usize) -> bool
        requires { number < 8 }
        ensures { result ≡ lies_at self.now.bytes.now number }
    {
        self.section(number)
            .lies_inside(self.bytes.len(), WIDTHS[number])
    }

    fn is_short(&self, number: usize) -> bool
        requires { number < 8 }
        ensures { result ≡ few self.now.bytes.now number }
    {
        self.section(number).count <= LIMITS[number]
    }

    // Refuses the first section that does not lie where it may. The next one differs from it in the test and in the fault; a third
    // function with both as closures would be no plainer.
    fn check_extents(&self) -> Result<(), Fault>
        ensures { result_err result ≡ extents_fault self.now.bytes.now }
    {
        match (0..8).find(|number| !self.lies_inside(*number as usize)) {
            Some(number) => Err(Fault::BadExtent {
                section: number + 1,
            }),
            None => Ok(()),
        }
    }

    // Refuses the first section that has too many records.
    fn check_counts(&self) -> Result<(), Fault>
        ensures { result_err result ≡ counts_fault self.now.bytes.now }
    {
        match (0..8).find(|number| !self.is_short(*number as usize)) {
            Some(number) => Err(Fault::TooMany {
                section: number + 1,
            }),
            None => Ok(()),
        }
    }

    fn layout(&self) -> Layout
        ensures { result ≡ layout_of self.now.bytes.now }
    {
        Layout {
            names: self.section(0),
            types: self.section(1),
            roots: self.section(2),
            leaves: self.section(3),
            parts: self.section(4),
            elements: self.section(5),
            nodes: self.section(6),
            expressions: self.section(7),
        }
    }
}

impl Layout {
    // Reads the header, and sees that every section lies where it may and is not too long.
    pub(crate) fn read(bytes: &[u8]) -> Result<Layout, Fault>
        ensures { MatchResult result (λ l. (layout_fault bytes.now ≡ None) × (l ≡ layout_of bytes.now)) (λ e. layout_fault bytes.now ≡ Some e) }
    {
        if bytes.len() < HEADER || bytes.len() > MAX_BYTES || read_u16(bytes, 0) != FORM {
            return Err(Fault::BadExtent { section: 0 });
        }
        let header = Header { bytes };
        header.check_extents()?;
        header.check_counts()?;
        Ok(header.layout())
    }
}
