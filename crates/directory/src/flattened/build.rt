//! Builds a directory in one pass over the elements.
ghost use Rattle.std.specs.Prelude.{◌≡◌, ◌<◌};
ghost use Rattle.directory.specs.Building.{seat_of};
ghost use Rattle.directory.specs.Flattened.{flattened_leaves};

use crate::flattened::FlattenedDirectory;
use crate::flattened::rows::{ElementRow, Seat};
use arrayvec::ArrayVec;
use format::inner::OpenElements;
use sheet::{ElementRecord, Sheet};

// Where the next element stands: under the innermost open element, or as a new root.
fn next_seat(innermost: Option<ElementRow>, roots: u16) -> Seat
    requires { roots < 1024 }
    ensures { result ≡ seat_of innermost roots }
{
    match innermost {
        Some(top) => Seat {
            parent: top.element,
            root: top.root,
            above: top.parts,
            roots,
        },
        None => Seat {
            parent: 0,
            root: roots,
            above: 0,
            roots: roots + 1,
        },
    }
}

impl<'a> FlattenedDirectory<'a> {
    /// The directory of a sheet.
    pub fn new(sheet: &'a Sheet) -> FlattenedDirectory<'a>
        ensures { flattened_leaves result.sheet.now ≡ flattened_leaves sheet.now }
    {
        let mut rows: ArrayVec<ElementRow, 1024> = ArrayVec::new();
        let mut parents = [0u16; 1024];
        let mut opens: OpenElements<ElementRow, 32> = OpenElements::new();
        let mut roots = 0u16;
        for e in 1..sheet.count::<ElementRecord>() {
            let seat = next_seat(opens.innermost(), roots);
            opens.take_child();
            roots = seat.roots;
            parents[e] = seat.parent;
            let row = ElementRow {
                element: e as u16,
                root: seat.root,
                parts: seat.above + 1,
            };
            let children = sheet.record::<ElementRecord>(e).children;
            if children > 0 {
                opens.open(children, row);
            } else {
                rows.push(row);
            }
        }
        FlattenedDirectory {
            sheet,
            rows,
            parents,
        }
    }
}
