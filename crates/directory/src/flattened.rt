//! The directory of Parquet's flattened schema.
ghost use Rattle.std.specs.Prelude.{◌≡◌, map, length};
ghost use Rattle.rules.specs.Leaves.{roots};
ghost use Rattle.directory.specs.Flattened.{flattened_leaves};
ghost use Rattle.directory.specs.Rows.{path_to, RowsInside, ParentsInside};

use crate::flattened::rows::ElementRow;
use arrayvec::ArrayVec;
use sheet::Sheet;

mod answers;
mod build;
mod rows;

/// The leaves of a sheet, as its elements flatten the schema. What the questions need is made once: a row for each leaf,
/// and the parent of each element.
#[derive(Drop)]
pub struct FlattenedDirectory<'a> {
    sheet: &'a Sheet,
    rows: ArrayVec<ElementRow, 1024>,
    parents: [u16; 1024],
    ghost wide: { length parents ≡ 1024 },
    ghost inside: { RowsInside sheet.now rows.items },
    ghost climbs: { ParentsInside sheet.now parents },
    ghost rooted: { map (λ r. r.root) rows.items ≡ roots (flattened_leaves sheet.now) },
    ghost led: { map (λ r. path_to sheet.now parents r.parts r.element) rows.items ≡ map (λ l. l.parts) (flattened_leaves sheet.now) },
}
