//! From bytes to a sheet.
ghost use Rattle.std.specs.Prelude.{◌≡◌};
ghost use Rattle.format.specs.Format.{opened};
ghost use Rattle.sheet.specs.Seen.{seen};

use crate::sheet::{Sheet, Unopened};
use format::inner::checked;

/// Opens the sheet that the bytes hold, or hands them back with the first fault that they have.
pub fn open(bytes: Vec<u8>) -> Result<Sheet, Unopened>
    ensures { seen result ≡ opened bytes.items }
{
    // A match, since both ways take the bytes along.
    match checked(&bytes) {
        Ok(layout) => Ok(Sheet { bytes, layout }),
        Err(fault) => Err(Unopened { fault, bytes }),
    }
}
