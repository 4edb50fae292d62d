//! Names as text.
use std::fmt;

/// A name, whatever its bytes: those of printable ASCII as they are, others as `\xNN`.
#[derive(Clone, Copy)]
pub(crate) struct NameText<'a>(pub &'a [u8]);

impl fmt::Display for NameText<'_> {
    fn fmt<W: fmt::Write>(&self, f: &mut fmt::Formatter<W>) -> fmt::Result {
        for byte in self.0 {
            match *byte {
                b' '..=b'~' => {
                    let letter = *byte as char;
                    write!(f, "{letter}")?;
                }
                other => write!(f, "\\x{other:02x}")?,
            }
        }
        Ok(())
    }
}
