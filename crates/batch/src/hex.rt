//! Bytes as lower-case hexadecimal digits, two to a byte. No byte at all is written `-`.
use std::alloc::{AllocError, Global};
use std::fmt;

/// Bytes, shown by their digits.
#[derive(Clone, Copy)]
pub(crate) struct Hex<'a>(pub &'a [u8]);

impl fmt::Display for Hex<'_> {
    fn fmt<W: fmt::Write>(&self, f: &mut fmt::Formatter<W>) -> fmt::Result {
        if self.0.is_empty() {
            return f.write_str("-");
        }
        for byte in self.0 {
            write!(f, "{byte:02x}")?;
        }
        Ok(())
    }
}

fn digit(character: u8) -> Option<u8> {
    match character {
        b'0'..=b'9' => Some(character - b'0'),
        b'a'..=b'f' => Some(character - b'a' + 10),
        _ => None,
    }
}

// The byte that two digits stand for.
fn byte(pair: &[u8]) -> Option<u8> {
    match pair {
        [high, low] => Some((digit(*high)? << 4) | digit(*low)?),
        _ => None,
    }
}

/// The bytes that a word stands for, or none if it stands for no bytes.
pub(crate) fn read(heap: Global, word: &str) -> Result<Option<Vec<u8>>, AllocError> {
    let mut bytes = Vec::new(heap);
    if word == "-" {
        return Ok(Some(bytes));
    }
    if word.is_empty() {
        return Ok(None);
    }
    for pair in word.as_bytes().chunks(2) {
        match byte(pair) {
            Some(byte) => bytes.push(byte)?,
            None => return Ok(None),
        }
    }
    Ok(Some(bytes))
}
