//! What a request is answered with.
use crate::leaves::LeafList;
use crate::request::Request;
use directory::{DirectoryKind, FlattenedDirectory, ListedDirectory};
use sheet::{Fault, open};
use std::alloc::{AllocError, Global};
use std::str;

fn refusal(heap: Global, fault: Fault) -> Result<String, AllocError> {
    let number = fault.number();
    let place = fault.place();
    format!(in heap; "fault {number} {place}")
}

fn opening(heap: Global, bytes: Vec<u8>) -> Result<String, AllocError> {
    match open(bytes) {
        Ok(_) => String::from_str(heap, "opened"),
        Err(unopened) => refusal(heap, unopened.fault),
    }
}

fn leaves(heap: Global, kind: DirectoryKind, bytes: Vec<u8>) -> Result<String, AllocError> {
    let sheet = match open(bytes) {
        Ok(sheet) => sheet,
        Err(unopened) => return refusal(heap, unopened.fault),
    };
    // Two directories and no third: each arm is the generic code for its own.
    match kind {
        DirectoryKind::Listed => {
            let directory = ListedDirectory::new(&sheet);
            LeafList {
                directory: &directory,
            }
            .to_string(heap)
        }
        DirectoryKind::Flattened => {
            let directory = FlattenedDirectory::new(&sheet);
            LeafList {
                directory: &directory,
            }
            .to_string(heap)
        }
    }
}

/// The answer to a line, which may be any bytes.
pub(crate) fn answer_to(heap: Global, line: &[u8]) -> Result<String, AllocError> {
    let request = match str::from_utf8(line) {
        Ok(text) => Request::read(heap, text)?,
        Err(_) => Request::Bad,
    };
    match request {
        Request::Open(bytes) => opening(heap, bytes),
        Request::Leaves(kind, bytes) => leaves(heap, kind, bytes),
        Request::Later => String::from_str(heap, "not yet"),
        Request::Bad => String::from_str(heap, "bad request"),
    }
}
