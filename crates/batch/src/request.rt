//! What a line asks for.
use crate::hex;
use directory::DirectoryKind;
use std::alloc::{AllocError, Global};

/// A request, with the bytes of the sheet that it is about.
#[derive(Drop)]
pub(crate) enum Request {
    Open(Vec<u8>),
    Leaves(DirectoryKind, Vec<u8>),
    /// A call that is not built yet.
    Later,
    Bad,
}

impl Request {
    // What is asked of a sheet that is written in hexadecimal.
    fn about<F: FnOnce(Vec<u8>) -> Request>(
        heap: Global,
        sheet: &str,
        request: F,
    ) -> Result<Request, AllocError>
        requires { F.IsAlwaysCallable request }
    {
        Ok(hex::read(heap, sheet)?.map_or(Request::Bad, request))
    }

    // What is asked of a directory that is named by a word.
    fn leaves(directory: &str, sheet: Vec<u8>) -> Request {
        match directory {
            "listed" => Request::Leaves(DirectoryKind::Listed, sheet),
            "flat" => Request::Leaves(DirectoryKind::Flattened, sheet),
            _ => Request::Bad,
        }
    }

    /// The request of a line, whose words are parted by one space each.
    pub(crate) fn read(heap: Global, line: &str) -> Result<Request, AllocError> {
        let mut words = line.split(' ');
        match (words.next(), words.next(), words.next(), words.next()) {
            (Some("open"), Some(sheet), None, _) => Request::about(heap, sheet, Request::Open),
            (Some("leaves"), Some(directory), Some(sheet), None) => {
                Request::about(heap, sheet, |bytes| Request::leaves(directory, bytes))
            }
            (Some("plan" | "filter" | "cut" | "answer"), _, _, _) => Ok(Request::Later),
            _ => Ok(Request::Bad),
        }
    }
}
