//! What the command line asks for.
use crate::failure::Failure;
use directory::DirectoryKind;
use std::alloc::Global;
use std::env::Args;

/// The command `tick`: a sheet, by its file, and the columns that are to be read of it.
#[derive(Drop)]
pub(crate) struct Tick {
    pub directory: DirectoryKind,
    pub sheet: String,
    pub columns: Vec<String>,
}

fn is_flat(word: &Option<String>) -> bool {
    word.as_ref().is_some_and(|text| text.as_str() == "--flat")
}

impl Tick {
    // Reads the words behind the command.
    fn read_rest(heap: Global, mut words: Args) -> Result<Tick, Failure> {
        let mut directory = DirectoryKind::Listed;
        let mut word = words.next();
        if is_flat(&word) {
            directory = DirectoryKind::Flattened;
            word = words.next();
        }
        let Some(sheet) = word else {
            return Err(Failure::NoSheet);
        };
        Ok(Tick {
            directory,
            sheet,
            columns: words.collect(heap)?,
        })
    }

    /// Reads the words of the command line, of which the first is the program's own name.
    pub(crate) fn read(heap: Global, mut words: Args) -> Result<Tick, Failure> {
        let _ = words.next();
        let Some(command) = words.next() else {
            return Err(Failure::NoCommand);
        };
        match command.as_str() {
            "tick" => Tick::read_rest(heap, words),
            _ => Err(Failure::UnknownCommand(command)),
        }
    }
}
