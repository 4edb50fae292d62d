//! All questions that a directory answers, and how long they take.
use crate::measures::PerUnit;
use directory::{FlattenedDirectory, LeafDirectory};
use sheet::Sheet;
use std::time::{Duration, Instant};

// The name that parts are held against.
const NAME: &[u8] = b"abcdefgh";

/// How many questions were asked, and what the answers add up to, so that none of them is idle.
#[derive(Clone, Copy, Default)]
struct Tally {
    questions: u32,
    sum: usize,
}

impl Tally {
    fn note(&mut self, answer: usize) {
        self.questions = self.questions.saturating_add(1);
        self.sum = self.sum.wrapping_add(answer);
    }
}

/// A measured time, and what the answers add up to.
#[derive(Clone, Copy)]
pub(crate) struct Timing {
    pub per_unit: PerUnit,
    pub sum: usize,
}

fn ask_parts<D: LeafDirectory>(directory: &D, leaf: usize, parts: usize, tally: &mut Tally) {
    for part in 0..parts {
        match directory.part_is(leaf, part, NAME) {
            Some(true) => tally.note(1),
            Some(false) | None => tally.note(0),
        }
    }
}

fn ask_all<D: LeafDirectory>(directory: &D, tally: &mut Tally) {
    let count = directory.count();
    tally.note(count);
    for leaf in 0..count {
        let parts = directory.parts(leaf).unwrap_or(0);
        tally.note(parts);
        tally.note(directory.root(leaf).unwrap_or(0));
        ask_parts(directory, leaf, parts, tally);
    }
}

/// How long a question takes, where all are asked so often.
pub(crate) fn time_questions<D: LeafDirectory>(
    rt: &HostRuntime,
    directory: &D,
    rounds: u32,
) -> anyhow::Result<Timing> {
    let mut tally = Tally::default();
    let start = Instant::now(rt)?;
    for _ in 0..rounds {
        ask_all(directory, &mut tally);
    }
    let per_unit = PerUnit {
        time: start.elapsed(rt)?,
        units: tally.questions,
    };
    Ok(Timing {
        per_unit,
        sum: tally.sum,
    })
}

/// How long a flattened directory takes to make, where it is made so often. It is asked afterwards.
pub(crate) fn time_makings(rt: &HostRuntime, sheet: &Sheet, rounds: u32) -> anyhow::Result<Timing> {
    let mut tally = Tally::default();
    let mut time = Duration::ZERO;
    for _ in 0..rounds {
        let start = Instant::now(rt)?;
        let directory = FlattenedDirectory::new(sheet);
        time = time.saturating_add(start.elapsed(rt)?);
        ask_all(&directory, &mut tally);
    }
    Ok(Timing {
        per_unit: PerUnit {
            time,
            units: rounds,
        },
        sum: tally.sum,
    })
}
