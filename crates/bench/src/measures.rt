//! What is measured of a sheet.
use anyhow::anyhow;
use sheet::{Sheet, open};
use std::alloc::Global;
use std::fmt;
use std::time::{Duration, Instant};

/// A time that is shared out over so many units, in nanoseconds.
#[derive(Clone, Copy)]
pub(crate) struct PerUnit {
    pub time: Duration,
    pub units: u32,
}

impl fmt::Display for PerUnit {
    fn fmt<W: fmt::Write>(&self, f: &mut fmt::Formatter<W>) -> fmt::Result {
        let nanos = self.time.as_secs_f64() * 1e9 / f64::from(self.units);
        write!(f, "{nanos:.2}")
    }
}

/// The sheet that the bytes hold.
pub(crate) fn opened(heap: Global, bytes: &[u8]) -> anyhow::Result<Sheet> {
    open(bytes.to_vec(heap)?).map_err(|_| anyhow!("the sheet does not open"))
}

// How long it takes to open a copy of the bytes, which is made before.
fn time_open(rt: &HostRuntime, bytes: &[u8]) -> anyhow::Result<Duration> {
    let copy = bytes.to_vec(rt.alloc())?;
    let start = Instant::now(rt)?;
    let result = open(copy);
    let time = start.elapsed(rt)?;
    let _sheet = result.map_err(|_| anyhow!("the sheet does not open"))?;
    Ok(time)
}

/// How long it takes to open a sheet so often.
pub(crate) fn time_opens(rt: &HostRuntime, bytes: &[u8], times: u32) -> anyhow::Result<Duration> {
    let mut sum = Duration::ZERO;
    for _ in 0..times {
        sum = sum.saturating_add(time_open(rt, bytes)?);
    }
    Ok(sum)
}
