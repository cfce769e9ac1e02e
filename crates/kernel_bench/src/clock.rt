//! A stopwatch over the processor's time, which counts turns.

use std::io;
use std::time::{CpuClock, Duration};

/// How many turns were taken, in how much of the processor's time.
#[derive(Drop)]
pub struct Stopwatch {
    before: Duration,
    least: Duration,
    turns: u64,
    spent: Duration,
}

impl Stopwatch {
    /// Starts, to run for so many milliseconds.
    pub fn start(rt: &HostRuntime, milliseconds: u32) -> io::Result<Stopwatch> {
        Ok(Stopwatch {
            before: rt.process_cpu_time()?,
            least: Duration::from_millis(milliseconds as u64),
            turns: 0,
            spent: Duration::ZERO,
        })
    }

    /// Counts some turns, and returns whether the time is over.
    pub fn is_over(&mut self, rt: &HostRuntime, turns: u64) -> io::Result<bool> {
        self.turns = self.turns.saturating_add(turns);
        self.spent = rt.process_cpu_time()?.saturating_sub(self.before);
        Ok(self.spent >= self.least)
    }

    /// Prints the turns, the nanoseconds that they took, and the last one's result.
    pub fn print(&self, rt: &HostRuntime, last: u64) -> io::Result<()> {
        println!(rt; "{} {} {last}", self.turns, self.spent.as_nanos())?;
        Ok(())
    }
}
