//! Times one kernel: `kernel_bench KERNEL BYTES MILLISECONDS` runs it over a text of so many bytes
//! until so much processor time has passed, and prints how many times it ran, how many nanoseconds
//! that took, and a byte of the last result. `tools/bench` runs all of them, and OpenSSL.
//! `kernel_bench TASK KEYS MILLISECONDS` times a handle of so many keys in the same way, and prints
//! how many keys the last opening tried. Without arguments the names of both are printed.
#![tactic(auto)]

mod clock;
mod handles;
mod kernels;

use clock::Stopwatch;
use handles::{MOST_KEYS, TASKS, Task};
use kernels::{Kernel, NAMES};
use std::env;
use std::io::{self, ErrorKind};

/// The most bytes of a text.
const MOST_BYTES: usize = 1 << 24;

fn main(rt: HostRuntime) -> io::Result<()> {
    let mut all = env::args(&rt)?;
    let _program = all.next();
    let words: Vec<String> = all.collect(rt.alloc())?;
    match words.as_slice() {
        [] => {
            for name in NAMES {
                println!(rt; "{name}")?;
            }
            for (name, _) in TASKS {
                println!(rt; "{name}")?;
            }
            Ok(())
        }
        [name, count, milliseconds] => match (
            count.as_str().parse::<usize>(),
            milliseconds.as_str().parse::<u32>(),
        ) {
            (Ok(count), Ok(milliseconds)) => time_named(&rt, name.as_str(), count, milliseconds),
            _ => Err(ErrorKind::InvalidInput.into()),
        },
        _ => Err(ErrorKind::InvalidInput.into()),
    }
}

/// Times the kernel or task of this name, over so many bytes or keys.
fn time_named(rt: &HostRuntime, name: &str, count: usize, milliseconds: u32) -> io::Result<()> {
    match (Kernel::named(rt.alloc(), name), Task::named(name)) {
        (Some(kernel), _) if count <= MOST_BYTES => time(rt, kernel, count, milliseconds),
        (None, Some(task)) if count <= MOST_KEYS => handles::time(rt, task, count, milliseconds),
        _ => Err(ErrorKind::InvalidInput.into()),
    }
}

/// Runs the kernel for so long, and prints how often it ran, in how many nanoseconds.
fn time(rt: &HostRuntime, mut kernel: Kernel, bytes: usize, milliseconds: u32) -> io::Result<()> {
    let mut text = vec![in rt.alloc(); 0u8; bytes]?;
    let mut watch = Stopwatch::start(rt, milliseconds)?;
    let mut last = 0;
    for _ in 0..u32::MAX {
        for _ in 0..16 {
            last = kernel.turn(text.as_mut_slice());
        }
        if watch.is_over(rt, 16)? {
            break;
        }
    }
    watch.print(rt, u64::from(last))
}
