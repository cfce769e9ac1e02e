//! The program `tinkey`: `tinkey_host` over the real objects.
#![tactic(auto)]

use std::process::ExitCode;

/// Obeys the words after the program's name, over standard input, output and error and the files.
fn main(rt: HostRuntime) -> ExitCode {
    tinkey_host::program(&rt)
}
