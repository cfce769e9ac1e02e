//! Runs the rows of text files through the program's top call, over objects in memory: what users
//! get, what hostile bytes get, and what failing objects get.
//!
//! `tinkey_rows FILE FILE ..` reads the files in this order, since later files can use the names of
//! earlier ones. It prints a line for each table, and reports each row that differs and each
//! malformed line on standard error. Its exit code is 0 if each run ends as its row says, 1 if any
//! differs, and 2 if a line is malformed or a file can't be read.
#![tactic(auto)]

mod handed;
mod objects;

use objects::run_over;
use row_files::{Names, Objects, Outcome, Runner, Tally, run_text};
use std::alloc::Global;
use std::process::{ExitCode, Termination};
use std::test::Fail;
use std::{env, fs};

/// The top call of the program.
struct Tinkey;

impl Runner for Tinkey {
    fn run(&self, alloc: Global, words: &[String], objects: Objects<'_>) -> Result<Outcome, Fail> {
        run_over(alloc, words, objects)
    }
}

fn main(rt: HostRuntime) -> ExitCode {
    match run_files(&rt) {
        Ok(tally) => code_of(tally),
        Err(fail) => {
            let told: Result<(), Fail> = Err(fail);
            let _code = told.report(&rt);
            ExitCode::from(2)
        }
    }
}

/// The exit code for these numbers of differing rows and malformed lines.
fn code_of(tally: Tally) -> ExitCode {
    if tally.malformed > 0 {
        ExitCode::from(2)
    } else if tally.differ > 0 {
        ExitCode::FAILURE
    } else {
        ExitCode::SUCCESS
    }
}

/// Runs the rows of each file that the words name.
fn run_files(rt: &HostRuntime) -> Result<Tally, Fail> {
    let mut files = env::args(rt)?;
    let _program = files.next();
    let mut names = Names::new(rt.alloc());
    let mut tally = Tally::none();
    for file in files {
        let Ok(text) = fs::read_to_string(rt, file.as_str()) else {
            return Err(Fail::new(format_args!("the file {file} can't be read")));
        };
        let found = run_text(rt, &Tinkey, &mut names, file.as_str(), text.as_str())?;
        tally = tally.and(found);
    }
    Ok(tally)
}
