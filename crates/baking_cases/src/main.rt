//! Tries the rows of the files in its folder: runs of single bakers with what they make and look at, and stages of systems
//! over entities that are written by hand. `docs/cases.md`, "Rows", has the format.
#![tactic(auto)]

mod beings;
mod row_files;
mod runs;
mod stages;
mod words;

use crate::row_files::try_file;
use case_parts::{CaseFault, Tally, sorted_names};
use std::io;
use std::process::ExitCode;
use std::rt::Files;

/// Tries all files of the current folder, and prints a line for each part and one for all.
fn try_folder<R: Files + AllocGlobal + Print + Clone + Drop>(rt: &R) -> Result<bool, CaseFault> {
    let names = sorted_names(rt, ".rows")?;
    let mut tally = Tally::default();
    for name in names.as_slice() {
        try_file(rt, name.as_str(), &mut tally)?;
    }
    if tally.passed == 0 && tally.failed == 0 {
        println!(rt; "FAILED: no row in a file whose name ends in .rows")?;
    }
    let Tally { passed, failed } = tally;
    println!(rt; "{passed} passed, {failed} failed")?;
    Ok(tally.is_good())
}

fn main(rt: HostRuntime) -> io::Result<ExitCode> {
    match try_folder(&rt) {
        Ok(true) => Ok(ExitCode::from(0)),
        Ok(false) => Ok(ExitCode::from(1)),
        Err(fault) => {
            println!(rt; "FAILED: {fault}")?;
            Ok(ExitCode::from(1))
        }
    }
}
