//! Plays the cases of the files in its folder: runs over memory, each with what must come. `docs/cases.md` has the
//! format.
#![tactic(auto)]

mod cases;
mod comparing;
mod files;
mod noting_shelf;
mod playing;
mod telling;

use crate::files::play_file;
use case_parts::{CaseFault, Tally, sorted_names};
use std::io;
use std::process::ExitCode;
use std::rt::Files;
use std::thread::Threads;

/// Plays all files of the current folder, and prints a line for each case and one for all.
fn play_folder<R: Files + AllocGlobal + Print + Clone + Drop + Threads + Sync>(
    rt: &R,
) -> Result<bool, CaseFault> {
    let names = sorted_names(rt, ".case")?;
    let mut tally = Tally::default();
    for name in names.as_slice() {
        play_file(rt, name.as_str(), &mut tally)?;
    }
    if tally.passed == 0 && tally.failed == 0 {
        println!(rt; "FAILED: no file here whose name ends in .case")?;
    }
    let Tally { passed, failed } = tally;
    println!(rt; "{passed} passed, {failed} failed")?;
    Ok(tally.is_good())
}

fn main(rt: HostRuntime) -> io::Result<ExitCode> {
    match play_folder(&rt) {
        Ok(true) => Ok(ExitCode::from(0)),
        Ok(false) => Ok(ExitCode::from(1)),
        Err(fault) => {
            println!(rt; "FAILED: {fault}")?;
            Ok(ExitCode::from(1))
        }
    }
}
