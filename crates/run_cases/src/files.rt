// The case files of the folder, and the line that is printed of each case.
use crate::cases::{Case, is_known, only_a_case_says};
use crate::comparing::first_mismatch;
use crate::playing::play;
use crate::telling::described;
use case_parts::{CaseFault, Part, Tally, cases_start, read_file};
use std::rt::Files;
use std::thread::Threads;

/// Plays the cases of a file, and prints a line for each.
pub fn play_file<R: Files + AllocGlobal + Print + Threads + Sync>(
    rt: &R,
    name: &str,
    tally: &mut Tally,
) -> Result<(), CaseFault> {
    match read_cases(rt, name) {
        Ok(parts) => play_parts(rt, name, parts.as_slice(), tally),
        Err(fault) => {
            tally.count(false);
            println!(rt; "FAILED {name}: {fault}")?;
            Ok(())
        }
    }
}

/// The parts of a file that has cases alone.
fn read_cases<R: Files + AllocGlobal>(rt: &R, name: &str) -> Result<Vec<Part>, CaseFault> {
    let parts = read_file(rt, name)?;
    check_heads(parts.as_slice())?;
    Ok(parts)
}

/// Refuses a file without a case, an unknown head, and what only a case may say before all cases.
fn check_heads(parts: &[Part]) -> Result<(), CaseFault> {
    if let Some(part) = parts.iter().find(|part| !is_known(part)) {
        return Err(CaseFault::Line(part.line, "an unknown head"));
    }
    let (shared, rest) = parts.split_at(cases_start(parts));
    if let Some(part) = shared.iter().find(|part| only_a_case_says(part)) {
        return Err(CaseFault::Line(part.line, "before the first case"));
    }
    if rest.is_empty() {
        return Err(CaseFault::Line(1, "no case in this file"));
    }
    Ok(())
}

fn play_parts<R: AllocGlobal + Print + Threads + Sync>(
    rt: &R,
    file: &str,
    parts: &[Part],
    tally: &mut Tally,
) -> Result<(), CaseFault> {
    let (shared, _) = parts.split_at(cases_start(parts));
    for (place, part) in parts.iter().enumerate() {
        if part.word.is(b"case") {
            let rest = &parts[place + 1..];
            let (own, _) = rest.split_at(cases_start(rest));
            let line = part.line;
            let name = String::from_utf8_lossy(rt.alloc(), part.name.bytes())?;
            let why = play_case(rt, &Case { line, shared, own })?;
            report(rt, file, name.as_str(), why, tally)?;
        }
    }
    Ok(())
}

fn report<R: AllocGlobal + Print>(
    rt: &R,
    file: &str,
    name: &str,
    why: Option<String>,
    tally: &mut Tally,
) -> Result<(), CaseFault> {
    tally.count(why.is_none());
    match why {
        None => println!(rt; "ok {file}: {name}")?,
        Some(why) => println!(rt; "FAILED {file}: {name}: {why}")?,
    }
    Ok(())
}

/// Plays a case: None where all came as it must, else what didn't.
fn play_case<R: AllocGlobal + Threads + Sync>(
    rt: &R,
    case: &Case<'_>,
) -> Result<Option<String>, CaseFault> {
    let alloc = rt.alloc();
    let ending = match play(rt, alloc, case) {
        Ok(ending) => ending,
        Err(fault) => return Ok(Some(format!(in alloc; "{fault}")?)),
    };
    match first_mismatch(alloc, case, &ending) {
        Ok(None) => Ok(None),
        Ok(Some(mismatch)) => Ok(Some(described(alloc, &mismatch)?)),
        Err(fault) => Ok(Some(format!(in alloc; "{fault}")?)),
    }
}
