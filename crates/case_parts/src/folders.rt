// The files of the current folder.
use crate::faults::CaseFault;
use crate::parts::{Part, read_parts};
use std::fs;
use std::rt::Files;

/// The names of the files of the current folder that end so, sorted.
pub fn sorted_names<R: Files + AllocGlobal + Clone + Drop>(
    rt: &R,
    ending: &str,
) -> Result<Vec<String>, CaseFault> {
    let alloc = rt.alloc();
    let mut names = Vec::new(alloc);
    for entry in fs::read_dir(rt, ".")? {
        let entry = entry?;
        if entry.file_name().ends_with(ending) {
            names.push(String::from_str(alloc, entry.file_name())?)?;
        }
    }
    names.sort()?;
    Ok(names)
}

/// The parts of a file of the current folder.
pub fn read_file<R: Files + AllocGlobal>(rt: &R, name: &str) -> Result<Vec<Part>, CaseFault> {
    let text = fs::read_to_string(rt, name)?;
    read_parts(rt.alloc(), text.as_str())
}
