// What is printed of a mismatch.
use crate::comparing::Mismatch;
use case_parts::line_at;
use std::alloc::{AllocError, Global};

/// A mismatch as a text, without a line feed at its end.
pub fn described(alloc: Global, mismatch: &Mismatch<'_>) -> Result<String, AllocError> {
    match mismatch {
        Mismatch::Status { came, wanted } => {
            let wanted = String::from_utf8_lossy(alloc, line_at(wanted, 1))?;
            format!(in alloc; "the status is {came}, and not {wanted}")
        }
        Mismatch::Output { came, wanted, line } => {
            let came = String::from_utf8_lossy(alloc, line_at(came, *line))?;
            let wanted = String::from_utf8_lossy(alloc, line_at(wanted, *line))?;
            format!(in alloc; "line {line} of the output is\n    {came}\nand not\n    {wanted}")
        }
        Mismatch::File {
            name,
            came,
            wanted,
            line,
        } => {
            let name = String::from_utf8_lossy(alloc, name)?;
            let came = hex::encode(alloc, *came)?;
            let wanted = hex::encode(alloc, *wanted)?;
            format!(in alloc; "line {line} of {name}: it is\n    {came}\nand not\n    {wanted}")
        }
        Mismatch::There { name, is_there } => {
            let how = if *is_there { "is there" } else { "isn't there" };
            of_file(alloc, name, how)
        }
        Mismatch::Unnamed { name } => of_file(
            alloc,
            name,
            "was written, and the case doesn't name it",
        ),
        Mismatch::Unwritten { name } => of_file(alloc, name, "wasn't written"),
    }
}

fn of_file(alloc: Global, name: &[u8], what: &str) -> Result<String, AllocError> {
    let name = String::from_utf8_lossy(alloc, name)?;
    format!(in alloc; "the file {name} {what}")
}
