// What came, beside what a case says.
ghost use Rattle.std.specs.Prelude.{◌≡◌, ◌++◌, Some, None, IfOk, All, codes, [], ◌∷◌};
ghost use Rattle.std.specs.Fmt.{decimal};
ghost use Rattle.run_cases.specs.Wanted.{body_in, wanted_status, IsKept};

use crate::cases::{Case, body_in};
use crate::playing::Ending;
use case_parts::{CaseFault, Part, first_difference, without_line_feed};
use eb_base::Text;
use eb_outside::MemShelf;
use std::alloc::Global;

/// In what a run ended otherwise than its case says.
#[derive(Clone, Copy)]
pub enum Mismatch<'a> {
    Status {
        came: u8,
        wanted: &'a [u8],
    },
    Output {
        came: &'a [u8],
        wanted: &'a [u8],
        line: usize,
    },
    File {
        name: &'a [u8],
        came: &'a [u8],
        wanted: &'a [u8],
        line: usize,
    },
    /// A file is there and must not be, or the other way round.
    There {
        name: &'a [u8],
        is_there: bool,
    },
    /// A file was written that the case doesn't name.
    Unnamed {
        name: &'a [u8],
    },
    /// A file was not written, and the case says that it was.
    Unwritten {
        name: &'a [u8],
    },
}

/// The first thing in which a run ended otherwise than its case says: its status, its output, the files that the case
/// names, and the names of what was written.
pub fn first_mismatch<'a>(
    alloc: Global,
    case: &Case<'a>,
    ending: &'a Ending,
) -> Result<Option<Mismatch<'a>>, CaseFault>
    ensures status { IfOk result (λ m. m ≡ None → decimal ending.now.status ++ codes "\n" ≡ wanted_status case.now.own.now case.now.shared.now) }
    ensures output { IfOk result (λ m. m ≡ None → body_in case.now.own.now (codes "out") [] ≡ Some ending.now.sink.put) }
    ensures files { IfOk result (λ m. m ≡ None → All (IsKept ending.now.shelf.folder.files) case.now.own.now) }
{
    if let Some(mismatch) = output_mismatch(case, ending)? {
        return Ok(Some(mismatch));
    }
    if let Some(mismatch) = status_mismatch(alloc, case, ending.status)? {
        return Ok(Some(mismatch));
    }
    if let Some(mismatch) = files_mismatch(case.own, &ending.shelf.folder)? {
        return Ok(Some(mismatch));
    }
    Ok(names_mismatch(case, ending.shelf.written.as_slice()))
}

/// Whether the output is other than the case's own part says.
fn output_mismatch<'a>(
    case: &Case<'a>,
    ending: &'a Ending,
) -> Result<Option<Mismatch<'a>>, CaseFault>
    ensures { IfOk result (λ m. m ≡ None → body_in case.now.own.now (codes "out") [] ≡ Some ending.now.sink.put) }
{
    let Some(wanted) = body_in(case.own, b"out", b"") else {
        return Err(CaseFault::Line(case.line, "a case without a part out"));
    };
    let came = ending.sink.bytes();
    match first_difference(came, wanted) {
        None => Ok(None),
        Some(line) => Ok(Some(Mismatch::Output { came, wanted, line })),
    }
}

/// Whether the status is other than the case says.
fn status_mismatch<'a>(
    alloc: Global,
    case: &Case<'a>,
    came: u8,
) -> Result<Option<Mismatch<'a>>, CaseFault>
    ensures { IfOk result (λ m. m ≡ None → decimal came ++ codes "\n" ≡ wanted_status case.now.own.now case.now.shared.now) }
{
    let wanted = case.body(b"status", b"").unwrap_or(b"0\n");
    let line = format!(in alloc; "{came}\n")?;
    if line.as_bytes() == wanted {
        return Ok(None);
    }
    Ok(Some(Mismatch::Status { came, wanted }))
}

/// The first file that is other than a part says.
fn files_mismatch<'a>(
    parts: &'a [Part],
    folder: &'a MemShelf,
) -> Result<Option<Mismatch<'a>>, CaseFault>
    ensures { IfOk result (λ m. m ≡ None → All (IsKept folder.now.files) parts.now) }
{
    for part in parts {
        if let Some(mismatch) = file_mismatch(part, folder)? {
            return Ok(Some(mismatch));
        }
    }
    Ok(None)
}

/// In what a file of the folder is other than its part says.
fn file_mismatch<'a>(
    part: &'a Part,
    folder: &'a MemShelf,
) -> Result<Option<Mismatch<'a>>, CaseFault>
    ensures { IfOk result (λ m. m ≡ None → IsKept folder.now.files part.now) }
{
    let must_be = part.word.is(b"after");
    if !must_be && !part.word.is(b"gone") {
        return Ok(None);
    }
    let name = part.name.bytes();
    let Ok(text) = str::from_utf8(name) else {
        return Err(CaseFault::Line(part.line, "the name of a file isn't text"));
    };
    let wanted = part.body.bytes();
    match (folder.file(text), must_be) {
        (None, false) => Ok(None),
        (Some(came), true) => match first_difference(came, wanted) {
            None => Ok(None),
            Some(line) => Ok(Some(Mismatch::File {
                name,
                came,
                wanted,
                line,
            })),
        },
        (found, _) => Ok(Some(Mismatch::There {
            name,
            is_there: found.is_some(),
        })),
    }
}

/// A file that was written and that the case doesn't name, or one that it says was written and wasn't.
fn names_mismatch<'a>(case: &Case<'a>, written: &'a [Text]) -> Option<Mismatch<'a>> {
    let listed = case.body(b"writes", b"").unwrap_or(b"");
    for name in written {
        if !is_listed(listed, name.bytes()) && !is_named(case.own, name.bytes()) {
            return Some(Mismatch::Unnamed { name: name.bytes() });
        }
    }
    unwritten(listed, written)
}

/// The first name of a list that wasn't written.
fn unwritten<'a>(listed: &'a [u8], written: &[Text]) -> Option<Mismatch<'a>> {
    for line in listed.split_inclusive(|byte| *byte == b'\n') {
        let name = without_line_feed(line);
        if !written.iter().any(|text| text.is(name)) {
            return Some(Mismatch::Unwritten { name });
        }
    }
    None
}

fn is_listed(listed: &[u8], name: &[u8]) -> bool {
    let mut lines = listed.split_inclusive(|byte| *byte == b'\n');
    lines.any(|line| without_line_feed(line) == name)
}

fn is_named(parts: &[Part], name: &[u8]) -> bool {
    parts.iter().any(|part| part.name.is(name) && (part.word.is(b"after") || part.word.is(b"gone")))
}
