// The files of rows: each part with its rows, and what is printed of them.
use crate::answers::answer;
use crate::tasks::{Language, Task, task_of};
use case_parts::{CaseFault, Part, Tally, lines_of, read_file};
use eb_base::Text;
use eb_schema::Schema;
use serde_json::Value;
use std::alloc::{AllocError, Global};
use std::rt::Files;

/// The text of a row, and what must come of it.
#[derive(Drop)]
struct Row {
    text: Text,
    wanted: Text,
}

/// Tries the rows of a file, and prints a line for each of its parts.
pub fn try_file<R: Files + AllocGlobal + Print>(
    rt: &R,
    name: &str,
    tally: &mut Tally,
) -> Result<(), CaseFault> {
    match read_file(rt, name) {
        Ok(parts) => try_parts(rt, name, parts.as_slice(), tally),
        Err(fault) => failed(rt, name, fault, tally),
    }
}

fn failed<R: Print>(
    rt: &R,
    name: &str,
    fault: CaseFault,
    tally: &mut Tally,
) -> Result<(), CaseFault> {
    tally.count(false);
    println!(rt; "FAILED {name}: {fault}")?;
    Ok(())
}

fn try_parts<R: AllocGlobal + Print>(
    rt: &R,
    name: &str,
    parts: &[Part],
    tally: &mut Tally,
) -> Result<(), CaseFault> {
    let schema = match schema_in(rt.alloc(), parts) {
        Ok(schema) => schema,
        Err(fault) => return failed(rt, name, fault, tally),
    };
    for part in parts {
        let fault = CaseFault::Line(part.line, "an unknown head");
        match task_of(part) {
            Some((task, language)) => try_part(rt, name, &schema, part, task, language, tally)?,
            None if part.word.is(b"schema.json") => {}
            None => failed(rt, name, fault, tally)?,
        }
    }
    Ok(())
}

/// The schema of a file: that of its part `schema.json`.
fn schema_in(alloc: Global, parts: &[Part]) -> Result<Schema, CaseFault> {
    let Some(part) = parts.iter().find(|part| part.word.is(b"schema.json")) else {
        return Err(CaseFault::Line(1, "no part schema.json"));
    };
    match schema_of(alloc, part.body.bytes()) {
        Some(schema) => Ok(schema),
        None => Err(CaseFault::Line(part.line, "no schema")),
    }
}

fn schema_of(alloc: Global, text: &[u8]) -> Option<Schema> {
    let document = Value::from_slice(alloc, text).ok()?;
    Schema::read(alloc, &document).ok()
}

/// Tries the rows of a part, and prints each that isn't as it says.
fn try_part<R: AllocGlobal + Print>(
    rt: &R,
    name: &str,
    schema: &Schema,
    part: &Part,
    task: Task,
    language: Language,
    tally: &mut Tally,
) -> Result<(), CaseFault> {
    let alloc = rt.alloc();
    let lines = lines_of(alloc, part.body.bytes())?;
    let mut line = part.line.saturating_add(1);
    for chunk in lines.as_slice().chunks(task.lines()) {
        let why = try_row(alloc, schema, task, language, chunk)?;
        tally.count(why.is_none());
        if let Some(why) = why {
            println!(rt; "FAILED {name}: line {line}: {why}")?;
        }
        line = line.saturating_add(task.lines() as u64);
    }
    let word = String::from_utf8_lossy(alloc, part.word.bytes())?;
    let of = String::from_utf8_lossy(alloc, part.name.bytes())?;
    let count = lines.len() / task.lines();
    println!(rt; "{name}: {count} rows of {word} {of}")?;
    Ok(())
}

/// What isn't as a row says, where there is something.
fn try_row(
    alloc: Global,
    schema: &Schema,
    task: Task,
    language: Language,
    lines: &[&[u8]],
) -> Result<Option<String>, CaseFault> {
    let Some(row) = row_of(alloc, task, lines)? else {
        return Ok(Some(String::from_str(alloc, "no row")?));
    };
    let came = answer(alloc, schema, task, language, row.text.bytes())?;
    if came.is(row.wanted.bytes()) {
        return Ok(None);
    }
    let came = String::from_utf8_lossy(alloc, came.bytes())?;
    let wanted = String::from_utf8_lossy(alloc, row.wanted.bytes())?;
    Ok(Some(format!(in alloc; "it comes to\n    {came}\nand not\n    {wanted}")?))
}

fn row_of(alloc: Global, task: Task, lines: &[&[u8]]) -> Result<Option<Row>, CaseFault> {
    match (task, lines) {
        (Task::Accepted, [text]) => Ok(Some(row_with(alloc, text, b"accepted")?)),
        (Task::Read, [text]) => Ok(Some(row_with(alloc, text, b"read")?)),
        (Task::Refused, [line]) => refused_row(alloc, line),
        (Task::Printed | Task::Resolved, [text, wanted]) => Ok(Some(row_with(
            alloc, text, wanted,
        )?)),
        _ => Ok(None),
    }
}

fn row_with(alloc: Global, text: &[u8], wanted: &[u8]) -> Result<Row, CaseFault> {
    Ok(Row {
        text: Text::of(alloc, text)?,
        wanted: Text::of(alloc, wanted)?,
    })
}

/// The row of a letter and a text with one mark `^`, which is no part of the text.
fn refused_row(alloc: Global, line: &[u8]) -> Result<Option<Row>, CaseFault> {
    match line {
        [letter, b' ', part @ ..] if letter.is_ascii_uppercase() => {
            let Some(mark) = part.iter().position(|byte| *byte == b'^') else {
                return Ok(None);
            };
            let letter = char::from(*letter);
            let wanted = format!(in alloc; "{letter} {mark}")?;
            Ok(Some(Row {
                text: Text::from_vec(unmarked(alloc, part)?),
                wanted: Text::from_vec(wanted.into_bytes()),
            }))
        }
        _ => Ok(None),
    }
}

/// The text without its `^`.
fn unmarked(alloc: Global, part: &[u8]) -> Result<Vec<u8>, AllocError> {
    let mut text = Vec::new(alloc);
    for byte in part {
        if *byte != b'^' {
            text.push(*byte)?;
        }
    }
    Ok(text)
}
