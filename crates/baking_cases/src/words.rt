// Values, cells and faults as words with a blank between them.
use eb_base::{Memory, Name};
use eb_eval::RunFault;
use eb_schema::{Cell, Row, Val};
use std::alloc::Global;

/// Adds a word.
pub fn put(out: &mut Vec<u8>, word: &str) -> Result<(), Memory> {
    if !out.is_empty() {
        out.push(b' ')?;
    }
    out.extend_from_slice(word.as_bytes())?;
    Ok(())
}

/// Adds a name: all four numbers.
pub fn put_name(alloc: Global, out: &mut Vec<u8>, name: Name) -> Result<(), Memory> {
    let Name {
        play,
        scene,
        object,
        extra,
    } = name;
    let word = format!(in alloc; "{play}.{scene}.{object}.{extra}")?;
    put(out, word.as_str())
}

fn put_value(alloc: Global, out: &mut Vec<u8>, value: Val) -> Result<(), Memory> {
    match value {
        Val::Num(number) => {
            let word = format!(in alloc; "{number}")?;
            put(out, word.as_str())
        }
        Val::To(name) => put_name(alloc, out, name),
        Val::Null => put(out, "null"),
        Val::Gone => put(out, "gone"),
    }
}

/// Adds a type by its number.
pub fn put_kind(alloc: Global, out: &mut Vec<u8>, kind: u8) -> Result<(), Memory> {
    let word = format!(in alloc; "#{kind}")?;
    put(out, word.as_str())
}

fn put_cell(alloc: Global, out: &mut Vec<u8>, cell: &Cell) -> Result<(), Memory> {
    put_kind(alloc, out, cell.kind.number())?;
    for value in cell.values.items() {
        put_value(alloc, out, *value)?;
    }
    Ok(())
}

/// Adds the cells of a row: each its type and its values.
pub fn put_row(alloc: Global, out: &mut Vec<u8>, row: &Row) -> Result<(), Memory> {
    for cell in row.cells() {
        put_cell(alloc, out, cell)?;
    }
    Ok(())
}

/// The word of a fault.
pub fn fault_word(fault: RunFault) -> &'static str {
    match fault {
        RunFault::Overflow => "Overflow",
        RunFault::DivZero => "DivZero",
        RunFault::Range => "Range",
    }
}
