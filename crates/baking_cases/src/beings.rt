// Entities that are written by hand: `NAME #TYPE VALUE .. #TYPE ..; NAME ..`, each in section 0 of its scene. A value is a
// number, a name, `null` or `gone`.
use case_parts::CaseFault;
use eb_base::{Items, Name, Place, TypeNo, name_read};
use eb_schema::{Baked, Cell, Row, Val};
use std::alloc::Global;

/// What a text of entities isn't.
const NO_ENTITIES: CaseFault = CaseFault::Line(0, "no entities");

fn value_of(word: &str) -> Option<Val> {
    match word {
        "null" => Some(Val::Null),
        "gone" => Some(Val::Gone),
        _ => match name_read(word.as_bytes()) {
            Some(name) => Some(Val::To(name)),
            None => Some(Val::Num(word.parse::<i64>().ok()?)),
        },
    }
}

fn kind_of(word: &str) -> Option<TypeNo> {
    TypeNo::new(word.parse::<u8>().ok()?)
}

/// The cell of a text `TYPE VALUE ..`.
fn cell_of(alloc: Global, text: &str) -> Result<Cell, CaseFault> {
    let text = text.trim();
    let (kind, rest) = text.split_once(' ').unwrap_or((text, ""));
    let Some(kind) = kind_of(kind) else {
        return Err(NO_ENTITIES);
    };
    let mut values = Items::new(alloc);
    for word in rest.split_whitespace() {
        let Some(value) = value_of(word) else {
            return Err(NO_ENTITIES);
        };
        values.push(value)?;
    }
    Ok(Cell { kind, values })
}

/// The row of a text of cells, each behind a `#` but the first.
fn row_of(alloc: Global, text: &str) -> Result<Row, CaseFault> {
    let mut row = Row::open(alloc);
    for part in text.split('#') {
        let cell = cell_of(alloc, part)?;
        if !row.put(cell)? {
            return Err(NO_ENTITIES);
        }
    }
    Ok(row)
}

fn place_of(name: Name) -> Option<Place> {
    let scene = u8::try_from(name.scene).ok()?;
    Some(Place { scene, section: 0 })
}

/// Adds the entity of a text.
fn put_entity(alloc: Global, baked: &mut Baked, text: &str) -> Result<(), CaseFault> {
    let (head, row) = match text.split_once('#') {
        Some((head, cells)) => (head, row_of(alloc, cells)?),
        None => (text, Row::open(alloc)),
    };
    let Some(name) = name_read(head.trim().as_bytes()) else {
        return Err(NO_ENTITIES);
    };
    let Some(place) = place_of(name) else {
        return Err(NO_ENTITIES);
    };
    baked.put(name, place, row)?;
    Ok(())
}

/// The entities of a text.
pub fn entities_of(alloc: Global, text: &[u8]) -> Result<Baked, CaseFault> {
    let Ok(text) = str::from_utf8(text) else {
        return Err(NO_ENTITIES);
    };
    let mut baked = Baked::open(alloc);
    for part in text.split(';') {
        put_entity(alloc, &mut baked, part)?;
    }
    Ok(baked)
}
