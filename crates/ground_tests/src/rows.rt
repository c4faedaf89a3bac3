// Rows up to their limit, and sets of types, each call once with ample memory.
use eb_base::{Items, TypeNo};
use eb_schema::{Cell, Row, TypeSet, TypeSetFault, Val};
use std::alloc::Global;

/// A cell of the type of this number, with one value.
fn cell(alloc: Global, kind: u8, value: i64) -> Option<Cell> {
    let kind = TypeNo::new(kind)?;
    let mut values = Items::new(alloc);
    values.push(Val::Num(value)).ok()?;
    Some(Cell { kind, values })
}

/// Puts a cell with one value into a row: whether the row has it now.
fn put(alloc: Global, row: &mut Row, kind: u8, value: i64) -> Option<bool> {
    let cell = cell(alloc, kind, value)?;
    row.put(cell).ok()
}

/// A copy of a row with cells of the types `most` down to 1, put in this order, each with the value 7.
fn row_of(alloc: Global, most: u8) -> Option<Row> {
    let mut row = Row::open(alloc);
    for count in 0..most {
        put(alloc, &mut row, most - count, 7)?;
    }
    row.copy(alloc).ok()
}

/// The value of the cell of a type, if there is one.
fn value_of(row: &Row, kind: u8) -> Option<Val> {
    let cell = row.cell(TypeNo::new(kind)?)?;
    cell.values.get(0).copied()
}

/// The type of the cell at a place of a row, or 0.
fn kind_at(row: &Row, at: usize) -> u8 {
    match row.cells().get(at) {
        Some(cell) => cell.kind.number(),
        None => 0,
    }
}

/// What is told of a full row: of a cell that it has, and of one more.
fn full_row(alloc: Global) -> Option<(Option<bool>, Option<bool>, usize)> {
    let mut row = row_of(alloc, 32)?;
    let kept = put(alloc, &mut row, 32, 8);
    let more = put(alloc, &mut row, 33, 8);
    Some((kept, more, row.cells().len()))
}

#[test]
fn a_full_row_takes_no_new_type(rt: HostRuntime) {
    assert_eq!(rt; full_row(rt.alloc()), Some((Some(true), Some(false), 32)));
}

/// The first and the last type of a row, and two values after a cell was put in the place of another.
fn row_facts(alloc: Global) -> Option<(u8, u8, Option<Val>, Option<Val>)> {
    let mut row = row_of(alloc, 3)?;
    put(alloc, &mut row, 2, -1)?;
    Some((
        kind_at(&row, 0),
        kind_at(&row, 2),
        value_of(&row, 2),
        value_of(&row, 4),
    ))
}

#[test]
fn cells_ascend_and_are_found(rt: HostRuntime) {
    assert_eq!(rt;
        row_facts(rt.alloc()),
        Some((1, 3, Some(Val::Num(-1)), None))
    );
}

/// The types 1 to `most`, each twice, from the last one down.
fn kinds(alloc: Global, most: u8) -> Option<Items<TypeNo>> {
    let mut kinds = Items::new(alloc);
    for count in 0..most {
        let kind = TypeNo::new(most - count)?;
        kinds.push(kind).ok()?;
        kinds.push(kind).ok()?;
    }
    Some(kinds)
}

/// How many types the set of these has, or why there is none.
fn set_size(alloc: Global, most: u8) -> Option<Result<usize, TypeSetFault>> {
    let kinds = kinds(alloc, most)?;
    match TypeSet::of(alloc, kinds.items()) {
        Ok(set) => Some(Ok(set.kinds().len())),
        Err(fault) => Some(Err(fault)),
    }
}

#[test]
fn a_set_has_each_type_once(rt: HostRuntime) {
    assert_eq!(rt; set_size(rt.alloc(), 32), Some(Ok(32)));
}

#[test]
fn more_types_are_no_set(rt: HostRuntime) {
    assert_eq!(rt; set_size(rt.alloc(), 33), Some(Err(TypeSetFault::TooMany)));
}

/// Whether the set of a row is the set of its types, has the first type, and has another.
fn set_facts(alloc: Global) -> Option<(bool, bool, bool)> {
    let row = row_of(alloc, 3)?;
    let set = TypeSet::of_row(alloc, &row).ok()?;
    let kinds = kinds(alloc, 3)?;
    let other = TypeSet::of(alloc, kinds.items()).ok()?;
    let other = other.copy(alloc).ok()?;
    Some((
        set.same(&other),
        set.has(TypeNo::FIRST),
        set.has(TypeNo::new(4)?),
    ))
}

#[test]
fn a_row_has_the_set_of_its_types(rt: HostRuntime) {
    assert_eq!(rt; set_facts(rt.alloc()), Some((true, true, false)));
}
