// Rows as plain values, and calls of a chunk that are made where they may be: whether they may is asked when the tests run.
ghost use Rattle.std.specs.Prelude.{◌≡◌, ◌≤◌, ◌<◌, IsTrue};
ghost use Rattle.eb_schema.specs.Layouts.{capacity};
ghost use Rattle.eb_schema.specs.Slots.{Fits};
ghost use Rattle.eb_chunk.specs.Rows.{AreSlots};

use eb_base::{Entity, Name};
use eb_block::Pool;
use eb_chunk::Chunk;
use eb_schema::{Kind, Layout, Slot};
use std::alloc::Global;

/// A row as a plain value.
#[derive(Drop)]
pub struct Line {
    /// Its entity.
    pub entity: Entity,
    /// Its name.
    pub name: Name,
    /// A value for each column.
    pub slots: Vec<Slot>,
}

/// Whether a value fits a kind.
pub fn fits(kind: Kind, slot: Slot) -> bool
    ensures { IsTrue result → Fits kind slot }
{
    match (kind, slot) {
        (Kind::I8, Slot::Num(number)) => number >= -128 && number <= 127,
        (Kind::I16, Slot::Num(number)) => number >= -32768 && number <= 32767,
        (Kind::I32, Slot::Num(number)) => number >= -2147483648 && number <= 2147483647,
        (Kind::I64 | Kind::Fix, Slot::Num(_)) => true,
        (Kind::Ref, Slot::Link(_)) => true,
        _ => false,
    }
}

/// Whether there is a value for each column, which fits.
fn are_slots(layout: &Layout, slots: &[Slot]) -> bool
    ensures { IsTrue result → AreSlots layout.now slots.now }
{
    if slots.len() != layout.columns() as usize {
        return false;
    }
    for column in 0..layout.columns() {
        if !fits(layout.kind_at(column), slots[column as usize]) {
            return false;
        }
    }
    true
}

/// Whether a row is in a chunk, which has no more rows than the layout has room for.
pub fn has_row(chunk: &Chunk, layout: &Layout, row: u32) -> bool
    ensures own { IsTrue result → chunk.now.len ≤ capacity layout.now }
    ensures row { IsTrue result → row < chunk.now.len }
{
    chunk.len() <= layout.capacity() && row < chunk.len()
}

/// An empty chunk.
pub fn chunk(alloc: Global) -> Option<Chunk> {
    let mut pool = Pool::open(alloc);
    pool.reserve(1).ok()?;
    Some(Chunk::open(pool.take()))
}

/// Adds a row, where there is room and its values fit.
pub fn push(chunk: &mut Chunk, layout: &Layout, line: &Line) -> bool {
    let may = chunk.len() < layout.capacity() && are_slots(layout, &line.slots);
    if may {
        chunk.push(layout, line.entity, line.name, &line.slots);
    }
    may
}

/// Sets a value, where its row and column are there and it fits.
pub fn set(chunk: &mut Chunk, layout: &Layout, row: u32, column: u32, slot: Slot) -> bool {
    let there = has_row(chunk, layout, row) && column < layout.columns();
    if there && fits(layout.kind_at(column), slot) {
        chunk.set(layout, row, column, slot);
        return true;
    }
    false
}

/// Whether a row of a chunk is this one.
pub fn is_line(chunk: &Chunk, layout: &Layout, row: u32, line: &Line) -> bool {
    if !has_row(chunk, layout, row) || line.slots.len() != layout.columns() as usize {
        return false;
    }
    for column in 0..layout.columns() {
        if chunk.get(layout, row, column) != line.slots[column as usize] {
            return false;
        }
    }
    chunk.entity_at(layout, row) == line.entity && chunk.name_at(layout, row) == line.name
}

/// Whether the rows of a chunk are these.
pub fn are_lines(chunk: &Chunk, layout: &Layout, lines: &[Line]) -> bool {
    if chunk.len() as usize != lines.len() {
        return false;
    }
    for row in 0..chunk.len() {
        if !is_line(chunk, layout, row, &lines[row as usize]) {
            return false;
        }
    }
    true
}

/// A row of an entity, with these values.
pub fn line_of(index: u32, slots: Vec<Slot>) -> Line {
    Line {
        entity: Entity {
            index,
            serial: u64::from(index) + 1,
        },
        name: Name {
            play: 0,
            scene: 7,
            object: index,
            extra: 0,
        },
        slots,
    }
}
