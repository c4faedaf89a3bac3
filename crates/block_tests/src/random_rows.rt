// Two chunks and two lists of rows under the same random changes.
ghost use Rattle.std.specs.Prelude.{◌<◌};

use crate::layout_texts::layout;
use crate::row_lines::{Line, are_lines, chunk, has_row, line_of, push, set};
use eb_base::Entity;
use eb_chunk::Chunk;
use eb_schema::{Kind, Layout, Slot};
use std::alloc::Global;

/// Numbers by a linear rule of 64 bits.
#[derive(Drop)]
struct Draws {
    state: u64,
}

impl Draws {
    /// The next 64 bits.
    fn next(&mut self) -> u64 {
        self.state = self
            .state
            .wrapping_mul(6364136223846793005)
            .wrapping_add(1442695040888963407);
        self.state ^ (self.state >> 29)
    }

    /// A number below this one.
    fn below(&mut self, most: u32) -> u32
        requires { 0 < most }
        ensures { result < most }
    {
        (self.next() % u64::from(most)) as u32
    }

    /// A value of a kind.
    fn slot(&mut self, kind: Kind) -> Slot {
        match kind {
            Kind::I8 => Slot::Num(i64::from(self.below(256)) - 128),
            Kind::I16 => Slot::Num(i64::from(self.below(65536)) - 32768),
            Kind::I32 => Slot::Num(i64::from(self.below(4294967295)) - 2147483648),
            Kind::Ref => Slot::Link(Entity {
                index: self.below(1000),
                serial: self.next(),
            }),
            _ => Slot::Num(self.next().cast_signed()),
        }
    }
}

/// A chunk, and its rows as plain values.
#[derive(Drop)]
struct Tracked {
    chunk: Chunk,
    lines: Vec<Line>,
}

/// A row with random values.
fn drawn(alloc: Global, draws: &mut Draws, layout: &Layout) -> Option<Line> {
    let mut slots = Vec::new(alloc);
    for column in 0..layout.columns() {
        let kind = layout.kind_at(column);
        slots.push(draws.slot(kind)).ok()?;
    }
    Some(line_of(draws.below(1000000), slots))
}

/// Adds a random row to both, if there is room.
fn add(alloc: Global, draws: &mut Draws, layout: &Layout, rows: &mut Tracked) -> Option<()> {
    let line = drawn(alloc, draws, layout)?;
    if push(&mut rows.chunk, layout, &line) {
        rows.lines.push(line).ok()?;
    }
    Some(())
}

/// Sets a random value of a row in both, if the row is there.
fn change(draws: &mut Draws, layout: &Layout, rows: &mut Tracked, row: u32) -> Option<()> {
    let columns = layout.columns();
    if columns == 0 {
        return None;
    }
    let column = draws.below(columns);
    let slot = draws.slot(layout.kind_at(column));
    if set(&mut rows.chunk, layout, row, column, slot) {
        let line = rows.lines.get_mut(row as usize)?;
        *line.slots.get_mut(column as usize)? = slot;
    }
    Some(())
}

/// Takes a row out of both, and puts the last in its place, if the row is there.
fn leave(layout: &Layout, rows: &mut Tracked, row: u32) {
    if has_row(&rows.chunk, layout, row) && (row as usize) < rows.lines.len() {
        rows.chunk.fill_own(layout, row);
        rows.lines.swap_remove(row as usize);
    }
}

/// Puts the last of the other rows in the place of a row, if both are there.
fn fill(layout: &Layout, rows: &mut Tracked, row: u32, other: &mut Tracked) -> Option<()> {
    if has_row(&rows.chunk, layout, row) && has_row(&other.chunk, layout, 0) {
        rows.chunk.fill_gap(layout, row, &mut other.chunk);
        *rows.lines.get_mut(row as usize)? = other.lines.pop()?;
    }
    Some(())
}

/// One random change of both; every second one adds a row.
fn step(
    alloc: Global,
    draws: &mut Draws,
    layout: &Layout,
    rows: &mut Tracked,
    other: &mut Tracked,
) -> Option<()> {
    let row = draws.below(layout.capacity() + 1);
    match draws.below(8) {
        0 => leave(layout, rows, row),
        1 => fill(layout, rows, row, other)?,
        2 | 3 => change(draws, layout, rows, row)?,
        _ => add(alloc, draws, layout, rows)?,
    }
    Some(())
}

/// An empty chunk, and no rows.
fn no_rows(alloc: Global) -> Option<Tracked> {
    Some(Tracked {
        chunk: chunk(alloc)?,
        lines: Vec::new(alloc),
    })
}

/// Whether two chunks have the rows of their lists after each of so many changes.
fn follow(
    alloc: Global,
    draws: &mut Draws,
    layout: &Layout,
    one: &mut Tracked,
    two: &mut Tracked,
    changes: u32,
) -> Option<bool> {
    for _ in 0..changes {
        step(alloc, draws, layout, one, two)?;
        step(alloc, draws, layout, two, one)?;
        let is_one = are_lines(&one.chunk, layout, &one.lines);
        if !is_one || !are_lines(&two.chunk, layout, &two.lines) {
            return Some(false);
        }
    }
    Some(true)
}

/// The same, from empty chunks on, with the layout of some types.
fn followed(alloc: Global, types: &[u8], changes: u32) -> Option<bool> {
    let layout = layout(alloc, types)?;
    let mut draws = Draws { state: 22 };
    let mut one = no_rows(alloc)?;
    let mut two = no_rows(alloc)?;
    follow(alloc, &mut draws, &layout, &mut one, &mut two, changes)
}

#[test]
fn chunks_follow_lists_of_rows(rt: HostRuntime) {
    let alloc = rt.alloc();
    assert_eq!(rt; followed(alloc, &[1, 5], 1000), Some(true));
    assert_eq!(rt; followed(alloc, &[7, 8, 9], 250), Some(true));
}
