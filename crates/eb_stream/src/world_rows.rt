// From stored rows to rows of the world.
ghost use Rattle.std.specs.Prelude.{◌≡◌, ◌≤◌, All, IfOk, length, map};
ghost use Rattle.std.specs.List.Sorted.{IsStrictlySortedBy};
ghost use Rattle.std.specs.Ordering.{nat_cmp};
ghost use Rattle.eb_stream.specs.Loading.{val_of, world_cell, cells_of, IsOrdered};

use eb_base::{Items, Memory};
use eb_file::{ImageRow, Link, Stored, StoredCell};
use eb_schema::{Cell, Row, Val};
use std::alloc::Global;

/// What a stored value is in the world: a reference leads to its name.
fn world_value(value: &Stored) -> Val
    ensures { result ≡ val_of value.now }
{
    match value {
        Stored::Num(number) => Val::Num(*number),
        Stored::Link(Link::Local(name)) => Val::To(*name),
        Stored::Link(Link::Zero(name)) => Val::To(*name),
        Stored::Link(Link::Null) => Val::Null,
    }
}

/// A stored cell in the world.
fn cell_of(alloc: Global, stored: &StoredCell) -> Result<Cell, Memory>
    ensures { IfOk result (λ cell. cell ≡ world_cell stored.now) }
{
    let stored_values = stored.values.items();
    let mut values = Vec::with_capacity(alloc, stored_values.len())?;
    for value in stored_values {
        values.push(world_value(value))?;
    }
    Ok(Cell {
        kind: stored.kind,
        values: Items::of(values),
    })
}

/// The cells of a stored row.
fn world_cells(alloc: Global, stored: &ImageRow) -> Result<Items<Cell>, Memory>
    ensures { IfOk result (λ cells. cells ≡ cells_of stored.now) }
{
    let stored_cells = stored.cells.items();
    let mut cells = Vec::with_capacity(alloc, stored_cells.len())?;
    for cell in stored_cells {
        cells.push(cell_of(alloc, cell)?)?;
    }
    Ok(Items::of(cells))
}

/// A stored row, as a row of the world.
fn world_row(alloc: Global, stored: &ImageRow) -> Result<Row, Memory>
    requires { IsOrdered stored.now }
    ensures { IfOk result (λ row. row ≡ cells_of stored.now) }
{
    let cells = world_cells(alloc, stored)?;
    Ok(Row::of(cells))
}

/// The rows of an image, as rows of the world.
pub fn world_rows(alloc: Global, stored: &[ImageRow]) -> Result<Vec<Row>, Memory>
    requires { All IsOrdered stored.now }
    ensures { IfOk result (λ rows. rows.items ≡ map cells_of stored.now) }
{
    let mut rows = Vec::with_capacity(alloc, stored.len())?;
    for row in stored {
        rows.push(world_row(alloc, row)?)?;
    }
    Ok(rows)
}
