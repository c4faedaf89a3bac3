// The memory of entities to come.
ghost use Rattle.std.specs.Prelude.{◌≡◌, [], ◌∷◌, ◌++◌, IfOk, OnOk, All, length, map};
ghost use Rattle.eb_schema.specs.Rows.{kinds_of};
ghost use Rattle.eb_world.specs.Beings.{IsBlank, flat};
ghost use Rattle.eb_world.specs.Worlds.{RowFits};

use crate::beings::Blank;
use eb_base::{Memory, Reserved};
use eb_schema::{Row, Schema, TypeSet};
use std::alloc::Global;
use std::collections::VecDeque;

/// How many values a row has. Where they are more than any memory holds, want of memory.
fn value_count(row: &Row) -> Result<usize, Memory>
    ensures { IfOk result (λ n. n ≡ length (flat row.now)) }
{
    let mut count: usize = 0;
    for cell in row.cells() {
        count = count.checked_add(cell.values.len()).ok_or(Memory)?;
    }
    Ok(count)
}

/// The memory of an entity with the types of a row.
fn blank_of(alloc: Global, schema: &Schema, row: &Row) -> Result<Blank, Memory>
    requires { RowFits schema.now row.now }
    ensures kinds { IfOk result (λ blank. blank.kinds ≡ kinds_of row.now) }
    ensures ready { IfOk result (IsBlank schema.now) }
{
    let kinds = TypeSet::of_row(alloc, row)?;
    let mut values = Reserved::new(alloc);
    values.reserve(value_count(row)?)?;
    Ok(Blank { kinds, values })
}

/// Adds the memory of an entity with the types of a row.
fn add_blank(
    blanks: &mut VecDeque<Blank>,
    alloc: Global,
    schema: &Schema,
    row: &Row,
) -> Result<(), Memory>
    requires fits { RowFits schema.now row.now }
    requires ready { All (IsBlank schema.now) blanks.old.items }
    ensures kinds { OnOk result (map (λ b. b.kinds) blanks.new.items ≡ map (λ b. b.kinds) blanks.old.items ++ kinds_of row.now ∷ []) }
    ensures ready { OnOk result (All (IsBlank schema.now) blanks.new.items) }
{
    blanks.push_back(blank_of(alloc, schema, row)?)?;
    Ok(())
}

/// The memory of entities with the types of these rows, in order.
pub fn blanks_of(alloc: Global, schema: &Schema, rows: &[Row]) -> Result<VecDeque<Blank>, Memory>
    requires { All (RowFits schema.now) rows.now }
    ensures kinds { IfOk result (λ blanks. map (λ b. b.kinds) blanks.items ≡ map kinds_of rows.now) }
    ensures ready { IfOk result (λ blanks. All (IsBlank schema.now) blanks.items) }
{
    let mut blanks = VecDeque::new(alloc);
    for row in rows {
        add_blank(&mut blanks, alloc, schema, row)?;
    }
    Ok(blanks)
}
