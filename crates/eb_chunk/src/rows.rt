// Whole rows: one is written, or copied from another, value by value.
ghost use Rattle.std.specs.Prelude.{◌≡◌, ◌≢◌, ◌<◌, slice_set};
ghost use Rattle.eb_schema.specs.Layouts.{capacity};
ghost use Rattle.eb_chunk.specs.Rows.{AreSlots, table, row_of, row_in};

use crate::cells::{read_entity, read_name, read_slot, write_entity, write_name, write_slot};
use eb_base::{Entity, Name};
use eb_block::Block;
use eb_schema::{Layout, Slot};

/// Writes a row.
pub(crate) fn write_row(
    block: &mut Block,
    layout: &Layout,
    row: u32,
    entity: Entity,
    name: Name,
    slots: &[Slot],
)
    requires rows { row < capacity layout.now }
    requires slots { AreSlots layout.now slots.now }
    ensures { table layout.now block.new ≡ slice_set (table layout.now block.old) row (row_of entity name slots.now) }
{
    write_entity(block, layout, row, entity);
    write_name(block, layout, row, name);
    for column in 0..layout.columns() {
        write_slot(block, layout, row, column, slots[column as usize]);
    }
}

/// Copies a row of another block.
pub(crate) fn copy_row_from(block: &mut Block, layout: &Layout, row: u32, other: &Block, from: u32)
    requires rows { (row < capacity layout.now) × (from < capacity layout.now) }
    ensures { table layout.now block.new ≡ slice_set (table layout.now block.old) row (row_in (table layout.now other.now) from) }
{
    write_entity(block, layout, row, read_entity(other, layout, from));
    write_name(block, layout, row, read_name(other, layout, from));
    for column in 0..layout.columns() {
        write_slot(
            block,
            layout,
            row,
            column,
            read_slot(other, layout, from, column),
        );
    }
}

/// Copies a row of the block over another one.
fn copy_row(block: &mut Block, layout: &Layout, row: u32, from: u32)
    requires rows { (row < capacity layout.now) × (from < capacity layout.now) }
    requires other { from ≢ row }
    ensures { table layout.now block.new ≡ slice_set (table layout.now block.old) row (row_in (table layout.now block.old) from) }
{
    let entity = read_entity(block, layout, from);
    let name = read_name(block, layout, from);
    write_entity(block, layout, row, entity);
    write_name(block, layout, row, name);
    for column in 0..layout.columns() {
        let slot = read_slot(block, layout, from, column);
        write_slot(block, layout, row, column, slot);
    }
}

/// Copies a row of the block over another one, or over itself.
#[tactic(auto, using(crate::proofs::RowFacts::same_row))]
pub(crate) fn move_row(block: &mut Block, layout: &Layout, row: u32, from: u32)
    requires rows { (row < capacity layout.now) × (from < capacity layout.now) }
    ensures { table layout.now block.new ≡ slice_set (table layout.now block.old) row (row_in (table layout.now block.old) from) }
{
    if from != row {
        copy_row(block, layout, row, from);
    }
}
