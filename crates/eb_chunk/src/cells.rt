// One cell of a row in a block: the only functions that know where bytes lie.
ghost use Rattle.std.specs.Prelude.{◌≡◌, ◌+◌, ◌*◌, ◌≤◌, ◌<◌, length};
ghost use Rattle.eb_schema.specs.Layouts.{capacity, column_at, start_of};
ghost use Rattle.eb_schema.specs.Slots.{Fits, width};
ghost use Rattle.eb_chunk.specs.Rows.{table, row_in, entity_set, name_set, slot_set, slot_in};

use eb_base::{Entity, Name};
use eb_block::Block;
use eb_schema::{Layout, Slot, get_entity, get_name, get_slot, put_entity, put_name, put_slot};

/// How many bytes an entity has in a block.
const ENTITY_BYTES: usize = 12;

/// How many bytes a name has in a block.
const NAME_BYTES: usize = 16;

// Where the value of a row starts in a column, and how wide it is.
fn place(layout: &Layout, row: u32, column: u32) -> (usize, usize)
    requires rows { row < capacity layout.now }
    requires columns { column < length layout.now }
    ensures place { result.0 ≡ start_of layout.now column + row * width (column_at layout.now column).holds }
    ensures width { result.1 ≡ width (column_at layout.now column).holds }
    ensures within { result.0 + result.1 ≤ 16384 }
{
    let width = layout.kind_at(column).width();
    let start = layout.start_of(column) as usize;
    (start + row as usize * width, width)
}

/// Writes the value of a row in a column.
pub(crate) fn write_slot(block: &mut Block, layout: &Layout, row: u32, column: u32, slot: Slot)
    requires rows { row < capacity layout.now }
    requires columns { column < length layout.now }
    requires fits { Fits (column_at layout.now column).holds slot }
    ensures { table layout.now block.new ≡ slot_set (table layout.now block.old) row column slot }
{
    let kind = layout.kind_at(column);
    let (at, width) = place(layout, row, column);
    put_slot(kind, slot, block.range_mut(at, width));
}

/// The value of a row in a column.
pub(crate) fn read_slot(block: &Block, layout: &Layout, row: u32, column: u32) -> Slot
    requires rows { row < capacity layout.now }
    requires columns { column < length layout.now }
    ensures value { result ≡ slot_in (table layout.now block.now) row column }
    ensures fits { Fits (column_at layout.now column).holds result }
{
    let kind = layout.kind_at(column);
    let (at, width) = place(layout, row, column);
    get_slot(kind, block.read(at, width))
}

/// Writes the entity of a row.
pub(crate) fn write_entity(block: &mut Block, layout: &Layout, row: u32, entity: Entity)
    requires { row < capacity layout.now }
    ensures { table layout.now block.new ≡ entity_set (table layout.now block.old) row entity }
{
    let _rows = layout.capacity();
    put_entity(
        entity,
        block.range_mut(row as usize * ENTITY_BYTES, ENTITY_BYTES),
    );
}

/// The entity of a row.
pub(crate) fn read_entity(block: &Block, layout: &Layout, row: u32) -> Entity
    requires { row < capacity layout.now }
    ensures { result ≡ (row_in (table layout.now block.now) row).entity }
{
    let _rows = layout.capacity();
    get_entity(block.read(row as usize * ENTITY_BYTES, ENTITY_BYTES))
}

// Where the name of a row starts.
fn name_place(layout: &Layout, row: u32) -> usize
    requires { row < capacity layout.now }
    ensures place { result ≡ capacity layout.now * 12 + row * 16 }
    ensures within { result + 16 ≤ 16384 }
{
    layout.capacity() as usize * ENTITY_BYTES + row as usize * NAME_BYTES
}

/// Writes the name of a row.
pub(crate) fn write_name(block: &mut Block, layout: &Layout, row: u32, name: Name)
    requires { row < capacity layout.now }
    ensures { table layout.now block.new ≡ name_set (table layout.now block.old) row name }
{
    let at = name_place(layout, row);
    put_name(name, block.range_mut(at, NAME_BYTES));
}

/// The name of a row.
pub(crate) fn read_name(block: &Block, layout: &Layout, row: u32) -> Name
    requires { row < capacity layout.now }
    ensures { result ≡ (row_in (table layout.now block.now) row).name }
{
    let at = name_place(layout, row);
    get_name(block.read(at, NAME_BYTES))
}
