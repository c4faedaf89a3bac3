// A row that is carried from one layout to another. The columns of both are in the order of types and fields, so both lists
// are walked once, side by side.
ghost use Rattle.std.specs.Prelude.{◌≡◌, ◌≤◌, ◌<◌, ℕ, Some, length};
ghost use Rattle.eb_schema.specs.Layouts.{capacity, column_at, field_cmp, find_column};
ghost use Rattle.eb_schema.specs.Slots.{Fits};
ghost use Rattle.eb_chunk.specs.Merging.{place_of};
ghost use Rattle.eb_chunk.specs.Rows.{Alike, carried_set, table, row_in, slot_or_zero, zero_of};

use crate::cells::{read_entity, read_name, read_slot, write_entity, write_name, write_slot};
use eb_base::{Entity, TypeNo};
use eb_block::Block;
use eb_schema::{Kind, Layout, Slot};
use std::cmp::Ordering;

// The value of nothing, of a kind.
fn zero(kind: Kind) -> Slot
    ensures value { result ≡ zero_of kind }
    ensures fits { Fits kind result }
{
    match kind {
        Kind::Ref => Slot::Link(Entity::NULL),
        _ => Slot::Num(0),
    }
}

// How the field of a column stands to a field of a type.
fn compare(layout: &Layout, column: u32, kind: TypeNo, field: u8) -> Ordering
    requires { column < length layout.now }
    ensures { result ≡ field_cmp (column_at layout.now column) kind field }
{
    let (own_kind, own_field) = layout.source_of(column);
    own_kind
        .number()
        .cmp(&kind.number())
        .then(own_field.cmp(&field))
}

// The first column from `at` on that doesn't come before a field of a type.
fn seek(layout: &Layout, at: u32, kind: TypeNo, field: u8) -> u32
    requires { at ≤ place_of kind field layout.now }
    ensures { result ≡ place_of kind field layout.now }
{
    for column in at..layout.columns() {
        if compare(layout, column, kind, field).is_ge() {
            return column;
        }
    }
    layout.columns()
}

// The column at the place of a field, if it is that of the field.
fn column_there(layout: &Layout, at: u32, kind: TypeNo, field: u8) -> Option<u32>
    requires { at ≡ place_of kind field layout.now }
    ensures { result ≡ find_column kind field 0 layout.now }
{
    if at < layout.columns() && compare(layout, at, kind, field).is_eq() {
        Some(at)
    } else {
        None
    }
}

// What a row has in a column, or nothing where there is no column.
fn read_or_zero(from: &Block, layout: &Layout, row: u32, column: Option<u32>, holds: Kind) -> Slot
    requires row { row < capacity layout.now }
    requires column { (k : ℕ) → column ≡ Some k → (k < length layout.now) × ((column_at layout.now k).holds ≡ holds) }
    ensures value { result ≡ slot_or_zero column (row_in (table layout.now from.now) row) holds }
    ensures fits { Fits holds result }
{
    match column {
        Some(column) => read_slot(from, layout, row, column),
        None => zero(holds),
    }
}

/// Writes a row with the values that a row of another layout has of the same fields, and zeros in the other columns.
pub(crate) fn carry_row(
    block: &mut Block,
    layout: &Layout,
    row: u32,
    other: &Block,
    from_layout: &Layout,
    from: u32,
)
    requires rows { (row < capacity layout.now) × (from < capacity from_layout.now) }
    requires alike { Alike layout.now from_layout.now }
    ensures { table layout.now block.new ≡ carried_set layout.now from_layout.now (table layout.now block.old) row (table from_layout.now other.now) from }
{
    write_entity(block, layout, row, read_entity(other, from_layout, from));
    write_name(block, layout, row, read_name(other, from_layout, from));
    let mut at = 0;
    for column in 0..layout.columns() {
        let (kind, field) = layout.source_of(column);
        at = seek(from_layout, at, kind, field);
        let source = column_there(from_layout, at, kind, field);
        let slot = read_or_zero(other, from_layout, from, source, layout.kind_at(column));
        write_slot(block, layout, row, column, slot);
    }
}
